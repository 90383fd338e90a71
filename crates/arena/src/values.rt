//! Which word is whose in a queue of the form of values. Images of the first form have it, and no queue runs in it.

ghost use Rattle.std.specs.Prelude.{◌≡◌, ◌<◌, ◌≤◌};
ghost use Rattle.words.specs.declared.call.Kind.TheVariants.{Durable, Log};
ghost use Rattle.arena.specs.declared.form.Form.TheVariants.{OfValues};
ghost use Rattle.arena.specs.Broker.{block_size_in};
ghost use Rattle.arena.specs.Layout.{size_in, word_in};
ghost use Rattle.arena.specs.Limits.{AreCounts};
ghost use Rattle.arena.specs.Place.{IsPlaceIn};
ghost use Rattle.arena.specs.Shape.{greatest};
ghost use Rattle.arena.specs.DurableValues.{durable_values_size, durable_values_word};
ghost use Rattle.arena.specs.LogValues.{log_values_size, log_values_word};

use crate::layout::{Layout, MAX_LAYOUT_WORDS};
use crate::place::{Part, Place};
use words::{Kind, MAX_RECORD_NUMBER};

/// The greatest number of a node.
fn greatest(layout: &Layout) -> usize
    ensures value { result ≡ greatest layout.now }
    ensures small { result ≤ MAX_RECORD_NUMBER }
{
    layout.clients() as usize * layout.records() as usize
}

/// How many words there are.
#[tactic(auto, unfolding(crate::specs::Layout::size_in))]
pub fn size_of_values(layout: &Layout) -> usize
    ensures value { result ≡ size_in OfValues layout.now }
    ensures few { result ≤ MAX_LAYOUT_WORDS }
{
    let clients = layout.clients() as usize;
    match layout.kind() {
        Kind::Durable => 5 + 2 * clients + 4 * greatest(layout),
        Kind::Log => 6 + 2 * clients + 8 * greatest(layout),
    }
}

/// How many words a broker's block has: as many as a log queue's layout, the longer of the two.
pub fn block_size_of_values(clients: u32, records: u32) -> usize
    requires { AreCounts clients records }
    ensures value { result ≡ block_size_in OfValues clients records }
    ensures small { result ≤ MAX_LAYOUT_WORDS }
{
    let clients = clients as usize;
    6 + 2 * clients + 8 * (clients * records as usize)
}

/// The word of a place of a durable queue.
fn durable_word(layout: &Layout, place: Place) -> usize
    requires durable { layout.now.kind ≡ Durable }
    requires place { IsPlaceIn OfValues layout.now place }
    ensures word { result ≡ durable_values_word layout.now place }
    ensures below { result < durable_values_size layout.now }
    ensures few { greatest layout.now ≤ MAX_RECORD_NUMBER }
{
    let greatest = greatest(layout);
    let clients = layout.clients() as usize;
    let nodes_from = 2 + 2 * clients;
    match place {
        Place::Head => 0,
        Place::Tail => 1,
        Place::Announcement(client) => 2 + client.0 as usize,
        Place::Bump(client) => 2 + clients + client.0 as usize,
        Place::Item(node, Part::First) => nodes_from + 3 * node.0 as usize,
        Place::Next(node) => nodes_from + 3 * node.0 as usize + 1,
        Place::Mark(node) => nodes_from + 3 * node.0 as usize + 2,
        Place::Cell(token) => 5 + 2 * clients + 3 * greatest + token.0 as usize - 1,
        // The others are places of a log queue, or of the form of items.
        _ => unreachable!(),
    }
}

/// The word of a place of a log queue.
fn log_word(layout: &Layout, place: Place) -> usize
    requires log { layout.now.kind ≡ Log }
    requires place { IsPlaceIn OfValues layout.now place }
    ensures word { result ≡ log_values_word layout.now place }
    ensures below { result < log_values_size layout.now }
    ensures few { greatest layout.now ≤ MAX_RECORD_NUMBER }
{
    let greatest = greatest(layout);
    let clients = layout.clients() as usize;
    let nodes_from = 2 + 2 * clients;
    let entries_from = 6 + 2 * clients + 4 * greatest;
    match place {
        Place::Head => 0,
        Place::Tail => 1,
        Place::Announcement(client) => 2 + client.0 as usize,
        Place::Bump(client) => 2 + clients + client.0 as usize,
        Place::Item(node, Part::First) => nodes_from + 4 * node.0 as usize,
        Place::Next(node) => nodes_from + 4 * node.0 as usize + 1,
        Place::Insert(node) => nodes_from + 4 * node.0 as usize + 2,
        Place::Mark(node) => nodes_from + 4 * node.0 as usize + 3,
        Place::Number(entry) => entries_from + 4 * (entry.0 as usize - 1),
        Place::EntryKind(entry) => entries_from + 4 * (entry.0 as usize - 1) + 1,
        Place::Status(entry) => entries_from + 4 * (entry.0 as usize - 1) + 2,
        Place::EntryNode(entry) => entries_from + 4 * (entry.0 as usize - 1) + 3,
        // The others are places of a durable queue, or of the form of items.
        Place::Cell(_) | Place::Item(..) => unreachable!(),
    }
}

/// The word of a place.
#[tactic(auto, unfolding(crate::specs::Layout::word_in, crate::specs::Layout::size_in))]
pub fn word_of_values(layout: &Layout, place: Place) -> usize
    requires { IsPlaceIn OfValues layout.now place }
    ensures word { result ≡ word_in OfValues layout.now place }
    ensures below { result < size_in OfValues layout.now }
    ensures few { greatest layout.now ≤ MAX_RECORD_NUMBER }
{
    match layout.kind() {
        Kind::Durable => durable_word(layout, place),
        Kind::Log => log_word(layout, place),
    }
}
