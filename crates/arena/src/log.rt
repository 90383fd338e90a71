//! The words of a log queue.

ghost use Rattle.std.specs.Prelude.{◌≡◌, ◌<◌, ◌≤◌};
ghost use Rattle.words.specs.declared.call.Kind.TheVariants.{Log};
ghost use Rattle.arena.specs.Log.{entry_place as entry_place_at, log_node_place, log_place, log_size, log_word};
ghost use Rattle.arena.specs.Place.{IsPlace};
ghost use Rattle.arena.specs.Shape.{greatest};

use crate::layout::Layout;
use crate::place::{Part, Place};
use words::{Client, MAX_RECORD_NUMBER, NodeId, Token};

/// One of the seven words of a node.
fn node_place(node: NodeId, field: usize) -> Place
    ensures { result ≡ log_node_place node.0 field }
{
    match field {
        0 => Place::Item(node, Part::Length),
        1 => Place::Item(node, Part::First),
        2 => Place::Item(node, Part::Second),
        3 => Place::Item(node, Part::Third),
        4 => Place::Next(node),
        5 => Place::Insert(node),
        _ => Place::Mark(node),
    }
}

/// One of the four words of an entry.
fn entry_place(entry: Token, field: usize) -> Place
    ensures { result ≡ entry_place_at entry.0 field }
{
    match field {
        0 => Place::Number(entry),
        1 => Place::EntryKind(entry),
        2 => Place::Status(entry),
        _ => Place::EntryNode(entry),
    }
}

/// The word of a place.
pub(crate) fn word(layout: &Layout, place: Place) -> usize
    requires kind { layout.now.kind ≡ Log }
    requires place { IsPlace layout.now place }
    ensures word { result ≡ log_word layout.now place }
    ensures below { result < log_size layout.now }
    ensures few { greatest layout.now ≤ MAX_RECORD_NUMBER }
{
    let greatest = layout.greatest();
    let clients = layout.clients() as usize;
    let nodes_from = 2 + 2 * clients;
    let entries_from = 9 + 2 * clients + 7 * greatest;
    match place {
        Place::Head => 0,
        Place::Tail => 1,
        Place::Announcement(client) => 2 + client.0 as usize,
        Place::Bump(client) => 2 + clients + client.0 as usize,
        Place::Item(node, part) => nodes_from + 7 * node.0 as usize + part as usize,
        Place::Next(node) => nodes_from + 7 * node.0 as usize + 4,
        Place::Insert(node) => nodes_from + 7 * node.0 as usize + 5,
        Place::Mark(node) => nodes_from + 7 * node.0 as usize + 6,
        Place::Number(entry) => entries_from + 4 * (entry.0 as usize - 1),
        Place::EntryKind(entry) => entries_from + 4 * (entry.0 as usize - 1) + 1,
        Place::Status(entry) => entries_from + 4 * (entry.0 as usize - 1) + 2,
        Place::EntryNode(entry) => entries_from + 4 * (entry.0 as usize - 1) + 3,
        // A place of a durable queue.
        Place::Cell(_) => unreachable!(),
    }
}

/// The place of a word.
pub(crate) fn what_is(layout: &Layout, word: usize) -> Option<Place>
    requires { layout.now.kind ≡ Log }
    ensures { result ≡ log_place layout.now word }
{
    let greatest = layout.greatest();
    let clients = layout.clients() as usize;
    let nodes_from = 2 + 2 * clients;
    let entries_from = 9 + 2 * clients + 7 * greatest;
    if word == 0 {
        Some(Place::Head)
    } else if word == 1 {
        Some(Place::Tail)
    } else if word < 2 + clients {
        Some(Place::Announcement(Client((word - 2) as u8)))
    } else if word < nodes_from {
        Some(Place::Bump(Client((word - 2 - clients) as u8)))
    } else if word < entries_from {
        let node = NodeId(((word - nodes_from) / 7) as u32);
        Some(node_place(node, (word - nodes_from) % 7))
    } else if word < 9 + 2 * clients + 11 * greatest {
        let entry = Token(((word - entries_from) / 4 + 1) as u32);
        Some(entry_place(entry, (word - entries_from) % 4))
    } else {
        None
    }
}
