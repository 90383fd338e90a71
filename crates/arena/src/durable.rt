//! The words of a durable queue.

ghost use Rattle.std.specs.Prelude.{◌≡◌, ◌<◌, ◌≤◌};
ghost use Rattle.words.specs.declared.call.Kind.TheVariants.{Durable};
ghost use Rattle.arena.specs.Durable.{durable_node_place, durable_place, durable_size, durable_word};
ghost use Rattle.arena.specs.Place.{IsPlace};
ghost use Rattle.arena.specs.Shape.{greatest};

use crate::layout::Layout;
use crate::place::{Part, Place};
use words::{Client, MAX_RECORD_NUMBER, NodeId, Token};

/// One of the six words of a node.
fn node_place(node: NodeId, field: usize) -> Place
    ensures { result ≡ durable_node_place node.0 field }
{
    match field {
        0 => Place::Item(node, Part::Length),
        1 => Place::Item(node, Part::First),
        2 => Place::Item(node, Part::Second),
        3 => Place::Item(node, Part::Third),
        4 => Place::Next(node),
        _ => Place::Mark(node),
    }
}

/// The word of a place.
pub(crate) fn word(layout: &Layout, place: Place) -> usize
    requires kind { layout.now.kind ≡ Durable }
    requires place { IsPlace layout.now place }
    ensures word { result ≡ durable_word layout.now place }
    ensures below { result < durable_size layout.now }
    ensures few { greatest layout.now ≤ MAX_RECORD_NUMBER }
{
    let greatest = layout.greatest();
    let clients = layout.clients() as usize;
    let nodes_from = 2 + 2 * clients;
    match place {
        Place::Head => 0,
        Place::Tail => 1,
        Place::Announcement(client) => 2 + client.0 as usize,
        Place::Bump(client) => 2 + clients + client.0 as usize,
        Place::Item(node, part) => nodes_from + 6 * node.0 as usize + part as usize,
        Place::Next(node) => nodes_from + 6 * node.0 as usize + 4,
        Place::Mark(node) => nodes_from + 6 * node.0 as usize + 5,
        Place::Cell(token) => 8 + 2 * clients + 6 * greatest + token.0 as usize - 1,
        // The others are places of a log queue.
        _ => unreachable!(),
    }
}

/// The place of a word.
pub(crate) fn what_is(layout: &Layout, word: usize) -> Option<Place>
    requires { layout.now.kind ≡ Durable }
    ensures { result ≡ durable_place layout.now word }
{
    let greatest = layout.greatest();
    let clients = layout.clients() as usize;
    let nodes_from = 2 + 2 * clients;
    let cells_from = 8 + 2 * clients + 6 * greatest;
    if word == 0 {
        Some(Place::Head)
    } else if word == 1 {
        Some(Place::Tail)
    } else if word < 2 + clients {
        Some(Place::Announcement(Client((word - 2) as u8)))
    } else if word < nodes_from {
        Some(Place::Bump(Client((word - 2 - clients) as u8)))
    } else if word < cells_from {
        let node = NodeId(((word - nodes_from) / 6) as u32);
        Some(node_place(node, (word - nodes_from) % 6))
    } else if word < 8 + 2 * clients + 7 * greatest {
        Some(Place::Cell(Token((word - cells_from + 1) as u32)))
    } else {
        None
    }
}
