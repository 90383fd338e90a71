//! What can be seen of a session, and of its broker.

use arena::{SLOTS, SlotId};
use events::History;
use named::Broker;
use persist::{HEADER_BYTES, NUMBER_BYTES};
use session::Session;
use std::fmt;
use std::fmt::Write;
use words::{Client, Refusal};

/// One more than there are clients.
const CLIENTS: u8 = 2;

/// An image, of which the words that are not 0 are shown.
#[derive(Drop)]
struct Image(Vec<u8>);

impl fmt::Debug for Image {
    fn fmt<W: fmt::Write>(&self, f: &mut fmt::Formatter<W>) -> fmt::Result {
        write!(f, "{} bytes", self.0.len())?;
        let Some((_, words)) = self.0.split_first_chunk::<HEADER_BYTES>() else {
            return Ok(());
        };
        for (word, bytes) in words.as_chunks::<NUMBER_BYTES>().0.iter().enumerate() {
            let value = u64::from_le_bytes(*bytes);
            if value != 0 {
                write!(f, " {word}={value}")?;
            }
        }
        Ok(())
    }
}

/// Writes what a history has.
fn write_history(history: &History, text: &mut String) -> Result<(), Refusal> {
    let base = history.base.as_slice();
    let told = &history.told;
    let events = &history.events;
    if write!(text, "base {base:?} told {told:?} events [").is_err() {
        return Err(Refusal::NoMemory);
    }
    for place in 0..events.len() {
        let event = events.at(place);
        let mark = if place > 0 { ", " } else { "" };
        if write!(text, "{mark}{event:?}").is_err() {
            return Err(Refusal::NoMemory);
        }
    }
    write!(text, "] ").map_err(|_| Refusal::NoMemory)
}

/// Writes what can be seen of the queue of a slot, if there is one.
fn write_slot(broker: &Broker, slot: SlotId, text: &mut String) -> Result<(), Refusal> {
    let Ok(kind) = broker.kind(slot) else {
        return Ok(());
    };
    write!(text, "slot {} {kind:?} ", slot.0).map_err(|_| Refusal::NoMemory)?;
    write_history(broker.history(slot)?, text)?;
    let order = broker.order(slot)?;
    let content = broker.content(slot)?;
    let entries = order.entries.as_slice();
    write!(text, "order {entries:?} content {content:?} ").map_err(|_| Refusal::NoMemory)?;
    for client in 0..CLIENTS {
        let told = broker.told(slot, Client(client));
        let calling = broker.calling(slot, Client(client));
        write!(text, "told {told:?} calling {calling:?} ").map_err(|_| Refusal::NoMemory)?;
    }
    Ok(())
}

/// Writes all that can be seen of a broker.
fn write_broker(broker: &Broker, text: &mut String) -> Result<(), Refusal> {
    let image = Image(broker.to_image()?);
    let creating = broker.is_creating();
    let list = broker.list();
    write!(text, "kept {image:?} list {list:?} creating {creating} ").map_err(
        |_| Refusal::NoMemory,
    )?;
    for slot in 0..SLOTS {
        write_slot(broker, SlotId(slot as u8), text)?;
    }
    Ok(())
}

/// Writes the last verdict that each client was given in a slot.
fn write_last(session: &Session, slot: SlotId, text: &mut String) -> Result<(), Refusal> {
    for client in 0..CLIENTS {
        let last = session.last(Client(client), slot);
        write!(text, "last {last:?} ").map_err(|_| Refusal::NoMemory)?;
    }
    Ok(())
}

/// Writes all that can be seen of a session. It fails where memory is refused.
pub(crate) fn write_session(session: &Session, text: &mut String) -> Result<(), Refusal> {
    write_last(session, SlotId(0), text)?;
    write_last(session, SlotId(1), text)?;
    write_broker(session.broker(), text)
}
