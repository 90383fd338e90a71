//! The line of a point, as text.

ghost use Rattle.std.specs.Prelude.{◌≡◌, ◌++◌, ◌<◌, None, OnOk, IfOk, IfErr, IsSome, slice_get, string_bytes};
ghost use Rattle.words.specs.Text.{told_text};
ghost use Rattle.named.specs.Brokers.{world_at, IsWell};
ghost use Rattle.playing.specs.Transcript.{told_at};
ghost use Rattle.script_reports.specs.Reports.{content_text, end_text};
ghost use Rattle.broker_script.specs.Play.{the_world};
ghost use Rattle.broker_points.specs.Reports.{all_told_text, line_of_point, queue_text, queues_text, slot_text, start_text, told_lead};

use arena::{SLOTS, SlotId};
use broker_script::Player;
use directory::{Name, Places, Queue};
use named::Broker;
use playing::{Line, Values};
use std::alloc::Global;
use std::fmt::Write;
use words::{Client, Refusal, Told, Value};

/// What a client of the queue in a slot is told.
fn told(broker: &Broker, slot: SlotId, client: Client) -> Told
    requires ready { broker.now.recovery ≡ None }
    requires open { IsSome (world_at broker.now slot.0) }
    requires client { client.0 < broker.now.counts.clients }
    ensures { result ≡ told_at (the_world broker.now slot.0) client.0 }
{
    match broker.told(slot, client) {
        Ok(told) => told,
        Err(_) => unreachable!(),
    }
}

/// Writes what a client is told, after a space, or after a comma from the second client on.
fn write_client(text: &mut String, number: u32, told: Told) -> Result<(), Refusal>
    ensures text { OnOk result (string_bytes text.new
        ≡ string_bytes text.old ++ (told_lead number ++ told_text told)) }
    ensures errors { IfErr result (λ e. e ≡ Refusal.NoMemory) }
{
    let written = match number {
        0 => write!(text, " {told}"),
        _ => write!(text, ", {told}"),
    };
    written.map_err(|_| Refusal::NoMemory)
}

/// Writes what each client of the queue in a slot is told.
fn write_told(text: &mut String, broker: &Broker, slot: SlotId) -> Result<(), Refusal>
    requires well { IsWell broker.now }
    requires ready { broker.now.recovery ≡ None }
    requires open { IsSome (world_at broker.now slot.0) }
    ensures text { OnOk result (string_bytes text.new
        ≡ string_bytes text.old ++ all_told_text broker.now slot.0) }
    ensures errors { IfErr result (λ e. e ≡ Refusal.NoMemory) }
{
    for number in 0..broker.clients() {
        write_client(text, number, told(broker, slot, Client(number as u8)))?;
    }
    Ok(())
}

/// Writes what a queue holds.
fn write_content(text: &mut String, content: Vec<Value>) -> Result<(), Refusal>
    ensures text { OnOk result (string_bytes text.new ≡ string_bytes text.old ++ content_text content.items) }
    ensures errors { IfErr result (λ e. e ≡ Refusal.NoMemory) }
{
    let line = Line::Content(Values::from_vec(content));
    write!(text, "; {line}").map_err(|_| Refusal::NoMemory)
}

/// Writes what the clients of the queue of this name are told, and what it holds.
fn write_queue(text: &mut String, broker: &Broker, slot: SlotId, name: &Name) -> Result<(), Refusal>
    requires well { IsWell broker.now }
    requires ready { broker.now.recovery ≡ None }
    requires open { IsSome (world_at broker.now slot.0) }
    ensures text { OnOk result (string_bytes text.new
        ≡ string_bytes text.old ++ queue_text broker.now slot.0 name.now) }
    ensures errors { IfErr result (λ e. e ≡ Refusal.NoMemory) }
{
    write!(text, "; {name}: told").map_err(|_| Refusal::NoMemory)?;
    write_told(text, broker, slot)?;
    write_content(text, broker.content(slot)?)
}

/// Writes this of the queue in a slot, if the slot has one.
fn write_place(
    text: &mut String,
    broker: &Broker,
    slot: usize,
    place: &Option<Queue>,
) -> Result<(), Refusal>
    requires well { IsWell broker.now }
    requires ready { broker.now.recovery ≡ None }
    requires small { slot < SLOTS }
    requires place { slice_get broker.now.directory slot ≡ Some place.now }
    ensures text { OnOk result (string_bytes text.new
        ≡ string_bytes text.old ++ slot_text broker.now slot) }
    ensures errors { IfErr result (λ e. e ≡ Refusal.NoMemory) }
{
    match place {
        None => Ok(()),
        Some(queue) => write_queue(text, broker, SlotId(slot as u8), &queue.name),
    }
}

/// Writes it of each queue, in slot order.
fn write_places(text: &mut String, broker: &Broker, places: &Places) -> Result<(), Refusal>
    requires well { IsWell broker.now }
    requires ready { broker.now.recovery ≡ None }
    requires places { places.now ≡ broker.now.directory }
    ensures text { OnOk result (string_bytes text.new
        ≡ string_bytes text.old ++ queues_text broker.now) }
    ensures errors { IfErr result (λ e. e ≡ Refusal.NoMemory) }
{
    for slot in 0..SLOTS {
        write_place(text, broker, slot, &places[slot])?;
    }
    Ok(())
}

/// Writes the number of a point, and how many steps recovery had.
fn write_start(text: &mut String, number: u64, steps: u64) -> Result<(), Refusal>
    ensures text { OnOk result (string_bytes text.new ≡ string_bytes text.old ++ start_text number steps) }
    ensures errors { IfErr result (λ e. e ≡ Refusal.NoMemory) }
{
    write!(text, "point {number}: recovery {steps}").map_err(|_| Refusal::NoMemory)
}

/// Writes whether a point is ok, and ends its line.
fn write_end(text: &mut String, ok: bool) -> Result<(), Refusal>
    ensures text { OnOk result (string_bytes text.new ≡ string_bytes text.old ++ end_text ok) }
    ensures errors { IfErr result (λ e. e ≡ Refusal.NoMemory) }
{
    let word = if ok { "ok" } else { "bad" };
    writeln!(text, "; {word}").map_err(|_| Refusal::NoMemory)
}

/// The line of a point, at which these queues were found.
pub(crate) fn line(
    alloc: Global,
    number: u64,
    player: &Player,
    places: &Places,
    ok: bool,
) -> Result<Vec<u8>, Refusal>
    requires ready { player.now.broker.recovery ≡ None }
    requires places { places.now ≡ player.now.broker.directory }
    ensures text { IfOk result (λ text. text.items ≡ line_of_point number player.now ok) }
    ensures errors { IfErr result (λ e. e ≡ Refusal.NoMemory) }
{
    let mut text = String::new(alloc);
    write_start(&mut text, number, player.recovery())?;
    write_places(&mut text, player.broker(), places)?;
    write_end(&mut text, ok)?;
    Ok(text.into_bytes())
}
