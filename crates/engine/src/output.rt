//! The output, as it goes.

ghost use Rattle.std.specs.Prelude.{◌≡◌, ◌≢◌, ◌<◌, ◌+◌, [], OnOk, OnErr};
ghost use Rattle.std.specs.Io.KnownBytes.{Appends};
ghost use Rattle.devices.specs.Devices.{IsFlushed};
ghost use Rattle.engine.specs.Desks.{Puts, Sends, Settles};
ghost use Rattle.engine.specs.Output.{write_failures_of, settle_failures_of};

use crate::desk::Desk;
use crate::limits::OUTPUT_BYTES;
use crate::reply::Reply;
use arrayvec::ArrayVec;
use devices::{MAX_FAILURES, Writer, send};
use replies::{MAX_REPLY, append_line};
use std::sync::Wait;
use wire::Answer;

/// Replies that were not written yet.
pub type Output = ArrayVec<u8, OUTPUT_BYTES>;

/// Why replies were not sent.
#[derive(Clone, Copy)]
pub enum Unsent {
    /// What was served could not be settled, so nothing was written.
    NotKept,
    /// The writer failed.
    WriteFailed,
}

/// Settles what was served, where a reply is held, and then writes the replies and flushes them.
pub fn send_settled<T: Wait, W: Writer, D: Desk>(
    rt: &T,
    writer: &mut W,
    desk: &mut D,
    output: &Output,
) -> Result<(), Unsent>
    requires writer { W.failures writer.old < MAX_FAILURES }
    requires desk { D.failures desk.old < MAX_FAILURES }
    ensures sent { OnOk result (Appends (W.written writer.old) (W.written writer.new) output.now.items) }
    ensures settled { OnOk result (Settles D.Desk desk.old desk.new output.now.items) }
    ensures flushed { OnOk result (IsFlushed (W.written writer.new) (W.flushed writer.new)) }
    ensures unsent { OnErr result
        (Sends D.Desk W.Writer desk.old desk.new writer.old writer.new output.now.items) }
    ensures served { D.served desk.new ≡ D.served desk.old }
    ensures write_failures { W.failures writer.new ≡ W.failures writer.old + write_failures_of result }
    ensures settle_failures { D.failures desk.new ≡ D.failures desk.old + settle_failures_of result }
{
    if output.is_empty() {
        return match writer.flush() {
            Ok(()) => Ok(()),
            Err(_) => Err(Unsent::WriteFailed),
        };
    }
    if desk.settle(rt).is_err() {
        return Err(Unsent::NotKept);
    }
    match send(writer, output.as_slice()) {
        Ok(()) => Ok(()),
        Err(_) => Err(Unsent::WriteFailed),
    }
}

/// Puts the reply behind the others. Where it might have no room they are sent first.
pub fn put<T: Wait, W: Writer, D: Desk>(
    rt: &T,
    writer: &mut W,
    desk: &mut D,
    output: &mut Output,
    reply: &Reply,
) -> Result<(), Unsent>
    requires writer { W.failures writer.old < MAX_FAILURES }
    requires desk { D.failures desk.old < MAX_FAILURES }
    ensures put { OnOk result (Puts W.Writer writer.old writer.new output.old.items output.new.items reply.now) }
    ensures some { OnOk result (output.new.items ≢ []) }
    ensures settled { Sends D.Desk W.Writer desk.old desk.new writer.old writer.new output.old.items }
    ensures served { D.served desk.new ≡ D.served desk.old }
    ensures write_failures { W.failures writer.new ≡ W.failures writer.old + write_failures_of result }
    ensures settle_failures { D.failures desk.new ≡ D.failures desk.old + settle_failures_of result }
{
    if OUTPUT_BYTES - output.len() < MAX_REPLY {
        send_settled(rt, writer, desk, output)?;
        output.clear();
    }
    match reply {
        Reply::Made(_, answer) => append_line(output, answer),
        Reply::Fault(refusal) => append_line(output, &Answer::Refused(*refusal)),
    }
    Ok(())
}
