//! Lines that came together, and their replies, which go together.

ghost use Rattle.std.specs.Prelude.{◌≡◌, ◌<◌, ◌+◌, [], IfOk, OnOk, OnErr};
ghost use Rattle.devices.specs.Devices.{IsFlushed};
ghost use Rattle.engine.specs.Desks.{BeginsLast, HoldsAsFar, ServesAsFar, CutByFault, ServesLast};
ghost use Rattle.engine.specs.Output.{write_failures_of, settle_failures_of};

use crate::desk::Desk;
use crate::filling::newline_in;
use crate::output::{Output, Unsent, put, send_settled};
use crate::reading::Reading;
use crate::reply::reply_to;
use devices::{MAX_FAILURES, Writer};
use std::alloc::Global;
use std::sync::Wait;

/// How far the replies to some bytes go.
#[derive(Clone, Copy)]
pub enum Progress {
    /// So many bytes are lines, all with their replies, and the rest is no line yet.
    Replied(usize),
    /// One of the lines is a stop that was accepted.
    Stopped,
}

/// Replies to each line, up to and with the first accepted stop.
fn put_replies<T: Wait, P: Reading, W: Writer, D: Desk>(
    rt: &T,
    alloc: Global,
    writer: &mut W,
    desk: &mut D,
    output: &mut Output,
    bytes: &[u8],
) -> Result<Progress, Unsent>
    requires writer { W.failures writer.old < MAX_FAILURES }
    requires desk { D.failures desk.old < MAX_FAILURES }
    requires empty { output.old.items ≡ [] }
    // Long, since the desk and the writer are named before and after, and what is held beside.
    ensures put { IfOk result
        (HoldsAsFar D.Desk W.Writer desk.old desk.new writer.old writer.new P.meaning bytes.now output.new.items) }
    ensures fault { OnErr result
        (CutByFault D.Desk W.Writer desk.old desk.new writer.old writer.new P.meaning bytes.now) }
    ensures write_failures { W.failures writer.new ≡ W.failures writer.old + write_failures_of result }
    ensures settle_failures { D.failures desk.new ≡ D.failures desk.old + settle_failures_of result }
{
    let mut rest = bytes;
    while let Some(n) = newline_in(rest) {
        let (line, _) = rest.split_at(n);
        let (_, after) = rest.split_at(n + 1);
        let reply = reply_to::<T, P, D>(rt, alloc, desk, line);
        put(rt, writer, desk, output, &reply)?;
        if reply.is_stop() {
            return Ok(Progress::Stopped);
        }
        rest = after;
    }
    Ok(Progress::Replied(bytes.len() - rest.len()))
}

/// Replies to each line, up to and with the first accepted stop, and sends the replies.
pub fn reply_lines<T: Wait, P: Reading, W: Writer, D: Desk>(
    rt: &T,
    alloc: Global,
    writer: &mut W,
    desk: &mut D,
    output: &mut Output,
    bytes: &[u8],
) -> Result<Progress, Unsent>
    requires writer { W.failures writer.old < MAX_FAILURES }
    requires desk { D.failures desk.old < MAX_FAILURES }
    requires empty { output.old.items ≡ [] }
    ensures told { IfOk result
        (ServesAsFar D.Desk W.Writer desk.old desk.new writer.old writer.new P.meaning bytes.now) }
    ensures flushed { OnOk result (IsFlushed (W.written writer.new) (W.flushed writer.new)) }
    ensures empty { OnOk result (output.new.items ≡ []) }
    ensures fault { OnErr result
        (CutByFault D.Desk W.Writer desk.old desk.new writer.old writer.new P.meaning bytes.now) }
    ensures write_failures { W.failures writer.new ≡ W.failures writer.old + write_failures_of result }
    ensures settle_failures { D.failures desk.new ≡ D.failures desk.old + settle_failures_of result }
{
    let progress = put_replies::<T, P, W, D>(rt, alloc, writer, desk, output, bytes)?;
    send_settled(rt, writer, desk, output)?;
    output.clear();
    Ok(progress)
}

/// Replies to the last line, which has no newline, if there are bytes of it, and sends the reply.
pub fn reply_last_line<T: Wait, P: Reading, W: Writer, D: Desk>(
    rt: &T,
    alloc: Global,
    writer: &mut W,
    desk: &mut D,
    output: &mut Output,
    bytes: &[u8],
) -> Result<(), Unsent>
    requires writer { W.failures writer.old < MAX_FAILURES }
    requires desk { D.failures desk.old < MAX_FAILURES }
    requires empty { output.old.items ≡ [] }
    ensures told { OnOk result
        (ServesLast D.Desk W.Writer desk.old desk.new writer.old writer.new P.meaning bytes.now) }
    ensures flushed { OnOk result (IsFlushed (W.written writer.new) (W.flushed writer.new)) }
    ensures fault { OnErr result
        (BeginsLast D.Desk W.Writer desk.old desk.new writer.old writer.new P.meaning bytes.now) }
    ensures write_failures { W.failures writer.new ≡ W.failures writer.old + write_failures_of result }
    ensures settle_failures { D.failures desk.new ≡ D.failures desk.old + settle_failures_of result }
{
    if bytes.is_empty() {
        return send_settled(rt, writer, desk, output);
    }
    let reply = reply_to::<T, P, D>(rt, alloc, desk, bytes);
    put(rt, writer, desk, output, &reply)?;
    send_settled(rt, writer, desk, output)
}
