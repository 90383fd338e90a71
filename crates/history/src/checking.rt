//! Whether an order explains a history.

ghost use Rattle.std.specs.Prelude.{◌<◌, ◌≡◌, ◌↔◌, length, IfErr, IfOk, IsTrue, All, EachIndex};
ghost use Rattle.events.specs.Explains.{Explains, IsExplained, KeepsPrecedence};
ghost use Rattle.events.specs.History.{IsHistory};
ghost use Rattle.events.specs.Orders.{IsNew};
ghost use Rattle.history.specs.Replaying.{IsExplainedLeaving};
ghost use Rattle.history.specs.Sweeps.{Tells};

use crate::answering::all_answered;
use crate::arising::arises;
use crate::fronts::replay_is_right;
use crate::hearing::all_told;
use crate::naming::names_once;
use crate::ordering::names_calls;
use crate::places::is_durable;
use crate::plain_queue::replay;
use crate::preceding::precedence_is_kept;
use events::{Entry, Events, History, Order, are_same_values};
use std::alloc::Global;
use words::{Kind, Refusal, Reports, Value};

/// Whether what clients are told agrees with the order. That of interrupted calls follows from the rest: such a call is
/// its client's last one begun before the next Ready.
fn tells(told: &Reports, events: &Events, entries: &[Entry]) -> bool
    requires calls { All (λ entry. entry.place < length events.now.items) entries.now }
    requires history { IsHistory events.now.items }
    requires once { EachIndex entries.now (λ i. IsNew entries.now i) }
    requires precedence { KeepsPrecedence events.now.items entries.now }
    ensures { IsTrue result ↔ Tells told.now events.now.items entries.now }
{
    if is_durable(events) {
        return all_told(Kind::Durable, told, events, entries);
    }
    all_told(Kind::Log, told, events, entries)
}

/// Whether the order explains the history, which may arise.
fn explains(base: &[Value], told: &Reports, events: &Events, entries: &[Entry]) -> bool
    requires { IsHistory events.now.items }
    ensures { IsTrue result ↔ Explains base.now told.now events.now.items entries.now }
{
    // Each pass may rely on those before it: precedence on entries that name calls, one entry a call on precedence, the
    // passes of clients on both.
    if !names_calls(events, entries) {
        return false;
    }
    if !precedence_is_kept(events, entries) {
        return false;
    }
    if !names_once(events, entries) {
        return false;
    }
    if !all_answered(events, entries) {
        return false;
    }
    if !replay_is_right(events, base, entries) {
        return false;
    }
    tells(told, events, entries)
}

/// Whether the history may arise and the order explains it. Its time grows with the events and entries, for a given
/// number of clients.
pub fn check(history: &History, order: &Order) -> bool
    ensures { IsTrue result ↔ IsExplained history.now order.now }
{
    arises(&history.events)
        && explains(
            history.base.as_slice(),
            &history.told,
            &history.events,
            order.entries.as_slice(),
        )
}

/// Whether, beyond what `check` answers, the replay of the order leaves this content, as a queue at rest holds what is
/// left. NoMemory where it was refused for the replay.
pub fn check_content(
    alloc: Global,
    history: &History,
    order: &Order,
    content: &[Value],
) -> Result<bool, Refusal>
    ensures right { IfOk result (λ right. IsTrue right ↔ IsExplainedLeaving history.now order.now content.now) }
    ensures errors { IfErr result (λ e. e ≡ Refusal.NoMemory) }
{
    if !check(history, order) {
        return Ok(false);
    }
    match replay(alloc, history, order)? {
        Ok(left) => Ok(are_same_values(left.as_slice(), content)),
        Err(_) => Ok(false),
    }
}
