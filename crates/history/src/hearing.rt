//! What clients are told at a Ready, by a pass for each client. Its last call in the order is known from Ready to
//! Ready.

ghost use Rattle.std.specs.Prelude.{◌≡◌, ◌<◌, ◌≤◌, ◌+◌, ◌^◌, ◌↔◌, Some, length, IsTrue, IfSome, All};
ghost use Rattle.std.specs.Prelude.{EachIndex, slice_get};
ghost use Rattle.events.specs.Telling.{TellsAt};
ghost use Rattle.history.specs.Hearing.{IsOutcomeTaken, IsRowTaken, SaysTaken, SaysNotTaken, IsToldNotTaken};
ghost use Rattle.history.specs.Hearing.{IsToldNotTakenIn, SaysLast, HasNoCall, BeginsSomeTold, IsLaterEntry};
ghost use Rattle.history.specs.Hearing.{TellsSixteen};
ghost use Rattle.history.specs.Listening.{HearsAll, HearsAt, HearsOfLast, IsProgressAt, IsProgressUpTo, IsToldRightly};
ghost use Rattle.events.specs.Explains.{KeepsPrecedence};
ghost use Rattle.events.specs.History.{IsHistory};
ghost use Rattle.history.specs.Sweeps.{Ascends};
ghost use Rattle.events.specs.Orders.{IsNew};

use crate::places::begins_at;
use crate::telling::{Listener, is_told, is_told_of};
use events::{Entry, Event, Events};
use words::{Client, Kind, Outcome, Reply, Reports, Row, Told};

/// Whether the outcome is that the call took effect with this reply.
fn is_outcome_taken(reply: Reply, outcome: Outcome) -> bool
    ensures { IsTrue result ↔ IsOutcomeTaken reply outcome }
{
    match outcome {
        Outcome::Taken(other) => other == reply,
        Outcome::NotTaken => false,
    }
}

/// Whether the row is that of a call with this reply.
fn is_row_taken(reply: Reply, row: Row) -> bool
    ensures { IsTrue result ↔ IsRowTaken reply row }
{
    match row {
        Row::Got(value) => reply == Reply::Got(value),
        Row::Empty => reply == Reply::Empty,
        Row::Open => false,
        Row::NoCall => false,
    }
}

/// Whether what is told says of a call with this number that it took effect with this reply.
fn says_taken(kind: Kind, number: u64, reply: Reply, told: &Told) -> bool
    ensures { IsTrue result ↔ SaysTaken kind number reply told.now }
{
    match told {
        Told::Verdict(verdict) => {
            kind == Kind::Log
                && verdict.number == number
                && is_outcome_taken(reply, verdict.outcome)
        }
        Told::Row(row) => kind == Kind::Durable && is_row_taken(reply, *row),
        Told::None => false,
    }
}

/// Whether what is told says of a call with this number that it took no effect.
fn says_not_taken(kind: Kind, number: u64, told: &Told) -> bool
    ensures { IsTrue result ↔ SaysNotTaken kind number told.now }
{
    match told {
        Told::Verdict(verdict) => {
            kind == Kind::Log && verdict.number == number && verdict.outcome == Outcome::NotTaken
        }
        Told::Row(row) => kind == Kind::Durable && *row == Row::Open,
        Told::None => false,
    }
}

/// Whether a call of the client begins at `p`, and what is told says that it took no effect.
fn is_told_not_taken(who: &Listener, told: &Told, p: usize) -> bool
    requires { p < length who.now.events.now.items }
    ensures { IsTrue result ↔ IsToldNotTaken who.now.kind who.now.events.now.items who.now.client told.now p }
{
    match who.events.at(p) {
        Event::Call {
            client,
            number,
            call,
        } => {
            client == who.client
                && is_told_of(who.kind, call)
                && says_not_taken(who.kind, number, told)
        }
        _ => false,
    }
}

/// Whether so it is at some place from one up to another, which is then `found`.
fn is_told_not_taken_in(
    who: &Listener,
    told: &Told,
    from: usize,
    to: usize,
    found: &mut usize,
) -> bool
    requires { to ≤ length who.now.events.now.items }
    ensures { IsTrue result ↔ IsToldNotTakenIn who.now.kind who.now.events.now.items who.now.client told.now from to }
{
    for p in from..to {
        if is_told_not_taken(who, told, p) {
            *found = p;
            return true;
        }
    }
    false
}

/// Whether what is told says what became of the client's call of the entry at `i`.
fn says_last(who: &Listener, told: &Told, i: usize) -> bool
    requires within { i < length who.now.entries.now }
    requires calls { All (λ entry. entry.place < length who.now.events.now.items) who.now.entries.now }
    ensures { IsTrue result ↔
        SaysLast who.now.kind who.now.events.now.items who.now.entries.now who.now.client told.now i }
{
    let entry = who.entries[i];
    match who.events.at(entry.place) {
        Event::Call {
            client,
            number,
            call,
        } => {
            client == who.client
                && is_told_of(who.kind, call)
                && says_taken(who.kind, number, entry.reply, told)
        }
        _ => false,
    }
}

/// Where a client's pass over the Readys stands: what is known of its calls before the next one.
#[derive(Clone, Copy)]
struct Progress {
    /// The entry of its last call in the order, if there is one.
    last: Option<usize>,
    /// The place after that call, else 0: its calls from there on are not in the order.
    from: usize,
    /// How many entries were looked at.
    entries: usize,
    /// The place after its last call.
    calls: usize,
}

/// Whether what is told says what became of the client's last call in the order, if there is one.
fn says_of_last(who: &Listener, told: &Told, last: Option<usize>) -> bool
    requires within { IfSome last (λ i. i < length who.now.entries.now) }
    requires calls { All (λ entry. entry.place < length who.now.events.now.items) who.now.entries.now }
    ensures { IsTrue result ↔ HearsOfLast who.now told.now last }
{
    match last {
        Some(i) => says_last(who, told, i),
        None => false,
    }
}

/// Whether it says of a later call that it took no effect. Mostly that is the client's last call, or the one that was
/// `found` at an earlier Ready.
fn says_of_later(who: &Listener, told: &Told, from: usize, to: usize, found: &mut usize) -> bool
    requires { to ≤ length who.now.events.now.items }
    ensures { IsTrue result ↔ IsToldNotTakenIn who.now.kind who.now.events.now.items who.now.client told.now from to }
{
    if from >= to {
        return false;
    }
    if is_told_not_taken(who, told, to - 1) {
        return true;
    }
    let near = *found;
    if from <= near && near < to {
        if is_told_not_taken(who, told, near) {
            return true;
        }
    }
    is_told_not_taken_in(who, told, from, to, found)
}

/// Whether a Ready at `q` that tells the client this tells it rightly.
fn tells_it_rightly(
    who: &Listener,
    base: &Reports,
    q: usize,
    told: &Told,
    progress: Progress,
    found: &mut usize,
) -> bool
    requires within { IfSome progress.last (λ i. i < length who.now.entries.now) }
    requires calls { All (λ entry. entry.place < length who.now.events.now.items) who.now.entries.now }
    requires once { EachIndex who.now.entries.now (λ i. IsNew who.now.entries.now i) }
    requires ready { q ≤ length who.now.events.now.items }
    requires progress { IsProgressAt who.now q progress }
    requires few { progress.calls ≤ q }
    requires later { HasNoCall who.now.kind who.now.events.now.items who.now.client progress.calls q }
    ensures { IsTrue result ↔ IsToldRightly who.now base.now q told.now }
{
    if says_of_last(who, told, progress.last) {
        return true;
    }
    if says_of_later(who, told, progress.from, progress.calls, found) {
        return true;
    }
    match progress.last {
        Some(_) => false,
        None => is_told(base, who.client, told),
    }
}

/// Whether the entry at `i` is of a call of the client that begins at `q` or later.
fn is_later(who: &Listener, q: usize, i: usize) -> bool
    requires within { i < length who.now.entries.now }
    requires calls { All (λ entry. entry.place < length who.now.events.now.items) who.now.entries.now }
    ensures { IsTrue result ↔ IsLaterEntry who.now.events.now.items who.now.entries.now who.now.client q i }
{
    let place = who.entries[i].place;
    place >= q && begins_at(who.events, who.client, place)
}

/// Whether a call of the client that it may be told of begins at `p`.
fn begins_told(who: &Listener, p: usize) -> bool
    requires { p < length who.now.events.now.items }
    ensures begins { IsTrue result ↔ BeginsSomeTold who.now.kind who.now.events.now.items who.now.client p }
    ensures few { p + 1 < 2 ^ 64 }
{
    match who.events.at(p) {
        Event::Call { client, call, .. } => client == who.client && is_told_of(who.kind, call),
        _ => false,
    }
}

/// What is known after the entry at `i`, which begins before the Ready if it is the client's.
fn after_entry(who: &Listener, q: usize, i: usize, progress: Progress) -> Progress
    requires within { i < length who.now.entries.now }
    requires calls { All (λ entry. entry.place < length who.now.events.now.items) who.now.entries.now }
    requires ascends { Ascends who.now.events.now.items who.now.entries.now who.now.client }
    requires earlier { IsLaterEntry who.now.events.now.items who.now.entries.now who.now.client q i → ⊥ }
    requires so_far { IsProgressUpTo who.now q progress i }
    ensures so_far { IsProgressUpTo who.now q result (i + 1) }
    ensures calls { result.calls ≡ progress.calls }
{
    let place = who.entries[i].place;
    if !begins_told(who, place) {
        return progress;
    }
    Progress {
        last: Some(i),
        from: place + 1,
        ..progress
    }
}

/// What is known before the Ready at `q`: the entries are looked at up to the client's first that begins later.
fn before_ready(who: &Listener, q: usize, progress: Progress) -> Progress
    requires calls { All (λ entry. entry.place < length who.now.events.now.items) who.now.entries.now }
    requires ascends { Ascends who.now.events.now.items who.now.entries.now who.now.client }
    requires entries { progress.entries ≤ length who.now.entries.now }
    requires so_far { IsProgressUpTo who.now q progress progress.entries }
    ensures entries { result.entries ≤ length who.now.entries.now }
    ensures so_far { IsProgressUpTo who.now q result result.entries }
    ensures progress { IsProgressAt who.now q result }
    ensures calls { result.calls ≡ progress.calls }
{
    let mut now = progress;
    for i in progress.entries..who.entries.len() {
        if is_later(who, q, i) {
            return Progress { entries: i, ..now };
        }
        now = after_entry(who, q, i, now);
    }
    Progress {
        entries: who.entries.len(),
        ..now
    }
}

/// The place after the client's last call before the place after `q`, where it is known of `q`.
fn calls_after(who: &Listener, q: usize, calls: usize) -> usize
    requires within { q < length who.now.events.now.items }
    requires few { calls ≤ q }
    requires later { HasNoCall who.now.kind who.now.events.now.items who.now.client calls q }
    ensures few { result ≤ q + 1 }
    ensures later { HasNoCall who.now.kind who.now.events.now.items who.now.client result (q + 1) }
{
    if begins_told(who, q) { q + 1 } else { calls }
}

/// What a Ready tells a client.
fn report_to(tells: &Reports, client: Client) -> Option<Told>
    ensures told { result ≡ slice_get tells.now client.0 }
    ensures sixteen { length tells.now ≡ 16 }
{
    tells.get(client.0 as usize).copied()
}

/// Whether a Ready that stands at `q` tells the client rightly.
fn is_told_at(
    who: &Listener,
    base: &Reports,
    q: usize,
    progress: Progress,
    found: &mut usize,
) -> bool
    requires within { IfSome progress.last (λ i. i < length who.now.entries.now) }
    requires calls { All (λ entry. entry.place < length who.now.events.now.items) who.now.entries.now }
    requires once { EachIndex who.now.entries.now (λ i. IsNew who.now.entries.now i) }
    requires ready { q < length who.now.events.now.items }
    requires progress { IsProgressAt who.now q progress }
    requires few { progress.calls ≤ q }
    requires later { HasNoCall who.now.kind who.now.events.now.items who.now.client progress.calls q }
    ensures told { IsTrue result ↔ HearsAt who.now base.now q }
    ensures sixteen { TellsSixteen who.now.events.now.items q }
{
    match who.events.at(q) {
        Event::Ready { told } => match report_to(&told, who.client) {
            Some(told) => tells_it_rightly(who, base, q, &told, progress, found),
            None => true,
        },
        _ => true,
    }
}

/// Whether each Ready tells the client rightly.
fn is_told_of_all(who: &Listener, base: &Reports) -> bool
    requires calls { All (λ entry. entry.place < length who.now.events.now.items) who.now.entries.now }
    requires once { EachIndex who.now.entries.now (λ i. IsNew who.now.entries.now i) }
    requires ascends { Ascends who.now.events.now.items who.now.entries.now who.now.client }
    ensures told { IsTrue result ↔ HearsAll who.now base.now }
    ensures sixteen { IsTrue result
        → EachIndex who.now.events.now.items (λ q. TellsSixteen who.now.events.now.items q) }
{
    let mut progress = Progress {
        last: None,
        from: 0,
        entries: 0,
        calls: 0,
    };
    let mut found = 0;
    for q in 0..who.events.len() {
        progress = before_ready(who, q, progress);
        if !is_told_at(who, base, q, progress, &mut found) {
            return false;
        }
        progress.calls = calls_after(who, q, progress.calls);
    }
    true
}

/// Whether each Ready tells each client rightly.
pub(crate) fn all_told(kind: Kind, base: &Reports, events: &Events, entries: &[Entry]) -> bool
    requires calls { All (λ entry. entry.place < length events.now.items) entries.now }
    requires history { IsHistory events.now.items }
    requires once { EachIndex entries.now (λ i. IsNew entries.now i) }
    requires precedence { KeepsPrecedence events.now.items entries.now }
    ensures told { IsTrue result ↔
        EachIndex events.now.items (λ q. TellsAt kind base.now events.now.items entries.now q) }
    ensures sixteen { IsTrue result → EachIndex events.now.items (λ q. TellsSixteen events.now.items q) }
{
    for t in 0..16u8 {
        let who = Listener {
            kind,
            events,
            entries,
            client: Client(t),
        };
        if !is_told_of_all(&who, base) {
            return false;
        }
    }
    true
}
