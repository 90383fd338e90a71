//! What a crash of a whole broker after some acts comes to.

ghost use Rattle.std.specs.Prelude.{◌≡◌, ◌∷◌, [], None, true, false, IsTrue, OnOk, IfOk, IfErr, map, replicate};
ghost use Rattle.named.specs.GoingOn.{BrokerGoesOn};
ghost use Rattle.session.specs.Keeping.{SessionGoesOn};
ghost use Rattle.broker_lines.specs.Grammar.{IsServedBroker};
ghost use Rattle.broker_script.specs.Play.{session_of};
ghost use Rattle.broker_script.specs.Standing.{keeps_queues, QueuesStay};
ghost use Rattle.broker_script.specs.Transcript.{FollowsLine};
ghost use Rattle.broker_points.specs.Points.{downtime, eviction, IsPointAfterAll, Leads};
ghost use Rattle.broker_points.specs.Reports.{line_of_point};

use crate::kept::{are_explained, are_kept};
use crate::texts::line;
use arena::{BrokerLayout, SLOTS};
use broker_lines::{BrokerLine, Printed, Statement};
use broker_script::Player;
use directory::Places;
use explore::{Evictions, words_kept};
use grammar::Command;
use named::Broker;
use std::alloc::Global;
use words::Refusal;

/// What a crash at one point of a broker's script comes to, once recovery has ended.
#[derive(Drop)]
pub(crate) struct Point {
    /// The line of the report.
    pub(crate) text: Vec<u8>,
    /// Whether each queue is there, and the order of its calls explains all that happened to it and leaves what it
    /// holds.
    pub(crate) ok: bool,
}

/// Notes which queues a broker has, if it is ready.
fn note(known: &mut Places, broker: &Broker)
    requires { QueuesStay known.old broker.now.directory }
    ensures { QueuesStay known.new broker.now.directory }
{
    let Ok(places) = broker.list() else {
        return;
    };
    known.copy_from_slice(places);
}

/// Forgets the queues where a line has another broker begin on an image.
fn forget(known: &mut Places, statement: &Statement)
    ensures kept { keeps_queues statement.now ≡ true → known.new ≡ known.old }
    ensures none { keeps_queues statement.now ≡ false → known.new ≡ replicate SLOTS None }
{
    if let Statement::Boot = statement {
        known.fill(None);
    }
}

/// Follows a line.
fn follow_line(
    alloc: Global,
    player: &mut Player,
    statement: &Statement,
) -> Result<Vec<Printed>, Refusal>
    ensures follows { IfOk result (λ lines. FollowsLine player.old statement.now lines.items player.new) }
    ensures errors { IfErr result (λ e. e ≡ Refusal.NoMemory) }
{
    match player.follow(alloc, statement) {
        Ok(lines) => Ok(lines),
        Err(_) => Err(Refusal::NoMemory),
    }
}

/// Follows a line, and notes the queues where the broker is ready then.
fn follow(
    alloc: Global,
    player: &mut Player,
    known: &mut Places,
    statement: &Statement,
) -> Result<(), Refusal>
    requires { QueuesStay known.old player.old.broker.directory }
    ensures leads { OnOk result (Leads player.old (statement.now ∷ []) player.new) }
    ensures known { OnOk result (QueuesStay known.new player.new.broker.directory) }
    ensures errors { IfErr result (λ e. e ≡ Refusal.NoMemory) }
{
    let _lines = follow_line(alloc, player, statement)?;
    forget(known, statement);
    note(known, player.broker());
    Ok(())
}

/// Follows lines, one after the other.
fn follow_all(
    alloc: Global,
    player: &mut Player,
    known: &mut Places,
    statements: &[Statement],
) -> Result<(), Refusal>
    requires { QueuesStay known.old player.old.broker.directory }
    ensures leads { OnOk result (Leads player.old statements.now player.new) }
    ensures known { OnOk result (QueuesStay known.new player.new.broker.directory) }
    ensures errors { IfErr result (λ e. e ≡ Refusal.NoMemory) }
{
    for statement in statements {
        follow(alloc, player, known, statement)?;
    }
    Ok(())
}

/// The environment keeps words, one after the other.
fn evict_all(
    alloc: Global,
    player: &mut Player,
    known: &mut Places,
    words: &[usize],
) -> Result<(), Refusal>
    requires { QueuesStay known.old player.old.broker.directory }
    ensures leads { OnOk result (Leads player.old (map eviction words.now) player.new) }
    ensures known { OnOk result (QueuesStay known.new player.new.broker.directory) }
    ensures errors { IfErr result (λ e. e ≡ Refusal.NoMemory) }
{
    for word in words {
        let command = Command::Evict { word: *word as u64 };
        follow(alloc, player, known, &Statement::Whole { command })?;
    }
    Ok(())
}

/// Everything stops, and recovery goes on to its end.
fn stop_and_recover(alloc: Global, player: &mut Player) -> Result<(), Refusal>
    ensures leads { OnOk result (Leads player.old downtime player.new) }
    ensures ready { OnOk result (player.new.broker.recovery ≡ None) }
    ensures goes_on { OnOk result (BrokerGoesOn player.old.broker player.new.broker) }
    ensures settled { OnOk result (SessionGoesOn (session_of player.old) (session_of player.new)) }
    ensures errors { IfErr result (λ e. e ≡ Refusal.NoMemory) }
{
    let crash = Statement::Whole {
        command: Command::Crash,
    };
    let recover = Statement::Whole {
        command: Command::Recover,
    };
    let _stopped = follow_line(alloc, player, &crash)?;
    let _told = follow_line(alloc, player, &recover)?;
    Ok(())
}

/// What is found in a broker that is ready, and that had these queues.
fn found(alloc: Global, player: &Player, known: &Places, number: u64) -> Result<Point, Refusal>
    requires ready { player.now.broker.recovery ≡ None }
    requires known { QueuesStay known.now player.now.broker.directory }
    ensures text { IfOk result (λ point. point.text.items ≡ line_of_point number player.now point.ok) }
    ensures ok { IfOk result (λ point. IsTrue point.ok) }
    ensures errors { IfErr result (λ e. e ≡ Refusal.NoMemory) }
{
    let broker = player.broker();
    let places = broker.list().unwrap();
    let kept = are_kept(known, places);
    let explained = are_explained(alloc, broker, places)?;
    let ok = kept && explained;
    let text = line(alloc, number, player, places, ok)?;
    Ok(Point { text, ok })
}

/// A new broker, whose queues will have as many clients and records as this line says, makes these acts. Then the
/// environment keeps the words that it is to keep at this point, everything stops, and recovery goes on to its end.
pub(crate) fn crash(
    alloc: Global,
    broker: &BrokerLine,
    acts: &[Statement],
    evictions: Evictions,
) -> Result<Point, Refusal>
    requires { IsServedBroker broker.now }
    ensures point { IfOk result (λ point. IsPointAfterAll broker.now acts.now evictions point.text.items) }
    ensures ok { IfOk result (λ point. IsTrue point.ok) }
    ensures errors { IfErr result (λ e. e ≡ Refusal.NoMemory) }
{
    let number = acts.len() as u64;
    let layout = BrokerLayout::make(broker.clients, broker.records).unwrap();
    // A broker has no copy, so each point makes its acts anew.
    let mut player = Player::new(alloc, broker.clients, broker.records)?;
    let mut known = [None; SLOTS];
    follow_all(alloc, &mut player, &mut known, acts)?;
    let words = words_kept(alloc, evictions, layout.size(), number)?;
    evict_all(alloc, &mut player, &mut known, &words)?;
    stop_and_recover(alloc, &mut player)?;
    found(alloc, &player, &known, number)
}
