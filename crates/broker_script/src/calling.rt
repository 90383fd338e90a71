//! Lines on a queue of a broker that follows a script.

ghost use Rattle.std.specs.Prelude.{◌≡◌, ◌≢◌, ◌<◌, ◌++◌, ℕ, false, true, Ok, Err, None, Some, IsSome, IfOk, IfErr, IsErrOf, OnOk, OnErr, option_to_list, slice_get, slice_index};
ghost use Rattle.interleave.specs.State.{start_result};
ghost use Rattle.named.specs.Brokers.{world_at};
ghost use Rattle.named.specs.Finding.{IsPlaced};
ghost use Rattle.playing.specs.Play.{after_steps, play_after_step};
ghost use Rattle.playing.specs.Steps.{call_counted, count_after};
ghost use Rattle.playing.specs.Transcript.{command_lines, entry_lines, order_lines, start_line, step_lines};
ghost use Rattle.grammar.specs.Grammar.{is_shown};
ghost use Rattle.broker_lines.specs.Grammar.{is_whole};
ghost use Rattle.broker_script.specs.OnQueue.{answer_line, has_line, Follows, FollowsOn, FollowsPlaced, IsAnsweredBy, IsFollowedIn, IsOnlyIn, IsLeftByStartIn, IsWhyNoStep};
ghost use Rattle.broker_script.specs.Play.{play_at, steps_at, the_world};
ghost use Rattle.broker_script.specs.PutOff.{HadMemory, IsPutOff, PutsOff};

use crate::player::Player;
use arena::{SLOTS, SlotId};
use broker_lines::{Printed, Room, is_whole, labelled, one_line, unfollowed};
use directory::Name;
use events::{Entry, Events};
use grammar::{Command, is_on, is_shown};
use playing::{Line, Unfollowed, Values, add, named_call};
use std::alloc::Global;
use words::{Call, Client, Kind, MAX_STEPS_ALONE, Refusal, Reply};

/// Whether a queue of this kind has such a line.
fn has_line(kind: Kind, command: &Command) -> bool
    ensures { result ≡ has_line kind command.now }
{
    is_on(kind, command) && !is_whole(command)
}

/// The line of a start.
fn started_line(command: &Command, started: Result<(), Refusal>) -> Result<Option<Line>, Unfollowed>
    ensures line { IfOk result (λ line. line ≡ Some (start_line command.now started)) }
    ensures memory { OnOk result (started ≢ Err Refusal.NoMemory) }
    ensures put_off { OnErr result (started ≡ Err Refusal.NoMemory) }
{
    match started {
        Ok(()) => Ok(Some(Line::Call(*command))),
        Err(refusal) => refused_line(false, refusal),
    }
}

/// A line that says why a queue's act was refused; want of memory is no line, but puts the line off that was to be
/// followed, or leaves it half followed.
fn refused_line(begun: bool, refusal: Refusal) -> Result<Option<Line>, Unfollowed>
    ensures line { IfOk result (λ line. (refusal ≢ Refusal.NoMemory) × (line ≡ Some (Line.Refused refusal))) }
    ensures memory { OnErr result (refusal ≡ Refusal.NoMemory) }
    ensures begun { IsErrOf result Unfollowed.PutOff → begun ≡ false }
{
    match refusal {
        Refusal::NoMemory => Err(unfollowed(begun)),
        _ => Ok(Some(Line::Refused(refusal))),
    }
}

/// The line of a step's answer, if the call is answered by it.
fn answer_line(client: Client, answer: Option<Reply>, steps: u64) -> Option<Line>
    ensures { result ≡ answer_line client steps answer }
{
    let reply = answer?;
    Some(Line::Return {
        client,
        reply,
        steps,
    })
}

/// Adds the call that an entry of an order names; one that named none would show nothing.
fn add_entry(lines: &mut Vec<Line>, events: &Events, entry: Entry) -> Result<(), Refusal>
    ensures lines { OnOk result (lines.new.items ≡ lines.old.items ++ entry_lines events.now.items entry) }
    ensures errors { IfErr result (λ e. e ≡ Refusal.NoMemory) }
{
    match named_call(events, entry) {
        Some(ordered) => add(lines, Line::Entry(ordered)),
        None => Ok(()),
    }
}

/// How many calls took effect, and each of them in its place.
fn order_lines(alloc: Global, events: &Events, entries: &[Entry]) -> Result<Vec<Line>, Refusal>
    ensures lines { IfOk result (λ lines. lines.items ≡ order_lines events.now.items entries.now) }
    ensures errors { IfErr result (λ e. e ≡ Refusal.NoMemory) }
{
    let mut lines = one_line(alloc, Line::Order(entries.len()))?;
    for entry in entries {
        add_entry(&mut lines, events, *entry)?;
    }
    Ok(lines)
}

impl Player {
    /// The slot of the queue of this name. It is refused while recovery is under way (NotReady), and where there is no
    /// such queue (NoQueue).
    pub(crate) fn place(&self, name: &Name) -> Result<SlotId, Refusal>
        ensures placed { IsPlaced self.now.broker name.now result }
        ensures ready { OnOk result (self.now.broker.recovery ≡ None) }
        ensures open { IfOk result (λ slot. IsSome (world_at self.now.broker slot.0)) }
    {
        match self.session.broker().find(name) {
            Ok(Some(slot)) => Ok(slot),
            Ok(None) => Err(Refusal::NoQueue),
            Err(refusal) => Err(refusal),
        }
    }

    /// The kind of the queue in a slot.
    fn kind(&self, slot: SlotId) -> Kind
        requires { IsSome (world_at self.now.broker slot.0) }
        ensures { result ≡ (the_world self.now.broker slot.0).shape.kind }
    {
        self.session.broker().kind(slot).unwrap()
    }

    /// A client of the queue in a slot begins a call.
    fn start(
        &mut self,
        slot: SlotId,
        client: Client,
        number: u64,
        call: Call,
    ) -> Result<(), Refusal>
        requires ready { self.old.broker.recovery ≡ None }
        requires open { IsSome (world_at self.old.broker slot.0) }
        ensures answer { HadMemory result
            → result ≡ start_result false (the_world self.old.broker slot.0) client number call }
        ensures play { HadMemory result → IsLeftByStartIn self.old slot.0 client number call self.new }
        ensures put_off { result ≡ Err Refusal.NoMemory → IsPutOff self.old self.new }
        ensures only { IsOnlyIn slot.0 self.old self.new }
    {
        match self.session.start(client, slot, number, call) {
            Ok(()) => {
                self.begin_count(slot, client);
                Ok(())
            }
            Err(refusal) => Err(refusal),
        }
    }

    /// Counts a step of a client's call in the queue of a slot, and answers how many it has made.
    fn count(&mut self, slot: SlotId, client: Client) -> u64
        requires { slot.0 < SLOTS }
        ensures count { result ≡ count_after 1 (slice_index (steps_at self.old slot.0).calls client.0) }
        ensures steps { steps_at self.new slot.0 ≡ call_counted 1 client (steps_at self.old slot.0) }
        ensures others { (other : ℕ) → other ≢ slot.0
            → slice_get self.new.steps other ≡ slice_get self.old.steps other }
        ensures same { self.new ≡ record self.old { steps = self.new.steps } }
    {
        self.steps[slot.0 as usize].go_on(client, 1)
    }

    /// A step of a client's call in the queue of a slot. It answers the line of its answer, if the call is answered.
    fn step(&mut self, slot: SlotId, client: Client) -> Result<Option<Line>, Refusal>
        requires ready { self.old.broker.recovery ≡ None }
        requires open { IsSome (world_at self.old.broker slot.0) }
        ensures answered { IfOk result (IsAnsweredBy (play_at self.old slot.0) client) }
        ensures refused { IfErr result (IsWhyNoStep self.old slot.0 client) }
        ensures play { OnOk result (play_at self.new slot.0 ≡ play_after_step (play_at self.old slot.0) client) }
        ensures same { IfErr result (λ e. e ≢ Refusal.NoMemory → play_at self.new slot.0 ≡ play_at self.old slot.0) }
        ensures put_off { result ≡ Err Refusal.NoMemory → IsPutOff self.old self.new }
        ensures only { IsOnlyIn slot.0 self.old self.new }
        ensures open { OnOk result (IsSome (world_at self.new.broker slot.0)) }
    {
        match self.session.advance(client, slot) {
            Err(refusal) => Err(refusal),
            Ok(answer) => {
                let steps = self.count(slot, client);
                Ok(answer_line(client, answer, steps))
            }
        }
    }

    /// A client's call in the queue of a slot goes on by at most so many steps.
    fn go_on(&mut self, slot: SlotId, client: Client, most: u32) -> Result<Option<Line>, Unfollowed>
        requires ready { self.old.broker.recovery ≡ None }
        requires open { IsSome (world_at self.old.broker slot.0) }
        ensures lines { IfOk result (λ line. option_to_list line ≡ step_lines client most (play_at self.old slot.0)) }
        ensures play { OnOk result (play_at self.new slot.0 ≡ after_steps client most (play_at self.old slot.0)) }
        ensures only { OnOk result (IsOnlyIn slot.0 self.old self.new) }
        ensures put_off { PutsOff self.old result self.new }
    {
        let _ = &self.session;
        for made in 0..most {
            match self.step(slot, client) {
                Err(refusal) => return refused_line(made > 0, refusal),
                Ok(Some(line)) => return Ok(Some(line)),
                Ok(None) => {}
            }
        }
        Ok(None)
    }

    /// Shows what the queue in a slot holds.
    fn show_content(&self, alloc: Global, slot: SlotId) -> Result<Vec<Line>, Refusal>
        requires { IsSome (world_at self.now.broker slot.0) }
        ensures lines { IfOk result (λ lines. lines.items ≡ command_lines (play_at self.now slot.0) Command.Content) }
        ensures errors { IfErr result (λ e. e ≡ Refusal.NoMemory) }
    {
        let values = self.session.broker().content(slot)?;
        one_line(alloc, Line::Content(Values::from_vec(values)))
    }

    /// Shows in which order the calls on the queue in a slot took effect.
    fn show_order(&self, alloc: Global, slot: SlotId) -> Result<Vec<Line>, Refusal>
        requires { IsSome (world_at self.now.broker slot.0) }
        ensures lines { IfOk result (λ lines. lines.items ≡ command_lines (play_at self.now slot.0) Command.Order) }
        ensures errors { IfErr result (λ e. e ≡ Refusal.NoMemory) }
    {
        let order = self.session.broker().order(slot)?;
        let history = self.session.broker().history(slot).unwrap();
        order_lines(alloc, &history.events, order.entries.as_slice())
    }

    /// Follows a call's line on the queue in a slot, and answers what it gives.
    fn call_in(&mut self, slot: SlotId, command: &Command) -> Result<Option<Line>, Unfollowed>
        requires ready { self.old.broker.recovery ≡ None }
        requires open { IsSome (world_at self.old.broker slot.0) }
        requires line { is_whole command.now ≡ false }
        requires call { is_shown command.now ≡ false }
        ensures followed { IfOk result (λ line.
            IsFollowedIn self.old slot.0 command.now (option_to_list line) self.new) }
        ensures put_off { PutsOff self.old result self.new }
    {
        let _ = &self.session;
        match command {
            Command::Enq { client, value } => {
                let started = self.start(slot, *client, 0, Call::Enq(*value));
                started_line(command, started)
            }
            Command::NumberedEnq {
                client,
                number,
                value,
            } => {
                let started = self.start(slot, *client, *number, Call::Enq(*value));
                started_line(command, started)
            }
            Command::Deq { client } => {
                let started = self.start(slot, *client, 0, Call::Deq);
                started_line(command, started)
            }
            Command::NumberedDeq { client, number } => {
                let started = self.start(slot, *client, *number, Call::Deq);
                started_line(command, started)
            }
            Command::Step { client, most } => self.go_on(slot, *client, *most),
            Command::End { client } => self.go_on(slot, *client, MAX_STEPS_ALONE as u32),
            _ => unreachable!(),
        }
    }

    /// What a line that only shows something gives on the queue in a slot.
    fn shown_in(&self, alloc: Global, slot: SlotId, command: &Command) -> Result<Vec<Line>, Refusal>
        requires open { IsSome (world_at self.now.broker slot.0) }
        requires shown { is_shown command.now ≡ true }
        ensures followed { IfOk result (λ lines. IsFollowedIn self.now slot.0 command.now lines.items self.now) }
        ensures errors { IfErr result (λ e. e ≡ Refusal.NoMemory) }
    {
        let _ = &self.session;
        match command {
            Command::Content => self.show_content(alloc, slot),
            Command::Order => self.show_order(alloc, slot),
            _ => unreachable!(),
        }
    }

    /// The same, with the queue's name before each line.
    fn show_in(
        &self,
        alloc: Global,
        slot: SlotId,
        name: &Name,
        command: &Command,
    ) -> Result<Vec<Printed>, Refusal>
        requires open { IsSome (world_at self.now.broker slot.0) }
        requires shown { is_shown command.now ≡ true }
        ensures followed { IfOk result (λ lines. Follows self.now slot name.now command.now lines.items self.now) }
        ensures errors { IfErr result (λ e. e ≡ Refusal.NoMemory) }
    {
        let lines = self.shown_in(alloc, slot, command)?;
        labelled(alloc, *name, lines)
    }

    /// Follows a line that the queue's kind has.
    fn follow_in(
        &mut self,
        alloc: Global,
        slot: SlotId,
        name: &Name,
        command: &Command,
    ) -> Result<Vec<Printed>, Unfollowed>
        requires ready { self.old.broker.recovery ≡ None }
        requires open { IsSome (world_at self.old.broker slot.0) }
        requires line { is_whole command.now ≡ false }
        ensures followed { IfOk result (λ lines. Follows self.old slot name.now command.now lines.items self.new) }
        ensures put_off { PutsOff self.old result self.new }
    {
        if is_shown(command) {
            return match self.show_in(alloc, slot, name, command) {
                Ok(lines) => Ok(lines),
                Err(_) => Err(Unfollowed::PutOff),
            };
        }
        let room = Room::take(alloc)?;
        match self.call_in(slot, command) {
            Ok(Some(line)) => Ok(room.fill(Printed::Of { name: *name, line })),
            Ok(None) => Ok(room.leave()),
            Err(unfollowed) => Err(unfollowed),
        }
    }

    /// Follows a line on the queue in the slot that it has.
    fn follow_placed(
        &mut self,
        alloc: Global,
        slot: SlotId,
        name: &Name,
        command: &Command,
    ) -> Result<Vec<Printed>, Unfollowed>
        requires ready { self.old.broker.recovery ≡ None }
        requires open { IsSome (world_at self.old.broker slot.0) }
        ensures followed { IfOk result (λ lines.
            FollowsPlaced self.old name.now command.now lines.items self.new (Ok slot)) }
        ensures put_off { PutsOff self.old result self.new }
    {
        if !has_line(self.kind(slot), command) {
            let room = Room::take(alloc)?;
            let line = Line::Refused(Refusal::WrongKind);
            return Ok(room.fill(Printed::Of { name: *name, line }));
        }
        self.follow_in(alloc, slot, name, command)
    }

    /// Follows a line on the queue of this name.
    pub(crate) fn follow_on(
        &mut self,
        alloc: Global,
        name: &Name,
        command: &Command,
    ) -> Result<Vec<Printed>, Unfollowed>
        ensures follows { IfOk result (λ lines. FollowsOn self.old name.now command.now lines.items self.new) }
        ensures put_off { PutsOff self.old result self.new }
    {
        match self.place(name) {
            Ok(slot) => self.follow_placed(alloc, slot, name, command),
            Err(refusal) => {
                let room = Room::take(alloc)?;
                let line = Line::Refused(refusal);
                Ok(room.fill(Printed::Of { name: *name, line }))
            }
        }
    }
}
