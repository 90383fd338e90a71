//! What clients ask the session of a broker that follows a script.

ghost use Rattle.std.specs.Prelude.{◌≡◌, ◌≢◌, ◌<◌, ◌↔◌, ℕ, Ok, Err, IsSome, IsTrue, IfOk, slice_get};
ghost use Rattle.named.specs.Brokers.{world_at};
ghost use Rattle.broker_script.specs.Asking.{answer_line, as_answered, asked_number, asker, begun_line, AsksPlaced, FollowsAsk, IsAskedIn};
ghost use Rattle.playing.specs.Play.{steps_with};
ghost use Rattle.broker_script.specs.Play.{steps_at};
ghost use Rattle.broker_script.specs.PutOff.{HadMemory, IsPutOff, PutsOff};

use crate::player::Player;
use arena::{SLOTS, SlotId};
use broker_lines::{Ask, Printed, Room};
use directory::Name;
use playing::{Line, Unfollowed};
use std::alloc::Global;
use words::{Call, Client, Refusal, Reply};

/// The client that asks.
pub fn asker(ask: &Ask) -> Client
    ensures { result ≡ asker ask.now }
{
    match ask {
        Ask::Request { client, .. } | Ask::Plain { client, .. } | Ask::Begin { client, .. } => {
            *client
        }
    }
}

/// For which number, if for one.
fn asked_number(ask: &Ask) -> Option<u64>
    ensures { result ≡ asked_number ask.now }
{
    match ask {
        Ask::Request { number, .. } | Ask::Begin { number, .. } => Some(*number),
        Ask::Plain { .. } => None,
    }
}

/// The line of a call that began.
fn begun_line(name: &Name, ask: &Ask) -> Printed
    ensures { result ≡ begun_line name.now ask.now }
{
    match ask {
        Ask::Request {
            client,
            number,
            call,
        }
        | Ask::Begin {
            client,
            number,
            call,
        } => Printed::Begun {
            name: *name,
            client: *client,
            number: *number,
            call: *call,
        },
        Ask::Plain { client, call } => Printed::Begun {
            name: *name,
            client: *client,
            number: 0,
            call: *call,
        },
    }
}

/// What a call that runs to its end is answered: its reply, or why it is refused.
fn as_answered(answer: Result<Reply, Refusal>) -> Result<Option<Reply>, Refusal>
    ensures { result ≡ as_answered answer }
{
    match answer {
        Ok(reply) => Ok(Some(reply)),
        Err(refusal) => Err(refusal),
    }
}

/// Whether memory was refused.
fn is_no_memory(answer: &Result<Option<Reply>, Refusal>) -> bool
    ensures { IsTrue result ↔ (answer.now ≡ Err Refusal.NoMemory) }
{
    matches!(answer, Err(Refusal::NoMemory))
}

/// The line of what the session answered.
fn answer_line(name: &Name, ask: &Ask, answer: Result<Option<Reply>, Refusal>) -> Printed
    ensures { result ≡ answer_line name.now ask.now answer }
{
    match answer {
        Ok(Some(reply)) => Printed::Replied {
            name: *name,
            client: asker(ask),
            number: asked_number(ask),
            reply,
        },
        Ok(None) => begun_line(name, ask),
        Err(refusal) => Printed::Of {
            name: *name,
            line: Line::Refused(refusal),
        },
    }
}

impl Player {
    /// Asks the session for the call of a number, which runs to its end.
    fn request(
        &mut self,
        slot: SlotId,
        client: Client,
        number: u64,
        call: Call,
    ) -> Result<Option<Reply>, Refusal>
        ensures asked { HadMemory result
            → IsAskedIn self.old slot.0 (Ask.Request client number call) result self.new }
        ensures put_off { result ≡ Err Refusal.NoMemory → IsPutOff self.old self.new }
    {
        self.session.is_right();
        let answer = self.session.request(client, slot, number, call);
        as_answered(answer)
    }

    /// Asks it for a call without a number, which runs to its end.
    fn plain(&mut self, slot: SlotId, client: Client, call: Call) -> Result<Option<Reply>, Refusal>
        ensures asked { HadMemory result → IsAskedIn self.old slot.0 (Ask.Plain client call) result self.new }
        ensures put_off { result ≡ Err Refusal.NoMemory → IsPutOff self.old self.new }
    {
        self.session.is_right();
        let answer = self.session.plain(client, slot, call);
        as_answered(answer)
    }

    /// No step was made of the call that a client began in the queue of a slot.
    pub(crate) fn begin_count(&mut self, slot: SlotId, client: Client)
        requires { slot.0 < SLOTS }
        ensures steps { steps_at self.new slot.0 ≡ steps_with client (steps_at self.old slot.0) (Ok tt) }
        ensures others { (other : ℕ) → other ≢ slot.0
            → slice_get self.new.steps other ≡ slice_get self.old.steps other }
        ensures same { self.new ≡ record self.old { steps = self.new.steps } }
    {
        self.steps[slot.0 as usize].begin(client);
    }

    /// Asks it for the call of a number, which only begins.
    fn begin_call(
        &mut self,
        slot: SlotId,
        client: Client,
        number: u64,
        call: Call,
    ) -> Result<Option<Reply>, Refusal>
        requires open { IsSome (world_at self.old.broker slot.0) }
        ensures asked { HadMemory result
            → IsAskedIn self.old slot.0 (Ask.Begin client number call) result self.new }
        ensures put_off { result ≡ Err Refusal.NoMemory → IsPutOff self.old self.new }
    {
        self.session.is_right();
        match self.session.begin(client, slot, Some(number), call) {
            Ok(Some(reply)) => Ok(Some(reply)),
            Ok(None) => {
                self.begin_count(slot, client);
                Ok(None)
            }
            Err(refusal) => Err(refusal),
        }
    }

    /// Asks the session for a call of the queue in a slot.
    fn ask(&mut self, slot: SlotId, ask: &Ask) -> Result<Option<Reply>, Refusal>
        requires open { IsSome (world_at self.old.broker slot.0) }
        ensures asked { HadMemory result → IsAskedIn self.old slot.0 ask.now result self.new }
        ensures put_off { result ≡ Err Refusal.NoMemory → IsPutOff self.old self.new }
    {
        match ask {
            Ask::Request {
                client,
                number,
                call,
            } => self.request(slot, *client, *number, *call),
            Ask::Plain { client, call } => self.plain(slot, *client, *call),
            Ask::Begin {
                client,
                number,
                call,
            } => self.begin_call(slot, *client, *number, *call),
        }
    }

    /// Asks it, and answers the line of that.
    fn ask_placed(
        &mut self,
        room: Room,
        slot: SlotId,
        name: &Name,
        ask: &Ask,
    ) -> Result<Vec<Printed>, Unfollowed>
        requires open { IsSome (world_at self.old.broker slot.0) }
        ensures asks { IfOk result (λ lines. AsksPlaced self.old slot.0 name.now ask.now lines.items self.new) }
        ensures put_off { PutsOff self.old result self.new }
    {
        let answer = self.ask(slot, ask);
        let no_memory = is_no_memory(&answer);
        if no_memory {
            return Err(Unfollowed::PutOff);
        }
        Ok(room.fill(answer_line(name, ask, answer)))
    }

    /// Asks the session for a call of the queue of this name.
    pub(crate) fn follow_ask(
        &mut self,
        alloc: Global,
        name: &Name,
        ask: &Ask,
    ) -> Result<Vec<Printed>, Unfollowed>
        ensures follows { IfOk result (λ lines. FollowsAsk self.old name.now ask.now lines.items self.new) }
        ensures put_off { PutsOff self.old result self.new }
    {
        let room = Room::take(alloc)?;
        match self.place(name) {
            Ok(slot) => self.ask_placed(room, slot, name, ask),
            Err(refusal) => Ok(room.fill(Printed::Of {
                name: *name,
                line: Line::Refused(refusal),
            })),
        }
    }
}
