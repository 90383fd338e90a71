//! The requests of a session's clients.

ghost use Rattle.std.specs.Prelude.{◌≡◌, ◌<◌, Ok, Err, Some, None, IfOk, IfSome, OnErr, OnOk};
ghost use Rattle.words.specs.declared.limits.TheConstants.{MAX_CALL_NUMBER};
ghost use Rattle.persist.specs.Noted.{answer_in, change_in, IsNoted};
ghost use Rattle.interleave.specs.Rules.{starting};
ghost use Rattle.named.specs.Acting.{IsActAt, IsSameBeside};
ghost use Rattle.named.specs.Brokers.{answer_at};
ghost use Rattle.named.specs.GoingOn.{BrokerGoesOn};
ghost use Rattle.named.specs.Looking.{IsOpenTo};
ghost use Rattle.session.specs.Keeping.{SessionGoesOn};
ghost use Rattle.session.specs.Promises.{IsReplyAt, IsReplyIfNumbered, KeepsNumbers};
ghost use Rattle.session.specs.Answering.{IsAnswerKept, IsReplyKept, IsReplyOfCall};
ghost use Rattle.session.specs.Requests.{answer_to, call_number, number_or_zero, request_admission, IsAdvanced};
ghost use Rattle.session.specs.Requests.{IsPlainServed, IsRequestBegun, IsRequestServed};

use crate::numbers::answer;
use crate::running::run;
use crate::session::Session;
use arena::SlotId;
use persist::Noted;
use words::{Call, Client, Kind, Refusal, Reply};

impl Session {
    /// Refuses what is no request to a queue of this kind, whatever its number.
    fn admit(&self, client: Client, queue: SlotId, kind: Kind) -> Result<(), Refusal>
        ensures answer { result ≡ request_admission kind self.now.broker queue.0 client }
        ensures open { OnOk result (IsOpenTo self.now.broker queue.0 client) }
    {
        let look = self.broker.look(queue, client)?;
        if look.kind != kind {
            return Err(Refusal::WrongKind);
        }
        if look.calling.is_some() {
            return Err(Refusal::Busy);
        }
        Ok(())
    }

    /// What a request comes to, with a number or without one: its kept reply, or, with none, a run.
    fn look_up(
        &self,
        client: Client,
        queue: SlotId,
        number: Option<u64>,
    ) -> Result<Option<Reply>, Refusal>
        ensures answer { result ≡ answer_to self.now queue.0 client number }
        ensures open { OnOk result (IsOpenTo self.now.broker queue.0 client) }
    {
        match number {
            Some(number) => {
                self.admit(client, queue, Kind::Log)?;
                answer(self.kept.last(queue, client), number)
            }
            None => {
                self.admit(client, queue, Kind::Durable)?;
                Ok(None)
            }
        }
    }

    /// A call with a number, in a log queue, which runs to its end: its reply. The client's last number, sent again, is
    /// answered with the reply that it got, whatever call comes with it, or runs as a new call where it took no effect;
    /// the next number runs. Room for all of the call is made before it starts, so it never stops half way. It is
    /// refused, in this order, where there is no such client (NoClient), while the broker recovers (NotReady), where
    /// the slot is closed (NoQueue), where the queue is durable (WrongKind), where the client has a call under way
    /// (Busy), where a later number is known (Old), as it is for 0, where an earlier one is missing (Gap), and for want
    /// of memory (NoMemory); what would run is then refused as [`interleave::World::start`] is, and as stale above
    /// [`words::MAX_CALL_NUMBER`] alone (StaleNumber).
    pub fn request(
        &mut self,
        client: Client,
        queue: SlotId,
        number: u64,
        call: Call,
    ) -> Result<Reply, Refusal>
        ensures request { IsRequestServed self.old self.new queue.0 client number call result }
        ensures stale { result ≡ Err Refusal.StaleNumber → MAX_CALL_NUMBER < number }
        ensures reply { IfOk result (IsReplyAt self.new queue.0 client number) }
        ensures kept { IfOk result (IsReplyKept self.old self.new queue.0 client number) }
        ensures same { OnErr result (self.new.kept ≡ self.old.kept) }
        ensures goes_on { SessionGoesOn self.old self.new }
        ensures queues { BrokerGoesOn self.old.broker self.new.broker }
        ensures promises { KeepsNumbers self.new }
    {
        // What is kept is looked at first: a number that was answered makes no act, and takes no memory.
        if let Some(reply) = self.look_up(client, queue, Some(number))? {
            return Ok(reply);
        }
        let reply = run(&mut self.broker, client, queue, number, call)?;
        let heard = reply;
        let answer = Some(heard);
        self.kept.hear(queue, client, Some(number), &answer);
        Ok(reply)
    }

    /// A call without a number, in a durable queue, which runs to its end: its reply. It is refused as
    /// [`Session::request`] is, but on a log queue (WrongKind), and for no number.
    pub fn plain(&mut self, client: Client, queue: SlotId, call: Call) -> Result<Reply, Refusal>
        ensures request { IsPlainServed self.old self.new queue.0 client call result }
        ensures same { self.new.kept ≡ self.old.kept }
        ensures goes_on { SessionGoesOn self.old self.new }
        ensures queues { BrokerGoesOn self.old.broker self.new.broker }
        ensures promises { KeepsNumbers self.new }
    {
        self.admit(client, queue, Kind::Durable)?;
        run(&mut self.broker, client, queue, 0, call)
    }

    /// A call that is only started, where it is to run: with a number as [`Session::request`], without one as
    /// [`Session::plain`]. It answers the kept reply, where there is one; else [`Session::advance`] takes the call's
    /// steps. It makes one act, or none, and is refused as they are, and as [`named::Broker::start`] is.
    pub fn begin(
        &mut self,
        client: Client,
        queue: SlotId,
        number: Option<u64>,
        call: Call,
    ) -> Result<Option<Reply>, Refusal>
        ensures begun { IsRequestBegun self.old self.new queue.0 client number call result }
        ensures stale { result ≡ Err Refusal.StaleNumber → MAX_CALL_NUMBER < number_or_zero number }
        ensures reply { IfOk result (λ answer. IfSome answer (IsReplyIfNumbered self.new queue.0 client number)) }
        ensures same { self.new.kept ≡ self.old.kept }
        ensures unchanged { self.new.broker.words.kept ≡ self.old.broker.words.kept }
        ensures goes_on { SessionGoesOn self.old self.new }
        ensures queues { BrokerGoesOn self.old.broker self.new.broker }
        ensures promises { KeepsNumbers self.new }
    {
        if let Some(reply) = self.look_up(client, queue, number)? {
            return Ok(Some(reply));
        }
        self.broker
            .start_open(queue, client, number.unwrap_or(0), call)?;
        Ok(None)
    }

    /// Starts a call with a number that its client chose itself, as [`named::Broker::start`] does: in a log queue any
    /// that is above the client's last one, so that some may be left out; in a durable queue none is kept. What is kept
    /// of each client stays.
    pub fn start(
        &mut self,
        client: Client,
        queue: SlotId,
        number: u64,
        call: Call,
    ) -> Result<(), Refusal>
        ensures act { IsActAt (starting client number call) queue.0 client self.old.broker result self.new.broker }
        ensures beside { IsSameBeside queue.0 self.old.broker self.new.broker }
        ensures kept { self.new.kept ≡ self.old.kept }
        ensures unchanged { self.new.broker.words.kept ≡ self.old.broker.words.kept }
        ensures goes_on { SessionGoesOn self.old self.new }
        ensures queues { BrokerGoesOn self.old.broker self.new.broker }
        ensures promises { KeepsNumbers self.new }
    {
        self.broker.start(queue, client, number, call)
    }

    /// The number of the client's call under way, if it has one in a log queue.
    fn calling(&self, client: Client, queue: SlotId) -> Result<Option<u64>, Refusal>
        ensures answer { result ≡ answer_at (λ w. Ok (call_number (Some w) client)) self.now.broker queue.0 client }
        ensures open { OnOk result (IsOpenTo self.now.broker queue.0 client) }
    {
        let look = self.broker.look(queue, client)?;
        match look.kind {
            Kind::Log => Ok(look.calling),
            Kind::Durable => Ok(None),
        }
    }

    /// One step of the client's call: its reply, if it answered. It is refused as [`named::Broker::step`] is.
    pub fn advance(&mut self, client: Client, queue: SlotId) -> Result<Option<Reply>, Refusal>
        ensures advanced { IsAdvanced self.old.broker self.new.broker queue.0 client result }
        ensures reply { IsReplyOfCall self.old self.new queue.0 client result }
        ensures kept { IsAnswerKept self.old self.new queue.0 client result }
        ensures goes_on { SessionGoesOn self.old self.new }
        ensures queues { BrokerGoesOn self.old.broker self.new.broker }
        ensures promises { KeepsNumbers self.new }
    {
        Ok(self.advance_noted(client, queue)?.answer)
    }

    /// As [`Session::advance`], with the change of a kept word that the step made.
    // Part of its caller, as `Broker::step_open` is.
    #[inline(always)]
    pub fn advance_noted(
        &mut self,
        client: Client,
        queue: SlotId,
    ) -> Result<Noted<Option<Reply>>, Refusal>
        ensures advanced { IsAdvanced self.old.broker self.new.broker queue.0 client (answer_in result) }
        ensures reply { IsReplyOfCall self.old self.new queue.0 client (answer_in result) }
        ensures kept { IsAnswerKept self.old self.new queue.0 client (answer_in result) }
        ensures noted { IsNoted (change_in result) self.old.broker.words.kept self.new.broker.words.kept }
        ensures goes_on { SessionGoesOn self.old self.new }
        ensures queues { BrokerGoesOn self.old.broker self.new.broker }
        ensures promises { KeepsNumbers self.new }
    {
        // The number is read before the step: the one that answers ends the call, and the broker forgets its number.
        let number = self.calling(client, queue)?;
        let acted = self.broker.step_open(queue, client);
        if let Ok(noted) = &acted {
            // As in `Core::step_noted`: no room of a reply is copied.
            if noted.answer.is_none() {
                return Ok(Noted {
                    answer: None,
                    change: noted.change,
                });
            }
            self.kept.hear(queue, client, number, &noted.answer);
        }
        acted
    }
}
