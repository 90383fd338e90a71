//! Seats that no connection is using, and the operator.

ghost use Rattle.std.specs.Prelude.{◌≡◌, ◌≤◌, ◌↔◌, ◌⊎◌, length, slice_index_or, slice_set};
ghost use Rattle.std.specs.Prelude.{IfErr, IfOk, IfSome, IsNone, IsSome, OnOk};
ghost use Rattle.workers.specs.Moments.{GoesOnLater};
ghost use Rattle.workers.specs.Refusals.{IsWhyNotRenewed};
ghost use Rattle.workers.specs.Seats.{AreAllInOrder};
ghost use Rattle.workers.specs.Seen.{HasStoppedSince, IsRenewedBetween};
ghost use Rattle.seating.specs.Seating.{AreBack, AreInPlaces};

use arena::SlotId;
use std::alloc::Global;
use std::marker::Model;
use std::sync::{Mutex, RwLock, RwLockReadGuard, RwLockWriteGuard, Wait};
use waiting::lock;
use words::{Client, Refusal};
use workers::{Marked, Naming, OpenGate, Operator, Seat, Shared};

/// Each client's seat in the client's place, or nothing there while a connection is using it.
#[derive(Drop)]
struct Places<J: Naming> {
    seats: Vec<Option<Seat<J>>>,
    ghost in_places: { AreInPlaces (λ seat. seat.client) J.clients seats.items },
    ghost few: { length seats.items ≤ 256 },
}

impl<J: Naming> Places<J> {
    /// The client's seat, if it is there.
    fn take(&mut self, client: Client) -> Option<Seat<J>>
        ensures client { IfSome result (λ seat. seat.client ≡ client) }
        ensures taken { result ≡ slice_index_or self.old.seats.items client.0 None }
        ensures left { self.new.seats.items ≡ slice_set self.old.seats.items client.0 None }
    {
        let place = client.0 as usize;
        if place >= self.seats.len() {
            return None;
        }
        self.seats[place].take()
    }

    /// Puts a seat in its client's place.
    fn put(&mut self, seat: Seat<J>)
        ensures { self.new.seats.items ≡ slice_set self.old.seats.items seat.client.0 (Some seat) }
    {
        let place = seat.client.0 as usize;
        if place < self.seats.len() {
            self.seats[place] = Some(seat);
        }
    }

    /// All seats, in the order of their clients, out of their places. It is refused for want of memory (NoMemory), and
    /// where a connection is using a seat (Busy); then all are where they were.
    fn take_all(&mut self) -> Result<Vec<Seat<J>>, Refusal>
        ensures order { IfOk result (λ seats. AreAllInOrder (λ seat. seat.client) J.clients seats.items) }
        ensures errors { IfErr result (λ e. (e ≡ Refusal.NoMemory) ⊎ (e ≡ Refusal.Busy)) }
    {
        let clients = self.seats.len();
        let mut all = Vec::new(*self.seats.allocator());
        if all.reserve(clients).is_err() {
            return Err(Refusal::NoMemory);
        }
        for number in 0..clients {
            let Some(seat) = self.take(Client(number as u8)) else {
                self.put_all(all);
                return Err(Refusal::Busy);
            };
            all.push_reserved(seat);
        }
        Ok(all)
    }

    /// Puts seats in their clients' places.
    fn put_all(&mut self, seats: Vec<Seat<J>>)
        ensures { AreAllInOrder (λ seat. seat.client) J.clients seats.items → AreBack seats.items self.new.seats.items }
    {
        for seat in seats {
            self.put(seat);
        }
    }

    /// All seats, in the order of their clients.
    fn all(self, alloc: Global) -> Result<Vec<Seat<J>>, Refusal>
        ensures order { IfOk result (λ seats. AreAllInOrder (λ seat. seat.client) J.clients seats.items) }
        ensures errors { IfErr result (λ e. (e ≡ Refusal.NoMemory) ⊎ (e ≡ Refusal.Busy)) }
    {
        let mut all = Vec::new(alloc);
        if all.reserve(self.seats.len()).is_err() {
            return Err(Refusal::NoMemory);
        }
        for place in self.seats {
            match place {
                Some(seat) => all.push_reserved(seat),
                None => return Err(Refusal::Busy),
            }
        }
        Ok(all)
    }
}

/// The empty place of a seat that a connection is using. It is no `Drop`, and only [`Seating::put`] takes it: a seat that
/// was taken is put back.
pub struct Owed {
    client: Client,
}

impl Model for Owed {
    ghost use Rattle.words.specs.declared.call.Client.{Client};

    ghost Value = { Client };

    ghost view = { λ owed. owed.client };
}

/// The empty places of all seats, likewise: only [`Seating::put_all`] takes it.
struct AllOwed {}

/// Where the operator stands. He stops the broker for one connection at a time.
#[derive(Drop)]
struct Post<J: Naming> {
    operator: Option<Operator<J>>,
    ghost there: { IsSome operator },
}

impl<J: Naming> Post<J> {
    /// Whoever stands there.
    fn into_operator(self) -> Operator<J> {
        let Post { operator } = self;
        match operator {
            Some(operator) => operator,
            None => unreachable!(),
        }
    }

    /// The whole system stops, and the session is marked, in the place of an earlier mark.
    fn crash<R: Wait>(
        &mut self,
        rt: &R,
        shared: &Shared<J>,
        before: Marked<J>,
    ) -> (Marked<J>, Result<(), Refusal>)
        ensures stopped { OnOk result.1 (HasStoppedSince before result.0) }
        ensures errors { IfErr result.1 (λ refusal. refusal ≡ Refusal.NoMemory) }
        ensures later { GoesOnLater before result.0 }
    {
        let Some(operator) = self.operator.take() else {
            unreachable!()
        };
        let (operator, marked, stopped) = shared.crash(rt, operator, before);
        self.operator = Some(operator);
        (marked, stopped)
    }
}

/// The seats of a shared broker, for connections to use in turn, and its operator. A client's seat is used by one
/// connection at a time.
#[derive(Drop)]
pub struct Seating<J: Naming> {
    /// How many clients there are.
    clients: u64,
    /// This lock and the broker's are never held together.
    places: Mutex<Places<J>>,
    /// This lock is taken before the broker's.
    post: Mutex<Post<J>>,
    /// Where queues are renewed while connections are served: a connection reads this lock while it is at work, and
    /// whoever renews a queue writes it, and has all seats at hand. It is taken before every other lock.
    rest: Option<RwLock<()>>,
    ghost all: { clients ≡ J.clients },
    ghost numbered: { clients ≤ 256 },
}

impl<J: Naming> Seating<J> {
    /// All seats that a shared broker gave, in client order, and its operator. It is refused for want of memory
    /// (NoMemory).
    pub fn new(alloc: Global, seats: Vec<Seat<J>>, operator: Operator<J>) -> Result<Self, Refusal>
        requires { AreAllInOrder (λ seat. seat.client) J.clients seats.items }
        ensures { IfErr result (λ e. e ≡ Refusal.NoMemory) }
    {
        let mut places = Vec::new(alloc);
        if places.reserve(seats.len()).is_err() {
            return Err(Refusal::NoMemory);
        }
        let mut clients = 0;
        for seat in seats {
            clients = u64::from(seat.client.0) + 1;
            places.push_reserved(Some(seat));
        }
        let places = Mutex::new(Places { seats: places });
        let post = Mutex::new(Post {
            operator: Some(operator),
        });
        Ok(Seating {
            clients,
            places,
            post,
            rest: None,
        })
    }

    /// The same, where a queue begins in fresh records for a call that finds no room, if that is worth it.
    pub fn renewing(self) -> Self {
        let Seating {
            clients,
            places,
            post,
            rest: _,
        } = self;
        Seating {
            clients,
            places,
            post,
            rest: Some(RwLock::new(())),
        }
    }

    /// The connection is at work, until it lets go of this: nobody renews a queue meanwhile. Where queues are not
    /// renewed, it holds nothing.
    pub fn at_work<R: Wait>(&self, rt: &R) -> Option<RwLockReadGuard<'_, ()>> {
        let rest = self.rest.as_ref()?;
        Some(rest.read(rt))
    }

    /// No connection is at work, until this is let go of; none, where queues are not renewed. Whoever asks is not at
    /// work.
    pub fn at_rest<R: Wait>(&self, rt: &R) -> Option<RwLockWriteGuard<'_, ()>> {
        let rest = self.rest.as_ref()?;
        Some(rest.write(rt))
    }

    /// The client of this number, if there is one.
    pub fn client(&self, number: u64) -> Option<Client>
        ensures number { IfSome result (λ client. client.0 ≡ number) }
        ensures none { IsNone result ↔ (J.clients ≤ number) }
    {
        if number >= self.clients {
            return None;
        }
        Some(Client(number as u8))
    }

    /// The client's seat, and the place that it leaves, unless another connection is using it.
    pub fn take<R: Wait>(&self, rt: &R, client: Client) -> Option<(Owed, Seat<J>)>
        ensures owed { IfSome result (λ r. r.0 ≡ client) }
        ensures seat { IfSome result (λ r. r.1.client ≡ client) }
    {
        let seat = lock(rt, &self.places).take(client)?;
        Some((Owed { client }, seat))
    }

    /// The connection is not using the seat any more.
    pub fn put<R: Wait>(&self, rt: &R, owed: Owed, seat: Seat<J>)
        requires { seat.client ≡ owed }
    {
        let Owed { client: _ } = owed;
        lock(rt, &self.places).put(seat);
    }

    /// All seats, in client order, and the places that they leave. It is refused for want of memory (NoMemory), and
    /// where a connection is using a seat (Busy).
    fn take_all<R: Wait>(&self, rt: &R) -> Result<(AllOwed, Vec<Seat<J>>), Refusal>
        ensures order { IfOk result (λ r. AreAllInOrder (λ seat. seat.client) J.clients r.1.items) }
        ensures errors { IfErr result (λ e. (e ≡ Refusal.NoMemory) ⊎ (e ≡ Refusal.Busy)) }
    {
        let seats = lock(rt, &self.places).take_all()?;
        Ok((AllOwed {}, seats))
    }

    /// All seats are in their places again.
    fn put_all<R: Wait>(&self, rt: &R, owed: AllOwed, seats: Vec<Seat<J>>)
        requires { AreAllInOrder (λ seat. seat.client) J.clients seats.items }
    {
        let AllOwed {} = owed;
        lock(rt, &self.places).put_all(seats);
    }

    /// Goes on with each client's call that was left Unfinished. A seat that a connection is using is passed over.
    fn finish_all<R: Wait>(&self, rt: &R, shared: &Shared<J>) {
        for number in 0..self.clients {
            if let Some((owed, seat)) = self.take(rt, Client(number as u8)) {
                let (seat, _answer) = shared.finish(rt, seat, &OpenGate);
                self.put(rt, owed, seat);
            }
        }
    }

    /// The queue of a slot begins in fresh records, as [`Shared::renew`] makes it, once each call that was left
    /// Unfinished is finished. It is refused as there, for want of memory (NoMemory), and where a connection is using a
    /// seat (Busy), which is so of none while all are at rest. With the answer comes a mark of the session, in the place
    /// of an earlier one.
    pub fn renew<R: Wait>(
        &self,
        rt: &R,
        shared: &Shared<J>,
        slot: SlotId,
        before: Marked<J>,
    ) -> (Marked<J>, Result<(), Refusal>)
        ensures renewed { OnOk result.1 (IsRenewedBetween before result.0 slot.0) }
        ensures errors { IfErr result.1 (IsWhyNotRenewed J.first slot) }
        ensures later { GoesOnLater before result.0 }
    {
        self.finish_all(rt, shared);
        let (owed, seats) = match self.take_all(rt) {
            Ok(taken) => taken,
            Err(refusal) => return (before, Err(refusal)),
        };
        let (seats, marked, renewed) = shared.renew(rt, seats, slot, before);
        self.put_all(rt, owed, seats);
        (marked, renewed)
    }

    /// The whole system stops. It is refused for want of memory (NoMemory). With the answer comes a mark of the session,
    /// in the place of an earlier one.
    pub fn crash<R: Wait>(
        &self,
        rt: &R,
        shared: &Shared<J>,
        before: Marked<J>,
    ) -> (Marked<J>, Result<(), Refusal>)
        ensures stopped { OnOk result.1 (HasStoppedSince before result.0) }
        ensures errors { IfErr result.1 (λ refusal. refusal ≡ Refusal.NoMemory) }
        ensures later { GoesOnLater before result.0 }
    {
        lock(rt, &self.post).crash(rt, shared, before)
    }

    /// All seats, in client order, and the operator. It is refused for want of memory (NoMemory), and where a seat is in
    /// use (Busy), which is so of none once all connections have ended.
    pub fn into_parts(self, alloc: Global) -> Result<(Vec<Seat<J>>, Operator<J>), Refusal>
        ensures order { IfOk result (λ r. AreAllInOrder (λ seat. seat.client) J.clients r.0.items) }
        ensures errors { IfErr result (λ e. (e ≡ Refusal.NoMemory) ⊎ (e ≡ Refusal.Busy)) }
    {
        let seats = self.places.into_inner().all(alloc)?;
        Ok((seats, self.post.into_inner().into_operator()))
    }
}
