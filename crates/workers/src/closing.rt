//! How the histories end, and how a shared session is taken back.

ghost use Rattle.std.specs.Prelude.{◌≡◌, ◌++◌, [], length, All, IfErr, IfOk, IsTrue, OnErr, OnOk};
ghost use Rattle.named.specs.Rotating.{IsRotated};
ghost use Rattle.notes.specs.Noting.{IsMadeBy};
ghost use Rattle.persist.specs.Noted.{applied};
ghost use Rattle.roll.specs.Rule.{IsKeeper, IsKeeperWith, rows_of};
ghost use Rattle.session.specs.Keeping.{SessionGoesOn};
ghost use Rattle.session.specs.Promises.{KeepsNumbers};
ghost use Rattle.workers.specs.Moments.{GoesOnLater, IsMomentOf};
ghost use Rattle.workers.specs.Refusals.{is_rotation_refusal};
ghost use Rattle.workers.specs.Deeds.{IsHeard};
ghost use Rattle.workers.specs.Seen.{IsRotatedBetween};
ghost use Rattle.workers.specs.Seats.{AreSeatsRecorded, AreAllInOrder, AreEmpty, AreRows};

use crate::entry::Entry;
use crate::handed::Handed;
use crate::locked::Locked;
use crate::marks::Marked;
use crate::naming::Naming;
use crate::operator::Operator;
use crate::seat::{Seat, known, seat_of};
use crate::shared::Shared;
use persist::Change;
use roll::{Roll, Token};
use session::Session;
use std::alloc::Global;
use std::sync::Wait;
use waiting::lock;
use words::Refusal;

/// The seat with an empty list, as the keeper knows it.
fn emptied<J: Naming>(roll: &Roll<Entry>, keeper: &mut Token<Entry>, seat: Seat<J>) -> Seat<J>
    requires roll { roll.now ≡ J.roll.lists }
    requires keeper { IsKeeper J.roll.lists (rows_of keeper.old) keeper.old }
    ensures client { result.client ≡ seat.client }
    ensures list { result.list.items ≡ [] }
    ensures keeper { IsKeeperWith J.roll.lists keeper.old seat.client.0 [] keeper.new }
{
    let Seat {
        client,
        mut list,
        steps: _,
        token,
        of: _,
    } = seat;
    list.clear();
    let token = roll.write(keeper, token, &list);
    seat_of(client, list, token)
}

/// All seats with empty lists, as the keeper knows them. Each is taken from the front of the vector and put behind the
/// others, so that this takes no memory.
pub(crate) fn all_emptied<J: Naming>(
    roll: &Roll<Entry>,
    keeper: &mut Token<Entry>,
    mut seats: Vec<Seat<J>>,
) -> Vec<Seat<J>>
    requires roll { roll.now ≡ J.roll.lists }
    requires keeper { IsKeeper J.roll.lists (rows_of keeper.old) keeper.old }
    requires clients { length (rows_of keeper.old) ≡ J.clients }
    requires order { AreAllInOrder (λ seat. seat.client) J.clients seats.items }
    ensures keeper { IsKeeper J.roll.lists (rows_of keeper.new) keeper.new }
    ensures clients { length (rows_of keeper.new) ≡ J.clients }
    ensures rows { AreEmpty (λ row. row) (rows_of keeper.new) }
    ensures order { AreAllInOrder (λ seat. seat.client) J.clients result.items }
    ensures empty { AreEmpty (λ seat. seat.list.items) result.items }
{
    for _ in 0..seats.len() {
        let seat = seats.remove(0);
        seats.push_reserved(emptied(roll, keeper, seat));
    }
    seats
}

/// The keeper knows the list of each seat.
fn all_known<J: Naming>(roll: &Roll<Entry>, mut keeper: Token<Entry>, mut seats: Vec<Seat<J>>)
    requires roll { roll.now ≡ J.roll.lists }
    requires keeper { IsKeeper J.roll.lists (rows_of keeper) keeper }
    requires order { AreAllInOrder (λ seat. seat.client) J.clients seats.items }
    ensures { AreRows (λ seat. seat.list.items) (rows_of keeper) seats.items }
{
    while let Some(seat) = seats.pop() {
        known(roll, &mut keeper, seat);
    }
}

impl<J: Naming> Locked<J> {
    /// The histories of all queues end, and with them the lists of all seats.
    fn rotate(
        &mut self,
        roll: &Roll<Entry>,
        seats: Vec<Seat<J>>,
    ) -> (Vec<Seat<J>>, Result<(), Refusal>)
        requires roll { roll.now ≡ J.roll.lists }
        requires order { AreAllInOrder (λ seat. seat.client) J.clients seats.items }
        ensures order { AreAllInOrder (λ seat. seat.client) J.clients result.0.items }
        ensures empty { OnOk result.1 (AreEmpty (λ seat. seat.list.items) result.0.items) }
        ensures same { OnErr result.1 (result.0.items ≡ seats.items) }
        ensures errors { IfErr result.1 (λ refusal. IsTrue (is_rotation_refusal refusal)) }
        ensures rotated { OnOk result.1 (IsRotated self.old.session.broker self.new.session.broker) }
        ensures kept { self.new.session.kept ≡ self.old.session.kept }
    {
        if let Err(refusal) = self.session.rotate() {
            return (seats, Err(refusal));
        }
        self.rotated = true;
        (all_emptied(roll, &mut self.keeper, seats), Ok(()))
    }

    /// The same, and a mark of the session, in the place of an earlier one.
    fn rotate_marked(
        &mut self,
        roll: &Roll<Entry>,
        seats: Vec<Seat<J>>,
        before: Marked<J>,
    ) -> (Vec<Seat<J>>, Marked<J>, Result<(), Refusal>)
        requires roll { roll.now ≡ J.roll.lists }
        requires order { AreAllInOrder (λ seat. seat.client) J.clients seats.items }
        ensures order { AreAllInOrder (λ seat. seat.client) J.clients result.0.items }
        ensures empty { OnOk result.2 (AreEmpty (λ seat. seat.list.items) result.0.items) }
        ensures same { OnErr result.2 (result.0.items ≡ seats.items) }
        ensures errors { IfErr result.2 (λ refusal. IsTrue (is_rotation_refusal refusal)) }
        ensures rotated { OnOk result.2 (IsRotatedBetween before result.1) }
        ensures later { GoesOnLater before result.1 }
    {
        let marked = self.mark_after(before);
        let (seats, rotated) = self.rotate(roll, seats);
        let marked = self.mark_after(marked);
        (seats, marked, rotated)
    }
}

impl<J: Naming> Shared<J> {
    /// The histories of all queues end, and others begin, as [`session::Session::rotate`] makes them; the seats' lists
    /// begin anew with them. The seats are all that were given, in client order, and come back so. It is refused, in
    /// this order, while the broker recovers (NotReady), where a call or a creation is under way (Busy), and for want
    /// of memory (NoMemory); then the lists stay. An open entry whose call a crash ended goes too: a caller that wants
    /// to hear of it calls [`Shared::finish`] first.
    pub fn rotate<R: Wait>(
        &self,
        rt: &R,
        seats: Vec<Seat<J>>,
        before: Marked<J>,
    ) -> (Vec<Seat<J>>, Marked<J>, Result<(), Refusal>)
        requires { AreAllInOrder (λ seat. seat.client) J.clients seats.items }
        ensures order { AreAllInOrder (λ seat. seat.client) J.clients result.0.items }
        ensures empty { OnOk result.2 (AreEmpty (λ seat. seat.list.items) result.0.items) }
        ensures same { OnErr result.2 (result.0.items ≡ seats.items) }
        ensures rotated { OnOk result.2 (IsRotatedBetween before result.1) }
        ensures errors { IfErr result.2 (λ refusal. IsTrue (is_rotation_refusal refusal)) }
        ensures later { GoesOnLater before result.1 }
    {
        lock(rt, &self.locked).rotate_marked(&self.roll, seats, before)
    }

    /// Takes the session back, and the seats with their lists: what a caller wants of these he copies before. The seats
    /// are all that were given, in client order: the list of each is what the histories have of its client, since the
    /// seats were given or the histories ended last.
    pub fn close(self, seats: Vec<Seat<J>>) -> Session
        requires { AreAllInOrder (λ seat. seat.client) J.clients seats.items }
        ensures lists { AreSeatsRecorded (λ seat. seat.list.items) J.first seats.items result }
        ensures goes_on { SessionGoesOn J.first result }
        ensures promises { KeepsNumbers result }
    {
        let (session, keeper, _register) = self.locked.into_inner().into_parts();
        all_known(&self.roll, keeper, seats);
        session
    }

    /// As [`Shared::close`], with a last hand-on, which nothing follows: all that was handed on makes exactly the kept
    /// words of the session, which is at its last moment. Of the batch it is refused as [`Shared::hand_on_to`] is.
    pub fn close_handing_on(
        self,
        alloc: Global,
        seats: Vec<Seat<J>>,
        handed: Handed<J>,
    ) -> (Session, Handed<J>, Result<Vec<Change>, Refusal>)
        requires { AreAllInOrder (λ seat. seat.client) J.clients seats.items }
        ensures lists { AreSeatsRecorded (λ seat. seat.list.items) J.first seats.items result.0 }
        ensures goes_on { SessionGoesOn J.first result.0 }
        ensures promises { KeepsNumbers result.0 }
        ensures row { IfOk result.2 (λ batch. result.1.changes ≡ handed.changes ++ batch.items) }
        ensures made { OnOk result.2
            (IsMadeBy result.1.changes J.first.broker.words.kept result.0.broker.words.kept) }
        ensures last { OnOk result.2 (result.1.last ≡ result.0) }
        ensures moment { OnOk result.2
            (IsMomentOf J.first result.1.last (applied result.1.changes J.first.broker.words.kept)) }
        ensures later { OnOk result.2 (GoesOnLater handed.last result.1.last) }
        ensures assured { result.1.assured ≡ handed.assured }
        ensures same { OnErr result.2 (result.1 ≡ handed) }
        ensures errors { IfErr result.2 (λ e. e ≡ Refusal.NoMemory) }
    {
        let mut locked = self.locked.into_inner();
        let (handed, batch) = locked.hand_on(handed, Vec::new(alloc));
        let (session, keeper, _register) = locked.into_parts();
        all_known(&self.roll, keeper, seats);
        (session, handed, batch)
    }

    /// As [`Shared::close`]. Everything stopped as often as the operator knows since the seats were given, and the
    /// session goes on from each that was marked.
    pub fn close_with(
        self,
        seats: Vec<Seat<J>>,
        operator: Operator<J>,
        marks: Vec<Marked<J>>,
    ) -> Session
        requires { AreAllInOrder (λ seat. seat.client) J.clients seats.items }
        ensures lists { AreSeatsRecorded (λ seat. seat.list.items) J.first seats.items result }
        ensures stops { IsHeard J.first.broker operator result.broker }
        ensures later { All (λ marked. GoesOnLater marked result) marks.items }
        ensures goes_on { SessionGoesOn J.first result }
        ensures promises { KeepsNumbers result }
    {
        let mut locked = self.locked.into_inner();
        locked.hear_all(marks);
        let (session, keeper, mut register) = locked.into_parts();
        all_known(&self.roll, keeper, seats);
        register.hear(&self.deeds, operator);
        session
    }
}
