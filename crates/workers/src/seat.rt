//! Seats.

ghost use Rattle.std.specs.Prelude.{◌≡◌, ◌<◌, ◌++◌, ◌∷◌, [], slice_get, Some, true, vec_capacity, vec_len};
ghost use Rattle.roll.specs.Rule.{IsHolder, IsKeeper, IsKeeperWith, rows_of};
ghost use Rattle.workers.specs.Lists.{ends_open, with_end};

use crate::entry::{End, Entry, end_last, has_open_call};
use crate::naming::Naming;
use roll::{Roll, Token};
use std::marker::PhantomData;
use words::Client;

/// A client's seat, which remembers the client's calls. Calls take it by value and give it back, so that a client makes
/// one at a time. A seat that is dropped leaves an open call under way until a crash, and its session is neither
/// rotated nor closed again.
#[derive(Drop)]
pub struct Seat<J: Naming> {
    /// Whose seat it is.
    pub client: Client,
    /// How many steps the open call has made. It lies here so that the three bytes between are all that no field fills:
    /// seven were copied by halves that overlap, and each copy waited for the one before.
    pub(crate) steps: u32,
    /// The client's calls, in its own order, since the seats were given or the histories ended last. The last one alone
    /// may be open.
    pub list: Vec<Entry>,
    pub(crate) token: Token<Entry>,
    pub(crate) of: PhantomData<J>,
    pub ghost holds: { IsHolder J.roll.lists client.0 list.items token },
}

impl<J: Naming> Seat<J> {
    /// Whether the client's last call is open: it was left Unfinished, and [`crate::Shared::finish`] goes on with it.
    pub fn is_open(&self) -> bool
        ensures { result ≡ ends_open self.now.list.items }
    {
        has_open_call(self.list.as_slice())
    }

    /// The seat, whose open call has made one step more.
    // Part of its caller, as `Shared::step` is.
    #[inline(always)]
    pub(crate) fn with_step(self) -> Self
        ensures client { result.client ≡ self.client }
        ensures list { result.list.items ≡ self.list.items }
    {
        let Seat {
            client,
            list,
            steps,
            token,
            of,
        } = self;
        Seat {
            client,
            list,
            steps: steps.saturating_add(1),
            token,
            of,
        }
    }

    /// Makes room for one entry more, if there is memory for it.
    pub(crate) fn with_room(self) -> (Self, bool)
        ensures same { (result.0.client ≡ self.client) × (result.0.list.items ≡ self.list.items) }
        ensures room { result.1 ≡ true → vec_len result.0.list < vec_capacity result.0.list }
    {
        let Seat {
            client,
            mut list,
            steps,
            token,
            of,
        } = self;
        let room = list.reserve(1).is_ok();
        let seat = Seat {
            client,
            list,
            steps,
            token,
            of,
        };
        (seat, room)
    }
}

/// A client's seat with this list.
pub(crate) fn seat_of<J: Naming>(client: Client, list: Vec<Entry>, token: Token<Entry>) -> Seat<J>
    requires { IsHolder J.roll.lists client.0 list.items token }
    ensures { (result.client ≡ client) × (result.list.items ≡ list.items) }
{
    Seat {
        client,
        list,
        steps: 0,
        token,
        of: PhantomData,
    }
}

/// The same seat: to write its list once more is how to learn that the keeper knows it.
pub(crate) fn known<J: Naming>(
    roll: &Roll<Entry>,
    keeper: &mut Token<Entry>,
    seat: Seat<J>,
) -> Seat<J>
    requires roll { roll.now ≡ J.roll.lists }
    requires keeper { IsKeeper J.roll.lists (rows_of keeper.old) keeper.old }
    ensures known { slice_get (rows_of keeper.old) seat.client.0 ≡ Some seat.list.items }
    ensures client { result.client ≡ seat.client }
    ensures list { result.list.items ≡ seat.list.items }
    ensures room { vec_capacity result.list ≡ vec_capacity seat.list }
    ensures keeper { IsKeeper J.roll.lists (rows_of keeper.old) keeper.new }
{
    let Seat {
        client,
        list,
        steps,
        token,
        of,
    } = seat;
    let token = roll.write(keeper, token, &list);
    Seat {
        client,
        list,
        steps,
        token,
        of,
    }
}

/// The seat with one entry more, as the keeper knows it.
pub(crate) fn with_entry<J: Naming>(
    roll: &Roll<Entry>,
    keeper: &mut Token<Entry>,
    seat: Seat<J>,
    entry: Entry,
) -> Seat<J>
    requires roll { roll.now ≡ J.roll.lists }
    requires keeper { IsKeeper J.roll.lists (rows_of keeper.old) keeper.old }
    requires room { vec_len seat.list < vec_capacity seat.list }
    ensures before { slice_get (rows_of keeper.old) seat.client.0 ≡ Some seat.list.items }
    ensures client { result.client ≡ seat.client }
    ensures list { result.list.items ≡ seat.list.items ++ entry ∷ [] }
    ensures keeper { IsKeeperWith J.roll.lists keeper.old seat.client.0 (seat.list.items ++ entry ∷ []) keeper.new }
{
    let Seat {
        client,
        mut list,
        steps: _,
        token,
        of,
    } = seat;
    list.push_reserved(entry);
    let token = roll.write(keeper, token, &list);
    Seat {
        client,
        list,
        steps: 0,
        token,
        of,
    }
}

/// The seat, where this became of its open call, as the keeper knows it.
pub(crate) fn with_last<J: Naming>(
    roll: &Roll<Entry>,
    keeper: &mut Token<Entry>,
    seat: Seat<J>,
    end: End,
) -> Seat<J>
    requires roll { roll.now ≡ J.roll.lists }
    requires keeper { IsKeeper J.roll.lists (rows_of keeper.old) keeper.old }
    requires open { ends_open seat.list.items ≡ true }
    ensures before { slice_get (rows_of keeper.old) seat.client.0 ≡ Some seat.list.items }
    ensures client { result.client ≡ seat.client }
    ensures list { result.list.items ≡ with_end end seat.list.items }
    ensures keeper { IsKeeperWith J.roll.lists keeper.old seat.client.0 (with_end end seat.list.items) keeper.new }
{
    let Seat {
        client,
        mut list,
        steps,
        token,
        of,
    } = seat;
    end_last(&mut list, end);
    let token = roll.write(keeper, token, &list);
    Seat {
        client,
        list,
        steps,
        token,
        of,
    }
}
