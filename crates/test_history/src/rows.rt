//! The rows: histories, and orders of them.

use test_support::Said;

/// What a client is told.
#[derive(Clone, Copy)]
pub(crate) enum Telling {
    Nothing,
    NotTaken(u64),
    Taken(u64, Said),
    NoCall,
    Open,
    Empty,
    Got(u32),
}

/// What is seen of a queue. A call has its client and its number, 0 where it has none.
#[derive(Clone, Copy)]
pub(crate) enum Seen {
    Put(u8, u64, u32),
    Take(u8, u64),
    Return(u8, Said),
    Crash,
    /// It is ready, and tells clients 0 and 1 this.
    Ready(Telling, Telling),
}

/// An entry of an order: the place of its call in the history, and its reply.
pub(crate) type Placed = (usize, Said);

/// A history, orders that explain it, and orders that do not.
#[derive(Clone, Copy)]
pub(crate) struct Case {
    pub(crate) what: &'static str,
    pub(crate) base: &'static [u32],
    /// What client 0 is told at first.
    pub(crate) first: Telling,
    pub(crate) seen: &'static [Seen],
    pub(crate) right: &'static [&'static [Placed]],
    pub(crate) wrong: &'static [&'static [Placed]],
}

pub(crate) static HISTORIES: [Case; 35] = [
    Case {
        what: "a complete call is in the order once",
        base: &[5],
        first: Telling::Nothing,
        seen: &[Seen::Take(0, 0), Seen::Return(0, Said::Got(5))],
        right: &[&[(0, Said::Got(5))]],
        wrong: &[
            &[],
            &[(0, Said::Got(5)), (0, Said::Got(5))],
            &[(1, Said::Got(5))],
            &[(2, Said::Got(5))],
        ],
    },
    Case {
        what: "beside a value that stays",
        base: &[5, 5],
        first: Telling::Nothing,
        seen: &[Seen::Take(0, 0), Seen::Return(0, Said::Got(5))],
        right: &[&[(0, Said::Got(5))]],
        wrong: &[
            &[],
            &[(0, Said::Got(5)), (0, Said::Got(5))],
            &[(1, Said::Got(5))],
            &[(2, Said::Got(5))],
        ],
    },
    Case {
        what: "with its reply",
        base: &[5],
        first: Telling::Nothing,
        seen: &[Seen::Take(0, 0), Seen::Return(0, Said::Got(6))],
        right: &[],
        wrong: &[&[(0, Said::Got(5))]],
    },
    Case {
        what: "a call that was answered before another began precedes it",
        base: &[],
        first: Telling::Nothing,
        seen: &[
            Seen::Put(0, 0, 1),
            Seen::Return(0, Said::Done),
            Seen::Put(1, 0, 2),
            Seen::Return(1, Said::Done),
        ],
        right: &[&[(0, Said::Done), (2, Said::Done)]],
        wrong: &[&[(2, Said::Done), (0, Said::Done)]],
    },
    Case {
        what: "calls that overlap come in either order",
        base: &[],
        first: Telling::Nothing,
        seen: &[
            Seen::Put(0, 0, 1),
            Seen::Put(1, 0, 2),
            Seen::Return(0, Said::Done),
            Seen::Return(1, Said::Done),
        ],
        right: &[
            &[(0, Said::Done), (1, Said::Done)],
            &[(1, Said::Done), (0, Said::Done)],
        ],
        wrong: &[],
    },
    Case {
        what: "a value is put before it is taken",
        base: &[],
        first: Telling::Nothing,
        seen: &[
            Seen::Take(0, 0),
            Seen::Return(0, Said::Got(7)),
            Seen::Put(1, 0, 7),
            Seen::Return(1, Said::Done),
        ],
        right: &[],
        wrong: &[
            &[(0, Said::Got(7)), (2, Said::Done)],
            &[(2, Said::Done), (0, Said::Got(7))],
        ],
    },
    Case {
        what: "an empty queue is empty where the call takes effect",
        base: &[],
        first: Telling::Nothing,
        seen: &[
            Seen::Take(0, 0),
            Seen::Take(1, 0),
            Seen::Return(0, Said::Empty),
            Seen::Put(2, 0, 5),
            Seen::Return(2, Said::Done),
            Seen::Return(1, Said::Empty),
        ],
        right: &[
            &[(0, Said::Empty), (1, Said::Empty), (3, Said::Done)],
            &[(1, Said::Empty), (0, Said::Empty), (3, Said::Done)],
        ],
        wrong: &[
            &[(0, Said::Empty), (3, Said::Done), (1, Said::Empty)],
            &[(3, Said::Done), (0, Said::Empty), (1, Said::Empty)],
        ],
    },
    Case {
        what: "a call that is told not taken is not in the order",
        base: &[],
        first: Telling::Nothing,
        seen: &[
            Seen::Put(0, 1, 9),
            Seen::Crash,
            Seen::Ready(Telling::NotTaken(1), Telling::Nothing),
        ],
        right: &[&[]],
        wrong: &[&[(0, Said::Done)]],
    },
    Case {
        what: "nor is one of which nothing is told",
        base: &[],
        first: Telling::Nothing,
        seen: &[
            Seen::Put(0, 1, 9),
            Seen::Crash,
            Seen::Ready(Telling::Nothing, Telling::Nothing),
        ],
        right: &[&[]],
        wrong: &[&[(0, Said::Done)]],
    },
    Case {
        what: "one that is told taken is",
        base: &[],
        first: Telling::Nothing,
        seen: &[
            Seen::Put(0, 1, 9),
            Seen::Crash,
            Seen::Ready(Telling::Taken(1, Said::Done), Telling::Nothing),
        ],
        right: &[&[(0, Said::Done)]],
        wrong: &[&[]],
    },
    Case {
        what: "no call of the told number took effect",
        base: &[],
        first: Telling::Nothing,
        seen: &[
            Seen::Put(0, 1, 9),
            Seen::Crash,
            Seen::Ready(Telling::Taken(2, Said::Done), Telling::Nothing),
        ],
        right: &[],
        wrong: &[&[], &[(0, Said::Done)]],
    },
    Case {
        what: "nor was there one to take",
        base: &[],
        first: Telling::Nothing,
        seen: &[
            Seen::Put(0, 1, 9),
            Seen::Crash,
            Seen::Ready(Telling::NotTaken(2), Telling::Nothing),
        ],
        right: &[],
        wrong: &[&[], &[(0, Said::Done)]],
    },
    Case {
        what: "the last call is told",
        base: &[],
        first: Telling::Nothing,
        seen: &[
            Seen::Put(0, 1, 1),
            Seen::Return(0, Said::Done),
            Seen::Put(0, 2, 2),
            Seen::Return(0, Said::Done),
            Seen::Crash,
            Seen::Ready(Telling::Taken(2, Said::Done), Telling::Nothing),
        ],
        right: &[&[(0, Said::Done), (2, Said::Done)]],
        wrong: &[],
    },
    Case {
        what: "and none before it",
        base: &[],
        first: Telling::Nothing,
        seen: &[
            Seen::Put(0, 1, 1),
            Seen::Return(0, Said::Done),
            Seen::Put(0, 2, 2),
            Seen::Return(0, Said::Done),
            Seen::Crash,
            Seen::Ready(Telling::Taken(1, Said::Done), Telling::Nothing),
        ],
        right: &[],
        wrong: &[&[(0, Said::Done), (2, Said::Done)]],
    },
    Case {
        what: "of two interrupted calls the one that is told taken is in the order",
        base: &[],
        first: Telling::Nothing,
        seen: &[
            Seen::Put(0, 1, 1),
            Seen::Put(1, 1, 2),
            Seen::Crash,
            Seen::Ready(Telling::NotTaken(1), Telling::Taken(1, Said::Done)),
            Seen::Take(0, 2),
            Seen::Return(0, Said::Got(2)),
        ],
        right: &[&[(1, Said::Done), (4, Said::Got(2))]],
        wrong: &[
            &[(4, Said::Got(2)), (1, Said::Done)],
            &[(1, Said::Done), (0, Said::Done), (4, Said::Got(2))],
        ],
    },
    Case {
        what: "one that is not told is not, though it would explain a reply",
        base: &[],
        first: Telling::Nothing,
        seen: &[
            Seen::Put(1, 1, 2),
            Seen::Crash,
            Seen::Ready(Telling::Nothing, Telling::Nothing),
            Seen::Take(2, 1),
            Seen::Return(2, Said::Got(2)),
        ],
        right: &[],
        wrong: &[&[(0, Said::Done), (3, Said::Got(2))]],
    },
    Case {
        what: "where the queue held the value at first",
        base: &[2],
        first: Telling::Nothing,
        seen: &[
            Seen::Put(1, 1, 2),
            Seen::Crash,
            Seen::Ready(Telling::Nothing, Telling::Nothing),
            Seen::Take(2, 1),
            Seen::Return(2, Said::Got(2)),
        ],
        right: &[&[(3, Said::Got(2))]],
        wrong: &[&[(0, Said::Done), (3, Said::Got(2))]],
    },
    Case {
        what: "a row tells of the last take, and no put",
        base: &[],
        first: Telling::Nothing,
        seen: &[
            Seen::Take(0, 0),
            Seen::Return(0, Said::Empty),
            Seen::Put(0, 0, 3),
            Seen::Crash,
            Seen::Ready(Telling::Empty, Telling::Nothing),
        ],
        right: &[&[(0, Said::Empty)], &[(0, Said::Empty), (2, Said::Done)]],
        wrong: &[],
    },
    Case {
        what: "another row than that of the take: Open",
        base: &[],
        first: Telling::Nothing,
        seen: &[
            Seen::Take(0, 0),
            Seen::Return(0, Said::Empty),
            Seen::Put(0, 0, 3),
            Seen::Crash,
            Seen::Ready(Telling::Open, Telling::Nothing),
        ],
        right: &[],
        wrong: &[&[(0, Said::Empty)]],
    },
    Case {
        what: "another row than that of the take: NoCall",
        base: &[],
        first: Telling::Nothing,
        seen: &[
            Seen::Take(0, 0),
            Seen::Return(0, Said::Empty),
            Seen::Put(0, 0, 3),
            Seen::Crash,
            Seen::Ready(Telling::NoCall, Telling::Nothing),
        ],
        right: &[],
        wrong: &[&[(0, Said::Empty)]],
    },
    Case {
        what: "another row than that of the take: Got",
        base: &[],
        first: Telling::Nothing,
        seen: &[
            Seen::Take(0, 0),
            Seen::Return(0, Said::Empty),
            Seen::Put(0, 0, 3),
            Seen::Crash,
            Seen::Ready(Telling::Got(3), Telling::Nothing),
        ],
        right: &[],
        wrong: &[&[(0, Said::Empty)]],
    },
    Case {
        what: "a take that is told open is not in the order",
        base: &[4],
        first: Telling::Nothing,
        seen: &[
            Seen::Take(0, 0),
            Seen::Crash,
            Seen::Ready(Telling::Open, Telling::Nothing),
        ],
        right: &[&[]],
        wrong: &[&[(0, Said::Got(4))]],
    },
    Case {
        what: "the base tells until a call is taken",
        base: &[],
        first: Telling::Taken(7, Said::Done),
        seen: &[
            Seen::Crash,
            Seen::Ready(Telling::Taken(7, Said::Done), Telling::Nothing),
            Seen::Take(0, 8),
            Seen::Crash,
            Seen::Crash,
            Seen::Ready(Telling::Taken(7, Said::Done), Telling::Nothing),
        ],
        right: &[&[]],
        wrong: &[&[(2, Said::Empty)]],
    },
    Case {
        what: "and only what it tells",
        base: &[],
        first: Telling::Nothing,
        seen: &[
            Seen::Crash,
            Seen::Ready(Telling::Taken(7, Said::Done), Telling::Nothing),
            Seen::Take(0, 8),
            Seen::Crash,
            Seen::Crash,
            Seen::Ready(Telling::Taken(7, Said::Done), Telling::Nothing),
        ],
        right: &[],
        wrong: &[&[]],
    },
    Case {
        what: "nothing happened",
        base: &[],
        first: Telling::Nothing,
        seen: &[],
        right: &[&[]],
        wrong: &[],
    },
    Case {
        what: "stops and recoveries alone",
        base: &[],
        first: Telling::Nothing,
        seen: &[
            Seen::Ready(Telling::Nothing, Telling::Nothing),
            Seen::Crash,
            Seen::Crash,
            Seen::Ready(Telling::Nothing, Telling::Nothing),
            Seen::Ready(Telling::Nothing, Telling::Nothing),
        ],
        right: &[&[]],
        wrong: &[],
    },
    Case {
        what: "the sixteenth client calls",
        base: &[],
        first: Telling::Nothing,
        seen: &[Seen::Put(15, 0, 1)],
        right: &[&[]],
        wrong: &[],
    },
    Case {
        what: "a client calls twice at once",
        base: &[],
        first: Telling::Nothing,
        seen: &[Seen::Put(0, 0, 1), Seen::Put(0, 0, 2)],
        right: &[],
        wrong: &[&[], &[(0, Said::Done)]],
    },
    Case {
        what: "calls with and without a number",
        base: &[],
        first: Telling::Nothing,
        seen: &[Seen::Put(0, 0, 1), Seen::Put(1, 1, 2)],
        right: &[],
        wrong: &[&[], &[(0, Said::Done)]],
    },
    Case {
        what: "a seventeenth client",
        base: &[],
        first: Telling::Nothing,
        seen: &[Seen::Put(16, 0, 1)],
        right: &[],
        wrong: &[&[], &[(0, Said::Done)]],
    },
    Case {
        what: "a return without a call",
        base: &[],
        first: Telling::Nothing,
        seen: &[Seen::Return(0, Said::Done)],
        right: &[],
        wrong: &[&[], &[(0, Said::Done)]],
    },
    Case {
        what: "a call while all is stopped",
        base: &[],
        first: Telling::Nothing,
        seen: &[Seen::Crash, Seen::Put(0, 0, 1)],
        right: &[],
        wrong: &[&[], &[(0, Said::Done)]],
    },
    Case {
        what: "a return while all is stopped",
        base: &[],
        first: Telling::Nothing,
        seen: &[Seen::Put(0, 0, 1), Seen::Crash, Seen::Return(0, Said::Done)],
        right: &[],
        wrong: &[&[], &[(0, Said::Done)]],
    },
    Case {
        what: "a return after the recovery",
        base: &[],
        first: Telling::Nothing,
        seen: &[
            Seen::Put(0, 0, 1),
            Seen::Crash,
            Seen::Ready(Telling::Nothing, Telling::Nothing),
            Seen::Return(0, Said::Done),
        ],
        right: &[],
        wrong: &[&[], &[(0, Said::Done)]],
    },
    Case {
        what: "a recovery without a stop ends no call",
        base: &[],
        first: Telling::Nothing,
        seen: &[
            Seen::Put(0, 0, 1),
            Seen::Ready(Telling::Nothing, Telling::Nothing),
            Seen::Return(0, Said::Done),
        ],
        right: &[&[(0, Said::Done)]],
        wrong: &[&[]],
    },
];

/// What an order leaves, or the number of its first entry that is wrong.
#[derive(Clone, Copy)]
pub(crate) enum Left {
    Values(&'static [u32]),
    WrongAt(usize),
}

/// A history that begins with 8 and 9: a put of 1, a take, a put of 2, and a stop.
pub(crate) static REPLAYED: [Seen; 4] = [
    Seen::Put(0, 0, 1),
    Seen::Take(1, 0),
    Seen::Put(2, 0, 2),
    Seen::Crash,
];

/// Orders of it.
pub(crate) static REPLAYS: [([Placed; 3], Left); 3] = [
    (
        [(0, Said::Done), (1, Said::Got(8)), (2, Said::Done)],
        Left::Values(&[9, 1, 2]),
    ),
    (
        [(0, Said::Done), (1, Said::Got(9)), (2, Said::Done)],
        Left::WrongAt(1),
    ),
    (
        [(0, Said::Done), (1, Said::Got(8)), (3, Said::Done)],
        Left::WrongAt(2),
    ),
];
