//! Why no order explains what is known of calls: four patterns, each with the calls that it names by their places.

use words::Value;

/// A value ahead of others, by its put and by the take that is known to have got it.
#[derive(Clone, Copy)]
pub struct Ahead {
    pub put: usize,
    pub take: usize,
}

/// A place at which values were not yet out of the queue, and where that is seen by a value ahead of them, this one.
#[derive(Clone, Copy)]
pub struct Since {
    pub place: usize,
    pub ahead: Option<Ahead>,
}

/// Values that cannot all be out of the queue by some place.
#[derive(Drop)]
pub enum Lack {
    /// The value of this put came out by this take, which began later.
    Late {
        put: usize,
        take: usize,
    },
    /// The values of these puts, and the takes that can have taken any of them, which are fewer.
    Few {
        puts: Vec<usize>,
        takes: Vec<usize>,
        since: Option<Since>,
    },
}

/// From one place up to another the queue held something.
#[derive(Drop)]
pub struct Piece {
    pub from: usize,
    pub to: usize,
    pub lack: Lack,
}

/// Why no order explains what is known.
#[derive(Drop)]
pub enum Witness {
    /// A value came out that nobody can have put.
    Invented {
        take: usize,
        value: Value,
    },
    /// A value came out twice.
    Twice {
        first: usize,
        second: usize,
        value: Value,
    },
    /// A value came out before values ahead of it. The take that got it ended at `bound`, or did not end.
    PassedOver {
        take: usize,
        put: usize,
        bound: usize,
        lack: Lack,
    },
    /// A take found nothing, but the queue held something all the while, piece by piece, up to `end`.
    NotEmpty {
        take: usize,
        end: usize,
        pieces: Vec<Piece>,
    },
}
