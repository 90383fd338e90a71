//! What clients of brokers are told.

use words::{Outcome, Reply, Verdict};

/// The call of this number took effect.
pub fn taken(number: u64, reply: Reply) -> Verdict {
    Verdict {
        number,
        outcome: Outcome::Taken(reply),
    }
}

/// The call of this number took no effect, and never will.
pub fn not_taken(number: u64) -> Verdict {
    Verdict {
        number,
        outcome: Outcome::NotTaken,
    }
}
