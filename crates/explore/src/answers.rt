//! The answers of calls that go on alone.

use std::fmt;
use words::{Client, Reply};

/// A call that went on alone from a point of a script to its answer.
#[derive(Clone, Copy)]
pub struct Alone {
    /// After how many of the accepted acts.
    pub point: u64,
    pub client: Client,
    pub reply: Reply,
    /// How many steps it took.
    pub steps: u32,
}

/// As a report spells it: `point 8 client 0: done steps 3`.
impl fmt::Display for Alone {
    ghost use Rattle.std.specs.Prelude.{Some};
    ghost use Rattle.explore.specs.Stopped.{alone_text};

    ghost output = { λ alone. Some (alone_text alone) };

    fn fmt<W: fmt::Write>(&self, f: &mut fmt::Formatter<W>) -> fmt::Result {
        write!(
            f,
            "point {} client {}: {} steps {}",
            self.point, self.client.0, self.reply, self.steps
        )
    }
}
