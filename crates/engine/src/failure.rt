//! Why an input is not served to its end.

ghost use Rattle.std.specs.Prelude.{◌≡◌};
ghost use Rattle.engine.specs.Failing.{failure_of};

use crate::output::Unsent;
use std::fmt;
use words::Refusal;

/// Why an input is not served to its end.
#[derive(Clone, Copy, Debug, PartialEq, Eq)]
pub enum Failure {
    /// The reader failed.
    ReadFailed,
    /// The writer failed.
    WriteFailed,
    /// What was served could not be settled, so that no reply may tell of it.
    NotKept,
}

impl From<Unsent> for Failure {
    ghost from_gives = { λ unsent failure. failure ≡ failure_of unsent };

    fn from(unsent: Unsent) -> Failure {
        match unsent {
            Unsent::NotKept => Failure::NotKept,
            Unsent::WriteFailed => Failure::WriteFailed,
        }
    }
}

/// Its number and its name, as a refusal has them.
impl fmt::Display for Failure {
    fn fmt<W: fmt::Write>(&self, f: &mut fmt::Formatter<W>) -> fmt::Result {
        match self {
            Failure::ReadFailed => fmt::Display::fmt(&Refusal::ReadFailed, f),
            Failure::WriteFailed => fmt::Display::fmt(&Refusal::WriteFailed, f),
            Failure::NotKept => f.write_str("31 NotKept"),
        }
    }
}

impl std::error::Error for Failure {}
