//! Why a journal's file is not used.

use journal::Fault as JournalFault;
use std::fmt;
use words::Refusal;

/// Why a journal's file is not used.
#[derive(Clone, Copy, Debug, PartialEq, Eq)]
pub enum Fault {
    /// Bytes of it are no journal's (BadMagic, Truncated, BadCount), it cannot be read (ReadFailed), nothing can be
    /// written beside it (WriteFailed), or memory is refused (NoMemory).
    Refused(Refusal),
    /// Another program uses it.
    InUse,
    /// The sum of its head is another, or bytes in its middle were damaged that were kept once.
    BadSum,
}

impl fmt::Display for Fault {
    fn fmt<W: fmt::Write>(&self, f: &mut fmt::Formatter<W>) -> fmt::Result {
        match self {
            Fault::Refused(refusal) => write!(f, "{refusal}"),
            Fault::InUse => f.write_str("32 InUse"),
            Fault::BadSum => f.write_str("33 BadSum"),
        }
    }
}

impl std::error::Error for Fault {}

impl From<Refusal> for Fault {
    ghost use Rattle.std.specs.Prelude.{◌≡◌};
    ghost use Rattle.journal_store.specs.declared.fault.Fault.TheVariants.{Refused};

    ghost from_gives = { λ refusal fault. fault ≡ Refused refusal };

    fn from(refusal: Refusal) -> Fault {
        Fault::Refused(refusal)
    }
}

impl From<JournalFault> for Fault {
    fn from(fault: JournalFault) -> Fault {
        match fault {
            JournalFault::Refused(refusal) => Fault::Refused(refusal),
            JournalFault::BadSum => Fault::BadSum,
        }
    }
}
