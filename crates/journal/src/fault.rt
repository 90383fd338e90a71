//! Why bytes are not read as a journal.

use std::fmt;
use words::Refusal;

/// Why bytes are not read as a journal.
#[derive(Clone, Copy, Debug, PartialEq, Eq)]
pub enum Fault {
    /// What is wrong with the head, as an image is refused: BadMagic, Truncated or BadCount. Or memory is refused,
    /// NoMemory.
    Refused(Refusal),
    /// The sum of the head is another one: the beginning of the file is not as it was written.
    BadSum,
}

/// As a refusal is written, or `BadSum`.
impl fmt::Display for Fault {
    ghost use Rattle.std.specs.Prelude.{Some};
    ghost use Rattle.journal.specs.Fault.{fault_text};

    ghost output = { λ fault. Some (fault_text fault) };

    fn fmt<W: fmt::Write>(&self, f: &mut fmt::Formatter<W>) -> fmt::Result {
        match self {
            Fault::Refused(refusal) => write!(f, "{refusal}"),
            Fault::BadSum => f.write_str("BadSum"),
        }
    }
}

impl std::error::Error for Fault {}
