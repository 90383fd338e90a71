//! A node's message that is loaded, one word a step.

ghost use Rattle.std.specs.Prelude.{◌≡◌};
ghost use Rattle.stepper.specs.Loading.{part_next, loaded_with};

use crate::resume::After;
use arena::{Part, value_of};
use words::Value;

/// What is loaded of a message: the parts before the one that comes next.
#[derive(Clone, Copy)]
pub enum Loading {
    Length,
    First { len: u64 },
    Second { len: u64, first: u64 },
    Third { len: u64, first: u64, second: u64 },
}

impl Loading {
    /// The part that comes next.
    pub fn part(self) -> Part
        ensures { result ≡ part_next self }
    {
        match self {
            Loading::Length => Part::Length,
            Loading::First { .. } => Part::First,
            Loading::Second { .. } => Part::Second,
            Loading::Third { .. } => Part::Third,
        }
    }

    /// With the word of that part: what comes then, or the message.
    pub fn with(self, word: u64) -> After<Loading, Value>
        ensures { result ≡ loaded_with self word }
    {
        match self {
            Loading::Length => After::More(Loading::First { len: word }),
            Loading::First { len } => After::More(Loading::Second { len, first: word }),
            Loading::Second { len, first } => After::More(Loading::Third {
                len,
                first,
                second: word,
            }),
            Loading::Third { len, first, second } => {
                After::Done(value_of([len, first, second, word]))
            }
        }
    }
}
