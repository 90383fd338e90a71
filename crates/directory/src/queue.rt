//! The queues that a directory lists.

ghost use Rattle.std.specs.Prelude.{◌≡◌};
ghost use Rattle.directory.specs.Queue.{kind_code, kind_of, queue_of};

use crate::name::Name;
use arena::{DURABLE_QUEUE, LOG_QUEUE, SLOTS};
use words::Kind;

/// A queue by its name, and its kind.
#[derive(Clone, Copy, Debug, PartialEq, Eq)]
pub struct Queue {
    pub name: Name,
    pub kind: Kind,
}

/// What each slot has.
pub type Places = [Option<Queue>; SLOTS];

/// What the directory says of a kind.
pub(crate) fn kind_code(kind: Kind) -> u64
    ensures { result ≡ kind_code kind }
{
    match kind {
        Kind::Durable => DURABLE_QUEUE,
        Kind::Log => LOG_QUEUE,
    }
}

/// The kind that the directory says so of, if it is one.
pub(crate) fn kind_of(code: u64) -> Option<Kind>
    ensures { result ≡ kind_of code }
{
    match code {
        DURABLE_QUEUE => Some(Kind::Durable),
        LOG_QUEUE => Some(Kind::Log),
        _ => None,
    }
}

/// The queue that the words of an open slot tell of, if they tell of one.
pub(crate) fn queue_of(first: u64, second: u64, code: u64) -> Option<Queue>
    ensures { result ≡ queue_of first second code }
{
    let name = Name::from_words(first, second)?;
    let kind = kind_of(code)?;
    Some(Queue { name, kind })
}
