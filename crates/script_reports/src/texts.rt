//! What acts did, in words.

use crate::watched::Access;
use arena::Layout;
use interleave::Act;
use persist::Swap;
use std::alloc::{AllocError, Global};
use std::fmt;
use words::Call;

/// A word, by the name of its place.
#[derive(Drop)]
pub(crate) struct Named<'a>(pub(crate) &'a Layout, pub(crate) usize);

impl fmt::Display for Named<'_> {
    fn fmt<W: fmt::Write>(&self, f: &mut fmt::Formatter<W>) -> fmt::Result {
        match self.0.what_is(self.1) {
            Some(place) => write!(f, "{place}"),
            None => write!(f, "word {}", self.1),
        }
    }
}

/// A value, or the last digits of one that is too long for its column.
#[derive(Drop)]
pub(crate) struct Brief(pub(crate) u64);

impl fmt::Display for Brief {
    fn fmt<W: fmt::Write>(&self, f: &mut fmt::Formatter<W>) -> fmt::Result {
        if self.0 < 1_000_000 {
            return write!(f, "{}", self.0);
        }
        let last = self.0 % 10_000;
        write!(f, "…{last:04}")
    }
}

/// An access, as the page spells it.
#[derive(Drop)]
struct Accessed<'a>(&'a Layout, Access);

impl fmt::Display for Accessed<'_> {
    fn fmt<W: fmt::Write>(&self, f: &mut fmt::Formatter<W>) -> fmt::Result {
        match self.1 {
            Access::Load { word, value } => {
                write!(f, "load {}: {}", Named(self.0, word), Brief(value))
            }
            Access::Store { word, value } => {
                write!(f, "store {}: {}", Named(self.0, word), Brief(value))
            }
            Access::Swap { word, swap } => {
                let went = match swap {
                    Swap::Done => "done",
                    Swap::Found(_) => "fails",
                };
                write!(f, "compare-and-swap {}: {went}", Named(self.0, word))
            }
            Access::Flush { word } => write!(f, "flush {}", Named(self.0, word)),
            Access::Fence(Some(change)) => write!(f, "fence: keeps {}", Named(self.0, change.word)),
            Access::Fence(None) => write!(f, "fence: keeps nothing new"),
        }
    }
}

/// A call, as the page spells it.
#[derive(Drop)]
pub(crate) struct Called(pub(crate) Call);

impl fmt::Display for Called {
    fn fmt<W: fmt::Write>(&self, f: &mut fmt::Formatter<W>) -> fmt::Result {
        match self.0 {
            Call::Enq(value) => write!(f, "enq {value}"),
            Call::Deq => write!(f, "deq"),
        }
    }
}

/// An act and its access, as the page spells them.
#[derive(Drop)]
pub(crate) struct Spelt<'a> {
    pub(crate) layout: &'a Layout,
    pub(crate) act: Act,
    pub(crate) access: Option<Access>,
}

impl Spelt<'_> {
    /// Whose act it is.
    fn actor<W: fmt::Write>(&self, f: &mut fmt::Formatter<W>) -> fmt::Result {
        match self.act {
            Act::Start { client, .. } | Act::Step { client } => write!(f, "{}: ", client.0),
            Act::Recover => write!(f, "recovery: "),
            Act::Evict { .. } | Act::Crash => Ok(()),
        }
    }
}

impl fmt::Display for Spelt<'_> {
    fn fmt<W: fmt::Write>(&self, f: &mut fmt::Formatter<W>) -> fmt::Result {
        self.actor(f)?;
        match self.act {
            Act::Start { number, call, .. } => {
                if number > 0 {
                    write!(f, "#{number} ")?;
                }
                write!(f, "{}", Called(call))
            }
            Act::Step { .. } | Act::Recover => match self.access {
                Some(access) => write!(f, "{}", Accessed(self.layout, access)),
                None => write!(f, "step"),
            },
            Act::Evict { at } => write!(f, "evict {}", Named(self.layout, at)),
            Act::Crash => write!(f, "crash"),
        }
    }
}

/// A text of at most so many characters: its beginning, if it has more.
pub(crate) fn shortened(alloc: Global, text: &str, most: usize) -> Result<String, AllocError> {
    if text.chars().count() <= most {
        return String::from_str(alloc, text);
    }
    let mut short = String::new(alloc);
    for character in text.chars().take(most.saturating_sub(1)) {
        short.push(character)?;
    }
    short.push('…')?;
    Ok(short)
}
