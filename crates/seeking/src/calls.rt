//! The calls of a recording, and what is known of each.

use std::alloc::{AllocError, Global};
use words::{Call, Reply};

/// The end of a call that has none.
pub const NEVER: usize = 18_446_744_073_709_551_615;

/// What is known of a call.
#[derive(Clone, Copy, PartialEq, Eq)]
pub enum Known {
    /// It took effect, with this reply.
    Taken(Reply),
    /// It took no effect.
    NotTaken,
    /// Nothing.
    Open,
}

impl Known {
    /// What is known of a call by its answer, if it was answered.
    fn by(reply: Option<Reply>) -> Self {
        match reply {
            Some(reply) => Known::Taken(reply),
            None => Known::Open,
        }
    }
}

/// A call from one place to another, and what is known of it.
#[derive(Clone, Copy)]
pub struct KnownCall {
    pub begin: usize,
    pub end: usize,
    pub call: Call,
    pub known: Known,
}

/// The calls as they begin, the places of crashes, and how many places there are.
#[derive(Drop)]
pub struct Calls {
    pub calls: Vec<KnownCall>,
    pub crashes: Vec<usize>,
    pub places: usize,
}

impl Calls {
    /// None, and room for so many.
    pub fn with_room(alloc: Global, count: usize) -> Result<Self, AllocError> {
        Ok(Calls {
            calls: Vec::with_capacity(alloc, count)?,
            crashes: Vec::new(alloc),
            places: 0,
        })
    }

    /// A call begins at the next place. The answer is its number.
    pub fn begin(&mut self, call: Call) -> Result<usize, AllocError> {
        let number = self.calls.len();
        self.calls.push(KnownCall {
            begin: self.places,
            end: NEVER,
            call,
            known: Known::by(None),
        })?;
        self.places = self.places.wrapping_add(1);
        Ok(number)
    }

    /// The call of this number is answered, at the next place.
    pub fn answer(&mut self, number: usize, reply: Reply) {
        if let Some(call) = self.calls.get_mut(number) {
            call.end = self.places;
            call.known = Known::by(Some(reply));
        }
        self.places = self.places.wrapping_add(1);
    }

    /// The call of this number ends with the crash that comes at the next place.
    pub fn interrupt(&mut self, number: usize) {
        if let Some(call) = self.calls.get_mut(number) {
            call.end = self.places;
        }
    }

    /// A crash at the next place, and recovery behind it.
    pub fn crash(&mut self) -> Result<(), AllocError> {
        self.crashes.push(self.places)?;
        self.places = self.places.wrapping_add(2);
        Ok(())
    }

    /// It was learnt what became of the call of this number.
    pub fn learn(&mut self, number: usize, known: Known) {
        if let Some(call) = self.calls.get_mut(number) {
            call.known = known;
        }
    }
}
