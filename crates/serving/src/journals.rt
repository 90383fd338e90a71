//! What a broker begins with that is served with a journal, and what is left of it.

ghost use Rattle.std.specs.Prelude.{◌≡◌, ◌⊎◌, IfErr, IfOk};
ghost use Rattle.session.specs.Sessions.{IsUncalled};
ghost use Rattle.workers.specs.Moments.{IsFirstMoment};
ghost use Rattle.workers.specs.Opening.{IsInUse};
ghost use Rattle.serving.specs.Image.{IsOpenedOver};
ghost use Rattle.serving.specs.declared.journals.Unserved.TheVariants.{Refused};

use engine::Failure;
use journal_file::{Journal, Storage};
use lasting::{Policy, first_words};
use named::Broker;
use session::Session;
use std::alloc::Global;
use words::Refusal;
use workers::{Noting, Opened};

/// Where a journal is put, and when it keeps what was done.
#[derive(Drop)]
pub struct Journaling<S> {
    pub storage: S,
    pub policy: Policy,
}

/// What is left of a broker that was served with a journal.
#[derive(Drop)]
pub struct Left<S: Storage + Drop> {
    /// The image of the broker.
    pub image: Vec<u8>,
    /// The journal, whose words are those of the image.
    pub journal: Journal<S>,
}

/// Why a broker is not served with a journal, or not to its end.
#[derive(Clone, Copy)]
pub enum Unserved {
    /// It is refused, as without one; or its journal could not begin.
    Refused(Refusal),
    /// The journal has failed, and what was done is not kept any more. What was replied is.
    NotKept,
}

impl From<Refusal> for Unserved {
    ghost from_gives = { λ refusal unserved. unserved ≡ Refused refusal };

    fn from(refusal: Refusal) -> Unserved {
        Unserved::Refused(refusal)
    }
}

impl From<Failure> for Unserved {
    ghost use Rattle.serving.specs.Journaled.{unserved_by};

    ghost from_gives = { λ failure unserved. unserved ≡ unserved_by failure };

    fn from(failure: Failure) -> Unserved {
        match failure {
            Failure::ReadFailed => Unserved::Refused(Refusal::ReadFailed),
            Failure::WriteFailed => Unserved::Refused(Refusal::WriteFailed),
            Failure::NotKept => Unserved::NotKept,
        }
    }
}

/// A session that is about to be shared, whose changes are noted, and the words on which its journal begins.
#[derive(Drop)]
pub struct Noted {
    /// The session, which has no name yet.
    pub noting: Noting,
    /// All words of its memory, as they are kept.
    pub words: Vec<u64>,
}

/// A session over the broker, for its journal to follow. It is refused where a call or a creation is under way (Busy),
/// and for want of memory (NoMemory).
pub fn begin_noting(alloc: Global, broker: Broker) -> Result<Noted, Refusal>
    requires { IsUncalled broker }
    ensures opened { IfOk result (λ noted. IsOpenedOver broker noted.noting.session) }
    ensures words { IfOk result (λ noted. noted.words.items ≡ noted.noting.session.broker.words.kept) }
    ensures moment { IfOk result (λ noted. IsFirstMoment noted.noting.session) }
    ensures errors { IfErr result (λ e. (e ≡ Refusal.NoMemory) ⊎ ((e ≡ Refusal.Busy) × IsInUse broker)) }
{
    let session = Session::open(broker);
    let words = first_words(alloc, &session)?;
    let opened = match Opened::new(alloc, session) {
        Ok(opened) => opened,
        Err(not) => return Err(not.refusal),
    };
    match opened.noting(alloc) {
        Ok(noting) => Ok(Noted { noting, words }),
        Err(not) => Err(not.refusal),
    }
}
