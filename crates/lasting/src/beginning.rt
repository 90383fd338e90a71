//! The words on which the journal of a session begins.

ghost use Rattle.std.specs.Prelude.{◌≡◌, IfErr, IfOk};
ghost use Rattle.workers.specs.Moments.{IsFirstMoment};

use named::Broker;
use persist::{KeptWords, Memory};
use session::Session;
use std::alloc::{AllocError, Global};
use words::Refusal;

/// The kept words of a memory.
fn kept_words(alloc: Global, memory: &Memory) -> Result<Vec<u64>, AllocError>
    ensures { IfOk result (λ words. words.items ≡ memory.now.words.kept) }
{
    let mut words = Vec::with_capacity(alloc, KeptWords::size(memory))?;
    for word in 0..KeptWords::size(memory) {
        words.push(memory.kept(word))?;
    }
    Ok(words)
}

/// The broker of a session, which is at a moment, as every session is.
fn broker_of(session: &Session) -> &Broker
    ensures broker { result.now ≡ session.now.broker }
    ensures moment { IsFirstMoment session.now }
{
    session.tells_settled();
    session.broker()
}

/// The kept words of the session's broker, with which its journal begins once the session is shared. It is refused for
/// want of memory (NoMemory).
pub fn first_words(alloc: Global, session: &Session) -> Result<Vec<u64>, Refusal>
    ensures words { IfOk result (λ words. words.items ≡ session.now.broker.words.kept) }
    ensures moment { IsFirstMoment session.now }
    ensures errors { IfErr result (λ e. e ≡ Refusal.NoMemory) }
{
    let image = broker_of(session).to_image()?;
    let Ok(memory) = Memory::from_image(alloc, &image) else {
        return Err(Refusal::NoMemory);
    };
    match kept_words(alloc, &memory) {
        Ok(words) => Ok(words),
        Err(_) => Err(Refusal::NoMemory),
    }
}
