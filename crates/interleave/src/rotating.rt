//! A rotation: the history ends, and another begins on what the queue holds and tells.

ghost use Rattle.std.specs.Prelude.{◌≡◌, ◌≤◌, true, false, Ok, Err, IfOk, IfErr, OnOk};
ghost use Rattle.persist.specs.Memory.{Words};
ghost use Rattle.sound_words.specs.Sound.{AreSoundWords};
ghost use Rattle.sound_words.specs.Told.{tells_by};
ghost use Rattle.interleave.specs.Calls.{is_no_memory};
ghost use Rattle.interleave.specs.Content.{content_by};
ghost use Rattle.interleave.specs.Core.{state_of};
ghost use Rattle.interleave.specs.Ranges.{KeptFit};
ghost use Rattle.interleave.specs.Values.{value_of_place};
ghost use Rattle.interleave.specs.Rotation.{rotate_result, some_client_calls, BeginsAnew, HoldsAnew, IsLeftByRotate};

use crate::content::content;
use crate::lent::Core;
use events::copied;
use persist::KeptWords;
use sound_words::tells;
use words::{Refusal, Reports, Value};

impl Core {
    /// What the kept words tell the clients.
    fn tells<K: KeptWords>(&self, kept: &K) -> Reports
        requires { AreSoundWords self.now.shape (K.kept_words kept.now) }
        ensures { result ≡ tells_by self.now.shape (value_of_place self.now.shape (K.kept_words kept.now)) }
    {
        tells(&self.layout, kept)
    }

    /// Whether a client has a call under way.
    pub fn has_calls(&self) -> bool
        ensures { result ≡ some_client_calls self.now.calls }
    {
        self.calls.are_some()
    }

    /// What another history would begin with, were this one to end now: what the kept words, which are lent, hold. It
    /// takes all the memory that a rotation takes, and changes nothing: the owner of several cores asks each of them
    /// before any of their histories ends ([`Core::begin_anew`]). It is refused, in this order, where recovery is under
    /// way (NotReady), where a call is (Busy), and for want of memory (NoMemory).
    pub fn prepare_rotation<K: KeptWords>(&self, kept: &K) -> Result<Vec<Value>, Refusal>
        requires { KeptFit self.now.shape (K.kept_words kept.now) }
        ensures base { IfOk result (λ base. base.items ≡ content_by self.now.shape (K.kept_words kept.now)) }
        ensures quiet { (ws : Words) → OnOk result (rotate_result false (state_of self.now ws) ≡ Ok tt) }
        ensures errors { (ws : Words) → IfErr result (λ e. rotate_result true (state_of self.now ws) ≡ Err e) }
    {
        if self.is_down() {
            return Err(Refusal::NotReady);
        }
        if self.calls.are_some() {
            return Err(Refusal::Busy);
        }
        self.content(kept)
    }

    /// The history ends, and another begins: its base is what the kept words, which are lent, hold and tell. What they
    /// hold was asked of [`Core::prepare_rotation`], and no act came between. Words and floors of numbers stay. It
    /// takes no memory, and is not refused.
    pub fn begin_anew<K: KeptWords>(&mut self, kept: &K, base: Vec<Value>)
        requires sound { AreSoundWords self.old.shape (K.kept_words kept.now) }
        requires quiet { (ws : Words) → rotate_result false (state_of self.old ws) ≡ Ok tt }
        requires base { base.items ≡ content_by self.old.shape (K.kept_words kept.now) }
        ensures world { BeginsAnew (K.kept_words kept.now) self.old self.new }
        ensures room { self.old.trace.room ≤ self.new.trace.room }
        ensures holds { HoldsAnew (K.kept_words kept.now) self.old self.new }
    {
        let told = self.tells(kept);
        self.queue.tell(copied(&told));
        self.trace.begin_anew(base, told);
    }

    /// The history ends, and another begins: its base is what the kept words, which are lent, hold and tell. Words and
    /// floors of numbers stay. It is refused, in this order, where recovery is under way (NotReady), where a call is
    /// (Busy), and for want of memory (NoMemory), and then nothing changed.
    pub fn rotate<K: KeptWords>(&mut self, kept: &K) -> Result<(), Refusal>
        requires fit { KeptFit self.old.shape (K.kept_words kept.now) }
        requires sound { AreSoundWords self.old.shape (K.kept_words kept.now) }
        ensures world { IsLeftByRotate (is_no_memory result) (K.kept_words kept.now) self.old self.new }
        ensures result { (ws : Words) → result ≡ rotate_result (is_no_memory result) (state_of self.old ws) }
        ensures room { self.old.trace.room ≤ self.new.trace.room }
    {
        let base = self.prepare_rotation(kept)?;
        self.begin_anew(kept, base);
        Ok(())
    }
}
