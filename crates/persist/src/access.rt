//! What a step machine sees of a memory, and what an inspector does.

ghost use Rattle.std.specs.Prelude.{◌≡◌, ◌<◌, length, slice_index, Ok, Err, ℕ, List};
ghost use Rattle.persist.specs.Memory.{Lent, Words, Load, Store, Cas, Flush, after, after_fence, asking, lent_after, request_after_fence, words_after_eviction, HasWord, LacksWord};
ghost use Rattle.persist.specs.Changes.{change_of, fence_result, swap_of};

use words::Refusal;

/// A change of a kept value: of which word, as words are numbered where it is answered, and its value before and after.
#[derive(Clone, Copy, Debug, PartialEq, Eq)]
pub struct Change {
    pub word: usize,
    pub old: u64,
    pub new: u64,
}

/// What an act answers, and the change of a kept value that it made, if it made one.
#[derive(Clone, Copy, Debug, PartialEq, Eq)]
pub struct Noted<T> {
    pub answer: T,
    pub change: Option<Change>,
}

/// What a compare-and-swap answers.
#[derive(Clone, Copy, Debug, PartialEq, Eq)]
pub enum Swap {
    /// The word had the old value, and has the new one.
    Done,
    /// The word had this other value, and keeps it.
    Found(u64),
}

/// Words of 64 bits, each with a cached and a kept value, lent through a port: all that a step machine sees of a
/// memory. They are numbered from 0. A load, a store and a compare-and-swap work on cached values. A flush asks that
/// the word be kept, and a fence keeps it: the two halves of what a processor does to write a line of its cache back.
/// The port has one request at most, and a crash in between drops it.
///
/// Each call but `size` is one access, which the memory counts, unless it is refused. Then nothing changes, and it is
/// none.
pub trait WordMemory {
    ghost words: { Self → Words };

    /// Through which port they are lent, with its request, and what lies around.
    ghost lent: { Self → Lent };

    /// How many words there are.
    fn size(&self) -> usize
        ensures cached { result ≡ length (words self.now).cached }
        ensures kept { result ≡ length (words self.now).kept };

    /// The cached value of a word. It is refused where there is no such word (NoWord).
    fn load(&mut self, word: usize) -> Result<u64, Refusal>
        ensures found { HasWord (words self.old) word → result ≡ Ok (slice_index (words self.old).cached word) }
        ensures done { HasWord (words self.old) word → words self.new ≡ after (Load word) (words self.old) }
        ensures refused { LacksWord (words self.old) word → result ≡ Err Refusal.NoWord }
        ensures same { LacksWord (words self.old) word → words self.new ≡ words self.old }
        ensures lent { lent self.new ≡ lent self.old };

    /// Makes this the cached value of a word. It is refused where there is no such word (NoWord).
    fn store(&mut self, word: usize, value: u64) -> Result<(), Refusal>
        ensures ok { HasWord (words self.old) word → result ≡ Ok tt }
        ensures done { HasWord (words self.old) word
            → words self.new ≡ after (Store word value) (words self.old) }
        ensures refused { LacksWord (words self.old) word → result ≡ Err Refusal.NoWord }
        ensures same { LacksWord (words self.old) word → words self.new ≡ words self.old }
        ensures lent { lent self.new ≡ lent self.old };

    /// Makes `new` the cached value of a word where it is `old`, and answers whether it was. It is refused where there
    /// is no such word (NoWord).
    fn cas(&mut self, word: usize, old: u64, new: u64) -> Result<Swap, Refusal>
        ensures swap { HasWord (words self.old) word → result ≡ Ok (swap_of (words self.old) word old) }
        ensures done { HasWord (words self.old) word
            → words self.new ≡ after (Cas word old new) (words self.old) }
        ensures refused { LacksWord (words self.old) word → result ≡ Err Refusal.NoWord }
        ensures same { LacksWord (words self.old) word → words self.new ≡ words self.old }
        ensures lent { lent self.new ≡ lent self.old };

    /// Asks that the word be kept, in place of an earlier request through this port. No word changes: the next fence
    /// through the port keeps it. It is refused where there is no such word (NoWord), and then an earlier request
    /// stays.
    fn flush(&mut self, word: usize) -> Result<(), Refusal>
        ensures ok { HasWord (words self.old) word → result ≡ Ok tt }
        ensures done { HasWord (words self.old) word → words self.new ≡ after (Flush word) (words self.old) }
        ensures asked { HasWord (words self.old) word
            → lent self.new ≡ lent_after (Flush word) (lent self.old) }
        ensures refused { LacksWord (words self.old) word → result ≡ Err Refusal.NoWord }
        ensures same { LacksWord (words self.old) word → words self.new ≡ words self.old }
        ensures lent { LacksWord (words self.old) word → lent self.new ≡ lent self.old };

    /// Completes the port's request: it keeps the value that the word has cached now, and answers the change, where the
    /// kept value changed. The port has no request then. Without one no word changes, and it is an access all the same.
    /// It is refused where the request is for a word of the memory that is not lent (NoWord), and then the request
    /// stays.
    fn fence(&mut self) -> Result<Option<Change>, Refusal>
        ensures change { result ≡ fence_result (lent self.old).request (words self.old) }
        ensures done { words self.new ≡ after_fence (lent self.old).request (words self.old) }
        ensures lent { lent self.new ≡ asking (request_after_fence (lent self.old).request) (lent self.old) };
}

/// Kept values, for inspection: looking at them is no access.
pub trait KeptWords {
    ghost kept_words: { Self → List ℕ };

    /// How many words there are.
    fn size(&self) -> usize
        ensures { result ≡ length (kept_words self.now) };

    /// The kept value of a word. The caller's condition is that there is such a word.
    fn kept(&self, word: usize) -> u64
        requires { word < length (kept_words self.now) }
        ensures { result ≡ slice_index (kept_words self.now) word };
}

/// Words that the environment may keep at any moment, and whose kept values may be inspected: what an owner of step
/// machines sees of a memory, or of a window on one.
pub trait EvictableWords: WordMemory + KeptWords {
    /// Keeps a word's cached value by the environment's will. It is no access, and leaves every request, also one for
    /// this word. It answers the change, where the kept value changed, and is refused where there is no such word
    /// (NoWord).
    fn evict(&mut self, word: usize) -> Result<Option<Change>, Refusal>
        ensures change { HasWord (Self.words self.old) word
            → result ≡ Ok (change_of (Self.words self.old) word) }
        ensures done { let ws = Self.words self.old in
            HasWord ws word → Self.words self.new ≡ words_after_eviction word ws }
        ensures refused { LacksWord (Self.words self.old) word → result ≡ Err Refusal.NoWord }
        ensures same { LacksWord (Self.words self.old) word → Self.words self.new ≡ Self.words self.old }
        ensures lent { Self.lent self.new ≡ Self.lent self.old };

    /// The kept values for inspection are those of the words.
    ghost kept_is: { (m : Self) → Self.kept_words m ≡ (Self.words m).kept };
}
