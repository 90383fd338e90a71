//! A memory of the process's own, which simulates a non-volatile one.

ghost use Rattle.std.specs.Prelude.{ℕ, ◌≡◌, ◌↔◌, ◌⊎◌, ◌+◌, ◌<◌, ◌≤◌, min, vec_len, length, replicate, take, drop, None, Ok, Err, IfOk, IfErr, IfSome, slice_index, slice_index_or, slice_set};
ghost use Rattle.std.specs.Borrow.{sem, RestsIfErr};
ghost use Rattle.persist.specs.Memory.{asked_through, lent_part, lent_whole, words_after_access, words_after_store, words_after_eviction, words_after_crash, words_in, overwritten, zero_words, words_at_rest, IsUnasked, IsNoPart};
ghost use Rattle.persist.specs.contracts.memory.Memory.{the_row};
ghost use Rattle.persist.specs.ChangeList.{IsEntryOf, IsGapFor};
ghost use Rattle.persist.specs.Changes.{change_of, differences};
ghost use Rattle.persist.specs.Completed.{completed_request, completed_result, completed_words};
ghost use Rattle.persist.specs.Lent.{port_lent, port_words, window_lent, window_words, view_words};

use crate::access::{Change, EvictableWords, KeptWords, Swap, WordMemory};
use crate::changes::ChangeList;
use crate::port::Port;
use crate::window::{View, Window};
use std::alloc::{AllocError, Global};
use std::marker::Model;
use words::Refusal;

/// The most words of one memory.
pub const MAX_WORDS: usize = 8_388_608;

/// How many ports a memory has. They are numbered from 0.
pub const PORTS: usize = 137;

/// The port through which a memory itself acts.
const OWN_PORT: usize = 0;

/// Words that a crash of the whole system sets back to what is kept, and ports through which flushes are asked for and
/// completed, as in the model of Izraelevitz, Mendes and Scott (2016). Of the cached values it has those alone that are
/// not the kept ones, in a list.
///
/// A port is of one client. It asks for one word at most, and the next fence through it keeps that word. What others do
/// through their ports leaves its request, and so does an eviction; a crash drops it. What is done to the memory itself
/// goes through port 0.
#[derive(Drop)]
pub struct Memory {
    kept: Vec<u64>,
    changes: ChangeList,
    accesses: u64,
    requests: [Option<usize>; PORTS],
}

impl Model for Memory {
    ghost use Rattle.persist.specs.Memory.{MemoryState};
    ghost use Rattle.persist.specs.ChangeList.{overlaid};
    ghost use Rattle.persist.specs.Changes.{IsWhole};

    ghost Value = { MemoryState };

    ghost view = { λ m. record {
      words = record {
        cached = overlaid m.kept.items m.changes.entries;
        kept = m.kept.items;
        accesses = m.accesses;
      };
      asked = m.requests;
    } };

    ghost invariant = { λ m. IsWhole m.kept.items m.changes m.requests };
}

/// Counts an access. The count stays at its greatest value.
fn count(accesses: &mut u64)
    ensures { accesses.new ≡ min (accesses.old + 1) 18446744073709551615 }
{
    if *accesses < u64::MAX {
        *accesses += 1;
    }
}

/// No port has a request.
fn no_requests() -> [Option<usize>; PORTS]
    ensures none { (port : ℕ) → slice_index_or result port None ≡ None }
    ensures ports { length result ≡ PORTS }
{
    [None; PORTS]
}

/// Drops all these requests.
fn forget(requests: &mut [Option<usize>])
    ensures none { (port : ℕ) → slice_index_or requests.new port None ≡ None }
{
    requests.fill(None);
}

/// Makes all these words zero.
fn set_to_zero(words: &mut [u64])
    ensures { words.new ≡ replicate (length words.old) 0 }
{
    words.fill(0);
}

/// Writes the other words over these, from this one on.
fn write_over<W: KeptWords>(kept: &mut [u64], from: usize, words: &W)
    requires { from + length (W.kept_words words.now) ≤ length kept.old }
    ensures { kept.new ≡ overwritten from (W.kept_words words.now) kept.old }
{
    for word in 0..words.size() {
        kept[from + word] = words.kept(word);
    }
}

impl Memory {
    /// A memory of `n` words, all zero, cached and kept. It is refused where `n` is 0 or above [`MAX_WORDS`]
    /// (BadCount), and where memory is refused (NoMemory). It has room for a change of each word, and no port asks for
    /// any.
    pub fn new(alloc: Global, n: usize) -> Result<Self, Refusal>
        ensures bad_count { result ≡ Err Refusal.BadCount ↔ (n ≡ 0) ⊎ (MAX_WORDS < n) }
        ensures errors { IfErr result (λ e. (e ≡ Refusal.BadCount) ⊎ (e ≡ Refusal.NoMemory)) }
        ensures made { IfOk result (λ m. m.words ≡ zero_words n) }
        ensures unasked { IfOk result IsUnasked }
    {
        if n == 0 || n > MAX_WORDS {
            return Err(Refusal::BadCount);
        }
        let Ok(kept) = vec![in alloc; 0u64; n] else {
            return Err(Refusal::NoMemory);
        };
        let Ok(changes) = ChangeList::new(alloc, n) else {
            return Err(Refusal::NoMemory);
        };
        Ok(Memory {
            kept,
            changes,
            accesses: 0,
            requests: no_requests(),
        })
    }

    /// A memory of these words, each cached and kept, with room for a change of each word, and no port asks for any. It
    /// is refused where there is no word, or more than [`MAX_WORDS`] (BadCount), and where memory is refused (NoMemory).
    pub fn of(alloc: Global, words: Vec<u64>) -> Result<Self, Refusal>
        ensures bad_count { result ≡ Err Refusal.BadCount ↔ (vec_len words ≡ 0) ⊎ (MAX_WORDS < vec_len words) }
        ensures errors { IfErr result (λ e. (e ≡ Refusal.BadCount) ⊎ (e ≡ Refusal.NoMemory)) }
        ensures made { IfOk result (λ m. m.words ≡ words_at_rest words.items) }
        ensures unasked { IfOk result IsUnasked }
    {
        if words.is_empty() || words.len() > MAX_WORDS {
            return Err(Refusal::BadCount);
        }
        let Ok(changes) = ChangeList::new(alloc, words.len()) else {
            return Err(Refusal::NoMemory);
        };
        Ok(Memory {
            kept: words,
            changes,
            accesses: 0,
            requests: no_requests(),
        })
    }

    /// The kept value of each word.
    pub(crate) fn kept_words(&self) -> &[u64]
        ensures kept { result.now ≡ self.now.words.kept }
        ensures some { 0 < length result.now }
        ensures few { length result.now ≤ MAX_WORDS }
    {
        &self.kept
    }

    /// The allocator that it was made with.
    pub(crate) fn allocator(&self) -> Global {
        *self.kept.allocator()
    }

    /// The words whose cached value is not the kept one, ascending, each with its cached value.
    pub fn changes(&self) -> &[(u64, u64)]
        ensures { result.now ≡ differences self.now.words.cached self.now.words.kept }
    {
        self.changes.entries()
    }

    /// How many words have a cached value that is not the kept one.
    pub fn changed(&self) -> usize
        ensures { result ≡ length (differences self.now.words.cached self.now.words.kept) }
    {
        self.changes.len()
    }

    /// How many loads, stores, swaps, flushes and fences were not refused. A swap counts that found another value, and
    /// a fence without a request. The count stays at its greatest value.
    pub fn accesses(&self) -> u64
        ensures { result ≡ self.now.words.accesses }
    {
        self.accesses
    }

    /// Lends the memory through a port, whose request stays as it is. It copies nothing, and while it is there nothing
    /// else reaches the memory. It is refused where `port` is not below [`PORTS`] (NoClient).
    pub fn port(&mut self, port: usize) -> Result<Port<'_>, Refusal>
        ensures* rests { sem 𝓛 (RestsIfErr the_row self.entry (λ p. p.memory.ghost_name) result (λ m. m ≡ self.old)) }
        ensures same_memory { IfOk result (λ p. p.memory.ghost_name ≡ self.entry.ghost_name) }
        ensures words { IfOk result (λ p. port_words p ≡ self.old.words) }
        ensures lent { IfOk result (λ p. port_lent p ≡ lent_whole self.entry.ghost_name port self.old) }
        ensures refused { result ≡ Err Refusal.NoClient ↔ PORTS ≤ port }
        ensures errors { IfErr result (λ e. e ≡ Refusal.NoClient) }
    {
        if port >= PORTS {
            return Err(Refusal::NoClient);
        }
        Ok(Port::new(self, port))
    }

    /// Lends a part of the memory through a port, whose request stays as it is: `len` words from the word `from` on,
    /// which the window numbers from 0. It copies nothing, and while it is there nothing else reaches the memory. It is
    /// refused, in this order, where `port` is not below [`PORTS`] (NoClient), and where `len` is 0 or the part is not
    /// inside (NoWord).
    #[tactic(auto, using(crate::proofs::Overlays::length_overlay))]
    pub fn window(&mut self, from: usize, len: usize, port: usize) -> Result<Window<'_>, Refusal>
        ensures* rests { sem 𝓛 (RestsIfErr the_row self.entry (λ w. w.memory.ghost_name) result (λ m. m ≡ self.old)) }
        ensures same_memory { IfOk result (λ w. w.memory.ghost_name ≡ self.entry.ghost_name) }
        ensures words { IfOk result (λ w. window_words w ≡ words_in from len self.old.words) }
        ensures lent { IfOk result (λ w. window_lent w ≡ lent_part self.entry.ghost_name port from len self.old) }
        ensures no_port { result ≡ Err Refusal.NoClient ↔ PORTS ≤ port }
        ensures no_word { result ≡ Err Refusal.NoWord ↔ (port < PORTS) × IsNoPart from len self.old.words }
        ensures errors { IfErr result (λ e. (e ≡ Refusal.NoClient) ⊎ (e ≡ Refusal.NoWord)) }
    {
        let size = self.kept.len();
        if port >= PORTS {
            return Err(Refusal::NoClient);
        }
        if len == 0 || len > size || from > size - len {
            return Err(Refusal::NoWord);
        }
        Ok(Window::new(self, port, from, len))
    }

    /// Lends the kept values of a part of the memory: of `len` words from the word `from` on, numbered from 0. It is
    /// refused where `len` is 0 or the part is not inside (NoWord).
    #[tactic(auto, using(crate::proofs::Overlays::length_overlay))]
    pub fn view(&self, from: usize, len: usize) -> Result<View<'_>, Refusal>
        ensures words { IfOk result (λ v. view_words v ≡ take len (drop from self.now.words.kept)) }
        ensures refused { result ≡ Err Refusal.NoWord ↔ (len ≡ 0) ⊎ (length self.now.words.cached < from + len) }
        ensures errors { IfErr result (λ e. e ≡ Refusal.NoWord) }
    {
        let size = self.kept.len();
        if len == 0 || len > size || from > size - len {
            return Err(Refusal::NoWord);
        }
        Ok(View::new(self, from, len))
    }

    /// Makes it a new memory again, of as many words: all zero, cached and kept, no access counted, and nothing asked
    /// for. It takes no memory.
    pub fn clear(&mut self)
        ensures words { self.new.words ≡ zero_words (length self.old.words.kept) }
        ensures unasked { IsUnasked self.new }
    {
        set_to_zero(&mut self.kept);
        self.changes.clear();
        self.accesses = 0;
        self.requests = no_requests();
    }

    /// Makes it a new memory again: of the words that are kept now, but with these over them, from this one on. Each
    /// word is cached and kept, no access is counted, and nothing is asked for. It takes no memory.
    pub fn rewrite<W: KeptWords>(&mut self, from: usize, words: &W)
        requires { from + length (W.kept_words words.now) ≤ length self.old.words.kept }
        ensures words { self.new.words
            ≡ words_at_rest (overwritten from (W.kept_words words.now) self.old.words.kept) }
        ensures unasked { IsUnasked self.new }
    {
        write_over(&mut self.kept, from, words);
        self.changes.clear();
        self.accesses = 0;
        self.requests = no_requests();
    }

    /// Makes every cached value the kept one, and drops every request. It is no access.
    pub fn crash(&mut self)
        ensures words { self.new.words ≡ words_after_crash self.old.words }
        ensures unasked { IsUnasked self.new }
    {
        self.changes.clear();
        forget(&mut self.requests);
    }

    /// Where the list has a word, or would have it, and the word's cached value.
    #[tactic(auto, using(crate::proofs::Overlays::length_overlay))]
    fn look_up(&self, word: usize) -> (Result<usize, usize>, u64)
        requires { word < length self.now.words.cached }
        ensures found { IfOk result.0 (IsEntryOf (differences self.now.words.cached self.now.words.kept) word) }
        ensures absent { IfErr result.0 (IsGapFor (differences self.now.words.cached self.now.words.kept) word) }
        ensures value { result.1 ≡ slice_index self.now.words.cached word }
    {
        let place = self.changes.search(word as u64);
        let value = match place {
            Ok(at) => self.changes.value(at),
            Err(_) => self.kept[word],
        };
        (place, value)
    }

    /// Makes this the cached value of a word, which the list has at this place, or would have there.
    #[tactic(auto, using(crate::proofs::Overlays::length_overlay))]
    fn set_cached(&mut self, place: Result<usize, usize>, word: usize, value: u64)
        requires inside { word < length self.old.words.cached }
        requires found { IfOk place (IsEntryOf (differences self.old.words.cached self.old.words.kept) word) }
        requires absent { IfErr place (IsGapFor (differences self.old.words.cached self.old.words.kept) word) }
        ensures { self.new ≡ record self.old { words = words_after_store word value self.old.words } }
    {
        if value != self.kept[word] {
            self.changes.set(place, word as u64, value);
            return;
        }
        if let Ok(at) = place {
            self.changes.remove(at);
        }
    }

    /// Makes the kept value of a word its cached one.
    #[tactic(auto, using(crate::proofs::Overlays::length_overlay))]
    fn keep(&mut self, word: usize) -> Option<Change>
        requires { word < length self.old.words.cached }
        ensures kept { self.new ≡ record self.old { words = words_after_eviction word self.old.words } }
        ensures change { result ≡ change_of self.old.words word }
    {
        let Ok(at) = self.changes.search(word as u64) else {
            return None;
        };
        let new = self.changes.remove(at);
        let old = self.kept[word];
        self.kept[word] = new;
        Some(Change { word, old, new })
    }
}

#[tactic(auto, using(crate::proofs::Overlays::length_overlay))]
impl Memory {
    /// What a flush through a port does, where there is such a word.
    pub(crate) fn ask(&mut self, port: usize, word: usize)
        requires port { port < PORTS }
        requires word { word < length self.old.words.cached }
        ensures words { self.new.words ≡ words_after_access self.old.words }
        ensures asked { asked_through self.new port ≡ Some word }
        ensures others { slice_set self.new.asked port None ≡ slice_set self.old.asked port None }
    {
        count(&mut self.accesses);
        self.requests[port] = Some(word);
    }

    /// What a fence through a port does. It answers the change of the word in the memory, and is refused where the
    /// port's request is for a word outside this part (NoWord).
    pub(crate) fn complete(
        &mut self,
        port: usize,
        from: usize,
        len: usize,
    ) -> Result<Option<Change>, Refusal>
        requires port { port < PORTS }
        ensures change { result ≡ completed_result from len (asked_through self.old port) self.old.words }
        ensures words { self.new.words ≡ completed_words from len (asked_through self.old port) self.old.words }
        ensures asked { asked_through self.new port ≡ completed_request from len (asked_through self.old port) }
        ensures others { slice_set self.new.asked port None ≡ slice_set self.old.asked port None }
        ensures within { IfSome (asked_through self.old port) (λ word. word < length self.old.words.cached) }
    {
        let Some(word) = self.requests[port] else {
            count(&mut self.accesses);
            return Ok(None);
        };
        if word < from || word - from >= len {
            return Err(Refusal::NoWord);
        }
        count(&mut self.accesses);
        self.requests[port] = None;
        Ok(self.keep(word))
    }
}

#[tactic(auto, using(crate::proofs::Overlays::length_overlay))]
impl WordMemory for Memory {
    ghost words = { λ m. m.words };

    ghost use Rattle.persist.specs.declared.memory.TheConstants.{OWN_PORT};

    ghost lent = { lent_whole 0 OWN_PORT };

    fn size(&self) -> usize {
        self.kept.len()
    }

    fn load(&mut self, word: usize) -> Result<u64, Refusal> {
        if word >= self.kept.len() {
            return Err(Refusal::NoWord);
        }
        count(&mut self.accesses);
        let (_, value) = self.look_up(word);
        Ok(value)
    }

    fn store(&mut self, word: usize, value: u64) -> Result<(), Refusal> {
        if word >= self.kept.len() {
            return Err(Refusal::NoWord);
        }
        count(&mut self.accesses);
        let (place, _) = self.look_up(word);
        self.set_cached(place, word, value);
        Ok(())
    }

    fn cas(&mut self, word: usize, old: u64, new: u64) -> Result<Swap, Refusal> {
        if word >= self.kept.len() {
            return Err(Refusal::NoWord);
        }
        count(&mut self.accesses);
        let (place, found) = self.look_up(word);
        if found != old {
            return Ok(Swap::Found(found));
        }
        self.set_cached(place, word, new);
        Ok(Swap::Done)
    }

    fn flush(&mut self, word: usize) -> Result<(), Refusal> {
        if word >= self.kept.len() {
            return Err(Refusal::NoWord);
        }
        self.ask(OWN_PORT, word);
        Ok(())
    }

    fn fence(&mut self) -> Result<Option<Change>, Refusal> {
        let size = self.kept.len();
        self.complete(OWN_PORT, 0, size)
    }
}

impl KeptWords for Memory {
    ghost kept_words = { λ m. m.words.kept };

    fn size(&self) -> usize {
        self.kept.len()
    }

    fn kept(&self, word: usize) -> u64 {
        self.kept[word]
    }
}

#[tactic(auto, using(crate::proofs::Overlays::length_overlay))]
impl EvictableWords for Memory {
    ghost use Rattle.std.specs.Prelude.{refl};

    ghost kept_is = { λ m. refl };

    fn evict(&mut self, word: usize) -> Result<Option<Change>, Refusal> {
        if word >= self.kept.len() {
            return Err(Refusal::NoWord);
        }
        Ok(self.keep(word))
    }
}
