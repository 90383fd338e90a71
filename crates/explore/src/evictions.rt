//! Which words the environment keeps just before a crash.

ghost use Rattle.std.specs.Prelude.{◌≡◌, IfErr, IfOk, map};
ghost use Rattle.interleave.specs.State.{after_acts};
ghost use Rattle.protocol.specs.declared.acts.Act.TheVariants.{Evict};
ghost use Rattle.std.specs.List.{range_with_len};
ghost use Rattle.rand_pcg.specs.Lcg.{started, increment_of};
ghost use Rattle.rand_pcg.specs.Pcg.{multiplier_64};
ghost use Rattle.explore.specs.Points.{drawn_words, evicted_words, evictions_at};

use interleave::World;
use playing::push;
use rand_core::utils::NextWord;
use rand_pcg::Pcg32;
use std::alloc::Global;
use words::Refusal;

/// Which words are evicted before each crash, from word 0 up.
#[derive(Clone, Copy)]
pub enum Evictions {
    /// No word.
    None,
    /// Every word.
    All,
    /// Those that are drawn: a generator begins at this state, on the stream of the point, and draws 32 bits for each
    /// word. A word is evicted where the lowest of them is 1.
    Drawn { state: u64 },
}

/// The generator of a point.
fn draws_at(state: u64, point: u64) -> Pcg32
    ensures { result ≡ started 64 multiplier_64 state (increment_of 64 point) }
{
    Pcg32::new(state, point)
}

/// Evicts every word.
fn evict_all(world: &mut World, words: usize)
    ensures { world.new.now ≡ after_acts world.old.now (map Evict (range_with_len 0 words)) }
{
    for word in 0..words {
        // These are the words of the layout, so none is refused.
        let _ = world.evict(word);
    }
}

/// Evicts the words that are drawn.
fn evict_drawn(world: &mut World, words: usize, mut draws: Pcg32)
    ensures { world.new.now ≡ after_acts world.old.now (map Evict (drawn_words words 0 draws)) }
{
    for word in 0..words {
        if draws.next_word() % 2 == 1 {
            let _ = world.evict(word);
        }
    }
}

/// Evicts what is to be evicted before the crash at a point.
pub(crate) fn evict_words(world: &mut World, evictions: Evictions, point: u64)
    ensures { world.new.now
        ≡ after_acts world.old.now (evictions_at world.old.now.shape evictions point) }
{
    let words = world.layout().size();
    match evictions {
        Evictions::None => (),
        Evictions::All => evict_all(world, words),
        Evictions::Drawn { state } => evict_drawn(world, words, draws_at(state, point)),
    }
}

/// All of so many words.
fn all_words(alloc: Global, size: usize) -> Result<Vec<usize>, Refusal>
    ensures words { IfOk result (λ words. words.items ≡ range_with_len 0 size) }
    ensures errors { IfErr result (λ e. e ≡ Refusal.NoMemory) }
{
    let mut words = Vec::new(alloc);
    for word in 0..size {
        push(&mut words, word)?;
    }
    Ok(words)
}

/// Those that are drawn: a word is kept where the lowest bit of its draw is 1.
fn drawn_words(alloc: Global, size: usize, mut draws: Pcg32) -> Result<Vec<usize>, Refusal>
    ensures words { IfOk result (λ words. words.items ≡ drawn_words size 0 draws) }
    ensures errors { IfErr result (λ e. e ≡ Refusal.NoMemory) }
{
    let mut words = Vec::new(alloc);
    for word in 0..size {
        if draws.next_word() % 2 == 1 {
            push(&mut words, word)?;
        }
    }
    Ok(words)
}

/// The words that are kept before the crash at a point, of so many, from word 0 up.
pub fn words_kept(
    alloc: Global,
    evictions: Evictions,
    size: usize,
    point: u64,
) -> Result<Vec<usize>, Refusal>
    ensures words { IfOk result (λ words. words.items ≡ evicted_words evictions size point) }
    ensures errors { IfErr result (λ e. e ≡ Refusal.NoMemory) }
{
    match evictions {
        Evictions::None => Ok(Vec::new(alloc)),
        Evictions::All => all_words(alloc, size),
        Evictions::Drawn { state } => drawn_words(alloc, size, draws_at(state, point)),
    }
}
