//! The words of a queue's block, written anew.

ghost use Rattle.std.specs.Prelude.{◌≡◌, ◌↔◌, ◌⊎◌, ◌≤◌, ◌+◌, ◌*◌, IfOk, IfErr, IsTrue, OnOk, Err};
ghost use Rattle.arena.specs.Limits.{AreCounts};
ghost use Rattle.sound_words.specs.Sound.{AreSoundWords};
ghost use Rattle.renewal.specs.Words.{FitFresh, IsRenewalOf, ItemsFit, words_renewed};

use crate::fresh::fresh_block;
use arena::Layout;
use persist::KeptWords;
use std::alloc::Global;
use words::{MAX_RECORD_NUMBER, Refusal};

/// Whether so many items fit into fresh records.
pub(crate) fn fits(to: &Layout, count: usize) -> bool
    requires { count ≤ MAX_RECORD_NUMBER }
    ensures fits { IsTrue result ↔ FitFresh to.now count }
    ensures counts { AreCounts to.now.clients to.now.records }
{
    let (clients, records) = (to.clients() as usize, to.records() as usize);
    count + 2 * clients <= clients * records
}

/// The words of [`fresh_block`], in a vector. It is refused as that is.
pub fn renewed_block<W: KeptWords>(
    alloc: Global,
    layout: &Layout,
    block: &W,
    to: &Layout,
) -> Result<Vec<u64>, Refusal>
    requires sound { AreSoundWords layout.now (W.kept_words block.now) }
    requires kind { to.now.kind ≡ layout.now.kind }
    requires clients { layout.now.clients ≤ to.now.clients }
    ensures renewed { IfOk result (λ words. words.items
        ≡ words_renewed to.now layout.now (W.kept_words block.now)) }
    ensures same { IfOk result (λ words. IsRenewalOf layout.now (W.kept_words block.now) to.now words.items) }
    ensures room { OnOk result (ItemsFit to.now layout.now (W.kept_words block.now)) }
    ensures no_room { result ≡ Err Refusal.NoRoom
        ↔ ¬ ItemsFit to.now layout.now (W.kept_words block.now) }
    ensures errors { IfErr result (λ e. (e ≡ Refusal.NoRoom) ⊎ (e ≡ Refusal.NoMemory)) }
{
    let fresh = fresh_block(alloc, layout, block, to)?;
    match fresh.words(alloc) {
        Ok(words) => Ok(words),
        Err(_) => Err(Refusal::NoMemory),
    }
}
