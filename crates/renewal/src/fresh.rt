//! The words of a queue's block in fresh records, each worked out where it is looked at.

ghost use Rattle.std.specs.Prelude.{◌≡◌, ◌↔◌, ◌⊎◌, ◌≤◌, IfOk, IfErr, OnOk, Err};
ghost use Rattle.sound_words.specs.Sound.{AreSoundWords};
ghost use Rattle.renewal.specs.Words.{AreLinksOf, IsRenewalOf, ItemsFit, MayBeRenewed, block_renewed, word_renewed, words_renewed};

use crate::block::fits;
use crate::content::{content, count};
use crate::renewal::Renewal;
use crate::zeros::is_noted;
use arena::{Layout, block_size};
use persist::KeptWords;
use sound_words::{KeptQueue, tells};
use std::alloc::{AllocError, Global};
use std::marker::Model;
use words::{Refusal, Reports, Value};

/// The words of a queue's block in fresh records. It has what the queue holds and tells, and no word of the block: each
/// is worked out where it is looked at. So it is as small as what the queue holds, of each node what follows it, and a
/// flag for each run of words, which says where the words are 0 since the records there are not used.
#[derive(Drop)]
pub struct FreshBlock {
    layout: Layout,
    content: Vec<Value>,
    tells: Reports,
    links: Vec<u32>,
    zero_runs: Vec<bool>,
}

impl Model for FreshBlock {
    ghost use Rattle.std.specs.Prelude.{List, ℕ};
    ghost use Rattle.renewal.specs.Words.{block_renewed};
    ghost use Rattle.renewal.specs.Zeros.{IsFreshBlock};

    ghost Value = { List ℕ };

    ghost view = { λ b. block_renewed (record {
      shape = b.layout;
      content = b.content.items;
      tells = b.tells;
    }) };

    ghost invariant = { λ b. IsFreshBlock (record {
      shape = b.layout;
      content = b.content.items;
      tells = b.tells;
    }) b.links.items b.zero_runs.items };
}

/// What a word of the block becomes, or 0 past the queue's. Of each node `links` says what follows it on the chain.
fn word_at(renewal: &Renewal<'_>, links: &[u32], word: usize) -> u64
    requires { AreLinksOf renewal.now links.now }
    ensures { result ≡ word_renewed renewal.now word }
{
    match renewal.layout.what_is(word) {
        Some(place) => renewal.word_of(links, place),
        None => 0,
    }
}

impl FreshBlock {
    /// The block of a queue of this layout that holds this and tells this.
    fn new(
        alloc: Global,
        layout: Layout,
        content: Vec<Value>,
        tells: Reports,
    ) -> Result<Self, AllocError>
        requires { MayBeRenewed (record { shape = layout; content = content.items; tells = tells }) }
        ensures { IfOk result (λ b.
            b ≡ block_renewed (record { shape = layout; content = content.items; tells = tells })) }
    {
        let renewal = Renewal {
            layout: &layout,
            content: &content,
            tells: &tells,
        };
        let links = renewal.links(alloc)?;
        let zero_runs = renewal.zero_runs(alloc)?;
        Ok(FreshBlock {
            layout,
            content,
            tells,
            links,
            zero_runs,
        })
    }

    /// All its words.
    pub(crate) fn words(&self, alloc: Global) -> Result<Vec<u64>, AllocError>
        ensures { IfOk result (λ words. words.items ≡ self.now) }
    {
        let size = self.size();
        let mut words = Vec::with_capacity(alloc, size)?;
        for word in 0..size {
            words.push(self.kept(word))?;
        }
        Ok(words)
    }
}

impl KeptWords for FreshBlock {
    ghost kept_words = { λ b. b };

    fn size(&self) -> usize {
        block_size(self.layout.clients(), self.layout.records())
    }

    fn kept(&self, word: usize) -> u64 {
        if is_noted(&self.zero_runs, word) {
            return 0;
        }
        let renewal = Renewal {
            layout: &self.layout,
            content: &self.content,
            tells: &self.tells,
        };
        word_at(&renewal, &self.links, word)
    }
}

/// The words of a queue at rest in fresh records, as a broker's block: past the queue's own words it is 0. `block` is
/// the queue's kept words, and `layout` their layout. Whatever calls they leave unfinished, its items stay in their
/// order, and each client is told what it was told. `to` says how many clients there will be, as many as there are or
/// more, and how many records each has. It is refused, in this order, where the items do not fit beside two records of
/// each client (NoRoom), and where memory is refused (NoMemory).
pub fn fresh_block<W: KeptWords>(
    alloc: Global,
    layout: &Layout,
    block: &W,
    to: &Layout,
) -> Result<FreshBlock, Refusal>
    requires sound { AreSoundWords layout.now (W.kept_words block.now) }
    requires kind { to.now.kind ≡ layout.now.kind }
    requires clients { layout.now.clients ≤ to.now.clients }
    ensures renewed { IfOk result (λ fresh. fresh
        ≡ words_renewed to.now layout.now (W.kept_words block.now)) }
    ensures same { IfOk result (λ fresh. IsRenewalOf layout.now (W.kept_words block.now) to.now fresh) }
    ensures room { OnOk result (ItemsFit to.now layout.now (W.kept_words block.now)) }
    ensures no_room { result ≡ Err Refusal.NoRoom
        ↔ ¬ ItemsFit to.now layout.now (W.kept_words block.now) }
    ensures errors { IfErr result (λ e. (e ≡ Refusal.NoRoom) ⊎ (e ≡ Refusal.NoMemory)) }
{
    let queue = KeptQueue::new(layout, block);
    if !fits(to, count(layout, &queue)) {
        return Err(Refusal::NoRoom);
    }
    let Ok(items) = content(alloc, layout, &queue) else {
        return Err(Refusal::NoMemory);
    };
    match FreshBlock::new(alloc, *to, items, tells(layout, block)) {
        Ok(fresh) => Ok(fresh),
        Err(_) => Err(Refusal::NoMemory),
    }
}
