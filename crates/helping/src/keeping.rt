//! What a call keeps on its way, by a flush and a fence: which word, and what comes once that is kept. Helpers keep the
//! same words, so each of these may be kept before the call comes to it. The `//` at each says what goes wrong without
//! its fence, with the must-fail edit that shows it.

ghost use Rattle.std.specs.Prelude.{◌≡◌, ◌≤◌, length, None};
ghost use Rattle.arena.specs.Layout.{size_of};
ghost use Rattle.arena.specs.Place.{IsPlace};
ghost use Rattle.stepper.specs.Step.{after_one, change_by, lent_after_one, IsAskedFor};
ghost use Rattle.stepper.specs.declared.resume.After.TheVariants.{More};
ghost use Rattle.helping.specs.Table.{IsKeeping, after_keeping, fence_of, flush_of, kept_place};
ghost use Rattle.helping.specs.declared.op.Op.TheVariants.{Fence as FencePoint};

use crate::Op;
use crate::dequeue::{Claimed, DequeueHelpTail, DequeueMoveHead, DequeueStoreResult};
use crate::enqueue::{EnqueueHelpTail, EnqueueMoveTail};
use arena::{Layout, Place};
use persist::WordMemory;
use stepper::{After, Stepped, fence_at, flush_at};
use words::{NodeId, Reply, Token};

/// What a call is about to keep.
#[derive(Clone, Copy)]
pub enum Keeping {
    // A crash would lose a link that is not kept, and with it a node whose enqueue was answered
    // (`answers_before_the_link_is_kept`).
    Link(KeepLink),
    // Behind a link that is not kept this enqueue's own node would be lost with it, though its own link was kept
    // (`enqueue_passes_an_unkept_link`).
    PassedLink(KeepPassedLink),
    // A crash would lose an answer that is not kept, and the client would be told that its answered call was not taken
    // (`answers_before_the_empty_answer_is_kept`).
    Empty(KeepEmpty),
    // A claimed node behind a link that is not kept would be lost in a crash, with the dequeue that was answered with
    // it (`tail_passes_an_unkept_link`).
    DequeuePassedLink(KeepDequeuePassedLink),
    // A crash would lose a claim that is not kept, and the item would come out twice
    // (`answers_before_the_claim_is_kept`).
    Claim(KeepClaim),
    // The head passes no node whose result is not kept: a crash would leave its claimer without an answer
    // (`result_is_not_kept`).
    Result(KeepResult),
}

/// The link to an enqueue's own node: the enqueue takes effect, if no other fence or eviction kept it before.
#[derive(Clone, Copy)]
pub struct KeepLink {
    pub(crate) node: NodeId,
    pub(crate) last: NodeId,
}

/// Another's link, which the tail has to pass for an enqueue.
#[derive(Clone, Copy)]
pub struct KeepPassedLink {
    pub(crate) node: NodeId,
    pub(crate) last: NodeId,
    pub(crate) next: NodeId,
}

/// The answer that the queue is empty.
#[derive(Clone, Copy)]
pub struct KeepEmpty {
    pub(crate) token: Token,
}

/// An enqueuer's link, which the tail has to pass for a dequeue.
#[derive(Clone, Copy)]
pub struct KeepDequeuePassedLink {
    pub(crate) token: Token,
    pub(crate) last: NodeId,
    pub(crate) next: NodeId,
}

/// The claim, the call's own or another's: the winner's dequeue takes effect, if no other fence or eviction kept it
/// before.
#[derive(Clone, Copy)]
pub struct KeepClaim {
    pub(crate) claimed: Claimed,
}

/// What the winner got.
#[derive(Clone, Copy)]
pub struct KeepResult {
    pub(crate) claimed: Claimed,
}

impl Keeping {
    /// The place whose word is kept.
    #[inline(always)]
    fn place(&self, layout: &Layout) -> Place
        requires point { IsKeeping layout.now self.now }
        ensures kept { result ≡ kept_place layout.now.kind self.now }
        ensures place { IsPlace layout.now result }
    {
        match self {
            Keeping::Link(KeepLink { last, .. })
            | Keeping::PassedLink(KeepPassedLink { last, .. })
            | Keeping::DequeuePassedLink(KeepDequeuePassedLink { last, .. }) => Place::Next(*last),
            Keeping::Empty(KeepEmpty { token }) => layout.empty_answer(*token).place,
            Keeping::Claim(KeepClaim { claimed }) => Place::Mark(claimed.next),
            Keeping::Result(KeepResult { claimed }) => claimed.result(layout).place,
        }
    }

    /// What comes once it is kept.
    #[inline(always)]
    fn next(self) -> After<Op, Reply>
        ensures { result ≡ after_keeping self }
    {
        After::More(match self {
            Keeping::Link(KeepLink { node, last }) => {
                Op::EnqueueMoveTail(EnqueueMoveTail { node, last })
            }
            Keeping::PassedLink(KeepPassedLink { node, last, next }) => {
                Op::EnqueueHelpTail(EnqueueHelpTail { node, last, next })
            }
            Keeping::Empty(_) => return After::Done(Reply::Empty),
            Keeping::DequeuePassedLink(KeepDequeuePassedLink { token, last, next }) => {
                Op::DequeueHelpTail(DequeueHelpTail { token, last, next })
            }
            Keeping::Claim(KeepClaim { claimed }) => {
                Op::DequeueStoreResult(DequeueStoreResult { claimed })
            }
            Keeping::Result(KeepResult { claimed }) => {
                Op::DequeueMoveHead(DequeueMoveHead { claimed })
            }
        })
    }

    /// Asks that the word be kept. What waits then is the fence.
    #[inline(always)]
    pub(crate) fn ask<M: WordMemory>(self, layout: &Layout, memory: &mut M) -> Stepped<Op, Reply>
        requires room { size_of layout.now ≤ length (M.words memory.old).cached }
        requires point { IsKeeping layout.now self }
        ensures one_access { M.words memory.new ≡ after_one layout.now (flush_of layout.now self) (M.words memory.old) }
        ensures lent { M.lent memory.new ≡ lent_after_one layout.now (flush_of layout.now self) (M.lent memory.old) }
        ensures next { result.after ≡ More (FencePoint self) }
        ensures change { result.change ≡ None }
    {
        flush_at(layout, memory, self.place(layout));
        Stepped::quiet(After::More(Op::Fence(self)))
    }

    /// Keeps the word, which was asked for.
    #[inline(always)]
    pub(crate) fn complete<M: WordMemory>(
        self,
        layout: &Layout,
        memory: &mut M,
    ) -> Stepped<Op, Reply>
        requires point { IsKeeping layout.now self }
        requires asked { IsAskedFor layout.now (fence_of layout.now self) (M.lent memory.old).request }
        ensures one_access { M.words memory.new ≡ after_one layout.now (fence_of layout.now self) (M.words memory.old) }
        ensures lent { M.lent memory.new ≡ lent_after_one layout.now (fence_of layout.now self) (M.lent memory.old) }
        ensures next { result.after ≡ after_keeping self }
        ensures change { result.change ≡ change_by layout.now (fence_of layout.now self) (M.words memory.old) }
    {
        let change = fence_at(layout, memory, self.place(layout));
        Stepped {
            after: self.next(),
            change,
        }
    }
}
