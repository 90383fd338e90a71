//! What recovery keeps on its way, by a flush and a fence: which word, and what comes once that is kept. The `//` at
//! each says what goes wrong without its fence, with the must-fail edit that shows it.

ghost use Rattle.std.specs.Prelude.{◌≡◌, ◌≤◌, length, None};
ghost use Rattle.arena.specs.Layout.{size_of};
ghost use Rattle.arena.specs.Place.{IsPlace};
ghost use Rattle.stepper.specs.Step.{after_one, change_by, lent_after_one, IsAskedFor};
ghost use Rattle.stepper.specs.declared.resume.After.TheVariants.{More};
ghost use Rattle.recover.specs.Table.{IsKeeping, fence_of, flush_of, kept_place, past_head, point_after_keeping};
ghost use Rattle.recover.specs.declared.point.RecoveryPoint.TheVariants.{Fence as FencePoint};

use crate::ends::{RecoveryLoadNext, RecoveryStoreTail, past_status};
use crate::point::{RecoveryPoint, Report};
use crate::telling::RecoveryLoadAnnouncement;
use arena::{Layout, Place};
use persist::WordMemory;
use stepper::{After, Stepped, fence_at, flush_at};
use words::{Client, NodeId, Token};

/// What recovery is about to keep.
#[derive(Clone, Copy)]
pub enum RecoveryKeeping {
    // A status that is not kept is lost where recovery is cut off once the client was told by it
    // (`recovery_does_not_keep_a_status`).
    Status(KeepStatus),
    // The head is about to pass the node: an answer that is not kept would be lost in the next crash
    // (`recovery_does_not_keep_a_result`).
    Result(KeepResult),
    // What recovery leaves is cached and kept alike; the next recovery begins its walk here
    // (`recovery_does_not_keep_the_head`).
    Head(KeepHead),
    // What recovery leaves is cached and kept alike (`recovery_does_not_keep_the_tail`,
    // `recovery_takes_the_tail_for_kept`).
    Tail(KeepTail),
}

/// Log queue: that an enqueue took effect.
#[derive(Clone, Copy)]
pub struct KeepStatus {
    pub(crate) cur: NodeId,
    pub(crate) node: NodeId,
    pub(crate) entry: Token,
    pub(crate) moved: bool,
}

/// What the dequeue that claimed the node got.
#[derive(Clone, Copy)]
pub struct KeepResult {
    pub(crate) node: NodeId,
    pub(crate) mark: Token,
}

/// The head, at the last claimed node. An unclaimed one may follow.
#[derive(Clone, Copy)]
pub struct KeepHead {
    pub(crate) cur: NodeId,
    pub(crate) unclaimed: Option<NodeId>,
}

/// The tail, at the last node.
#[derive(Clone, Copy)]
pub struct KeepTail {}

/// Where recovery goes on past the head: with the unclaimed node behind it, if there is one.
fn past_head(cur: NodeId, unclaimed: Option<NodeId>) -> RecoveryPoint
    ensures { result ≡ past_head cur unclaimed }
{
    match unclaimed {
        Some(node) => RecoveryPoint::RecoveryLoadNext(RecoveryLoadNext {
            cur: node,
            moved: true,
        }),
        None => RecoveryPoint::RecoveryStoreTail(RecoveryStoreTail { cur }),
    }
}

impl RecoveryKeeping {
    /// The place whose word is kept.
    #[inline(always)]
    fn place(&self, layout: &Layout) -> Place
        requires point { IsKeeping layout.now self.now }
        ensures kept { result ≡ kept_place layout.now.kind self.now }
        ensures place { IsPlace layout.now result }
    {
        match self {
            RecoveryKeeping::Status(KeepStatus { entry, .. }) => Place::Status(*entry),
            RecoveryKeeping::Result(KeepResult { node, mark }) => layout.result(*mark, *node).place,
            RecoveryKeeping::Head(_) => Place::Head,
            RecoveryKeeping::Tail(_) => Place::Tail,
        }
    }

    /// What comes once it is kept.
    #[inline(always)]
    fn next(self) -> RecoveryPoint
        ensures { result ≡ point_after_keeping self }
    {
        match self {
            RecoveryKeeping::Status(
                KeepStatus {
                    cur,
                    node,
                    moved,
                    ..
                },
            ) => past_status(cur, node, moved),
            RecoveryKeeping::Result(KeepResult { node, .. }) => {
                RecoveryPoint::RecoveryLoadNext(RecoveryLoadNext {
                    cur: node,
                    moved: false,
                })
            }
            RecoveryKeeping::Head(KeepHead { cur, unclaimed }) => past_head(cur, unclaimed),
            RecoveryKeeping::Tail(_) => {
                RecoveryPoint::RecoveryLoadAnnouncement(RecoveryLoadAnnouncement {
                    client: Client(0),
                })
            }
        }
    }

    /// Asks that the word be kept. What waits then is the fence.
    #[inline(always)]
    pub(crate) fn ask<M: WordMemory>(
        self,
        layout: &Layout,
        memory: &mut M,
    ) -> Stepped<RecoveryPoint, Report>
        requires room { size_of layout.now ≤ length (M.words memory.old).cached }
        requires point { IsKeeping layout.now self }
        ensures one_access { M.words memory.new ≡ after_one layout.now (flush_of layout.now self) (M.words memory.old) }
        ensures lent { M.lent memory.new ≡ lent_after_one layout.now (flush_of layout.now self) (M.lent memory.old) }
        ensures next { result.after ≡ More (FencePoint self) }
        ensures change { result.change ≡ None }
    {
        flush_at(layout, memory, self.place(layout));
        Stepped::quiet(After::More(RecoveryPoint::Fence(self)))
    }

    /// Keeps the word, which was asked for.
    #[inline(always)]
    pub(crate) fn complete<M: WordMemory>(
        self,
        layout: &Layout,
        memory: &mut M,
    ) -> Stepped<RecoveryPoint, Report>
        requires point { IsKeeping layout.now self }
        requires asked { IsAskedFor layout.now (fence_of layout.now self) (M.lent memory.old).request }
        ensures one_access { M.words memory.new ≡ after_one layout.now (fence_of layout.now self) (M.words memory.old) }
        ensures lent { M.lent memory.new ≡ lent_after_one layout.now (fence_of layout.now self) (M.lent memory.old) }
        ensures next { result.after ≡ More (point_after_keeping self) }
        ensures change { result.change ≡ change_by layout.now (fence_of layout.now self) (M.words memory.old) }
    {
        let change = fence_at(layout, memory, self.place(layout));
        Stepped {
            after: After::More(self.next()),
            change,
        }
    }
}
