//! A call under way, by the point where it waits.

ghost use Rattle.std.specs.Prelude.{◌≡◌};
ghost use Rattle.stepper.specs.declared.resume.After.TheVariants.{More};
ghost use Rattle.helping.specs.Table.{first_of, begun_at, prepared_op};
ghost use Rattle.helping.specs.Looks.{is_look, found_no_node};

use crate::dequeue::{
    DequeueCheckHead, DequeueClaim, DequeueHelpTail, DequeueLoadHead, DequeueLoadItem,
    DequeueLoadNext, DequeueLoadTail, DequeueMoveHead, DequeueStoreEmpty, DequeueStoreResult,
};
use crate::enqueue::{
    EnqueueCheckTail, EnqueueHelpTail, EnqueueLink, EnqueueLoadNext, EnqueueLoadTail,
    EnqueueMoveTail,
};
use crate::keeping::Keeping;
use arena::Layout;
use persist::WordMemory;
use stepper::{
    After, Begun, Points, Prepare, PrepareFence, PrepareFlush, PrepareStore, Prepared, Resume,
    Stepped,
};
use words::{Call, Kind, NodeId, Reply};

/// A call under way, by the point where it waits.
#[derive(Clone, Copy)]
pub enum Op {
    PrepareStore(PrepareStore),
    PrepareFlush(PrepareFlush),
    PrepareFence(PrepareFence),
    EnqueueLoadTail(EnqueueLoadTail),
    EnqueueLoadNext(EnqueueLoadNext),
    EnqueueCheckTail(EnqueueCheckTail),
    EnqueueLink(EnqueueLink),
    EnqueueMoveTail(EnqueueMoveTail),
    EnqueueHelpTail(EnqueueHelpTail),
    DequeueLoadHead(DequeueLoadHead),
    DequeueLoadTail(DequeueLoadTail),
    DequeueLoadNext(DequeueLoadNext),
    DequeueCheckHead(DequeueCheckHead),
    DequeueStoreEmpty(DequeueStoreEmpty),
    DequeueHelpTail(DequeueHelpTail),
    DequeueLoadItem(DequeueLoadItem),
    DequeueClaim(DequeueClaim),
    DequeueStoreResult(DequeueStoreResult),
    DequeueMoveHead(DequeueMoveHead),
    /// About to ask that a word be kept.
    Flush(Keeping),
    /// About to keep it.
    Fence(Keeping),
}

impl Op {
    /// Where a call begins that took its record.
    pub fn begin(kind: Kind, begun: Begun) -> Self
        ensures { result ≡ begun_at kind begun }
    {
        Op::prepared(Prepare::begin(kind, begun))
    }

    /// Whether the next step of this dequeue looks for the node after the head.
    pub fn looks(&self) -> bool
        ensures { result ≡ is_look self.now }
    {
        matches!(self, Op::DequeueLoadNext(_))
    }

    /// Whether this dequeue found no node there.
    pub fn found_no_node(&self) -> bool
        ensures { result ≡ found_no_node self.now }
    {
        match self {
            Op::DequeueCheckHead(point) => point.next.0 == 0,
            _ => false,
        }
    }

    /// Where a call acts, once its record is prepared.
    fn first(begun: Begun) -> Self
        ensures { result ≡ first_of begun }
    {
        match begun.call {
            Call::Enq(_) => Op::EnqueueLoadTail(EnqueueLoadTail {
                node: NodeId(begun.token.0),
            }),
            Call::Deq => Op::DequeueLoadHead(DequeueLoadHead { token: begun.token }),
        }
    }

    /// Where the call of a preparation waits.
    fn prepared(after: After<Prepare, Prepared>) -> Self
        ensures { result ≡ prepared_op after }
    {
        match after {
            After::More(Prepare::Store(point)) => Op::PrepareStore(point),
            After::More(Prepare::Flush(point)) => Op::PrepareFlush(point),
            After::More(Prepare::Fence(point)) => Op::PrepareFence(point),
            After::Done(begun) => Op::first(begun),
        }
    }
}

/// The same, after a step of the preparation.
fn go_on(stepped: Stepped<Prepare, Prepared>) -> Stepped<Op, Reply>
    ensures after { result.after ≡ More (prepared_op stepped.after) }
    ensures change { result.change ≡ stepped.change }
{
    Stepped {
        after: After::More(Op::prepared(stepped.after)),
        change: stepped.change,
    }
}

impl Points for Op {
    type Answer = Reply;

    ghost use Rattle.helping.specs.Table.{access_of, successor, IsPoint};

    ghost access = { access_of };

    ghost successor = { λ s. successor s.kind };

    ghost in_range = { IsPoint };
}

impl Resume for Op {
    type Point = Op;

    ghost point = { λ op. op };

    fn step<M: WordMemory>(self, layout: &Layout, memory: &mut M) -> Stepped<Op, Reply> {
        match self {
            Op::PrepareStore(point) => go_on(point.step(layout, memory)),
            Op::PrepareFlush(point) => go_on(point.step(layout, memory)),
            Op::PrepareFence(point) => go_on(point.step(layout, memory)),
            Op::EnqueueLoadTail(point) => point.step(layout, memory),
            Op::EnqueueLoadNext(point) => point.step(layout, memory),
            Op::EnqueueCheckTail(point) => point.step(layout, memory),
            Op::EnqueueLink(point) => point.step(layout, memory),
            Op::EnqueueMoveTail(point) => point.step(layout, memory),
            Op::EnqueueHelpTail(point) => point.step(layout, memory),
            Op::DequeueLoadHead(point) => point.step(layout, memory),
            Op::DequeueLoadTail(point) => point.step(layout, memory),
            Op::DequeueLoadNext(point) => point.step(layout, memory),
            Op::DequeueCheckHead(point) => point.step(layout, memory),
            Op::DequeueStoreEmpty(point) => point.step(layout, memory),
            Op::DequeueHelpTail(point) => point.step(layout, memory),
            Op::DequeueLoadItem(point) => point.step(layout, memory),
            Op::DequeueClaim(point) => point.step(layout, memory),
            Op::DequeueStoreResult(point) => point.step(layout, memory),
            Op::DequeueMoveHead(point) => point.step(layout, memory),
            Op::Flush(keeping) => keeping.ask(layout, memory),
            Op::Fence(keeping) => keeping.complete(layout, memory),
        }
    }
}
