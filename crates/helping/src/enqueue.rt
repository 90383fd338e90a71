//! The waiting points of an enqueue, after Michael and Scott (1996): the node is linked behind the last one, the
//! link is kept, and only then the tail moves. Whoever meets a tail that lags keeps the link that it has to pass, and
//! moves it on. The `//` at a point says what goes wrong without it, with the must-fail edit that shows it; what is kept
//! on the way stands in `keeping`.

use crate::Op;
use crate::keeping::{KeepLink, KeepPassedLink, Keeping};
use arena::{Layout, Place, Write};
use persist::{Swap, WordMemory};
use stepper::{After, Resume, Stepped, cas_at, load_at};
use words::{NodeId, Reply};

/// About to load the tail.
#[derive(Clone, Copy)]
pub struct EnqueueLoadTail {
    pub(crate) node: NodeId,
}

// The tail is near the last node, so an enqueue does not walk the list; it may lag, which the next two points see.
impl Resume for EnqueueLoadTail {
    type Point = Op;

    ghost use Rattle.helping.specs.declared.op.Op.TheVariants.{EnqueueLoadTail};

    ghost point = { EnqueueLoadTail };

    fn step<M: WordMemory>(self, layout: &Layout, memory: &mut M) -> Stepped<Op, Reply> {
        let last = NodeId(load_at(layout, memory, Place::Tail) as u32);
        Stepped::quiet(After::More(Op::EnqueueLoadNext(EnqueueLoadNext {
            node: self.node,
            last,
        })))
    }
}

/// About to load the last node's link.
#[derive(Clone, Copy)]
pub struct EnqueueLoadNext {
    pub(crate) node: NodeId,
    pub(crate) last: NodeId,
}

// A node with a link is not the last: without this look an enqueue would wait for whoever linked it to move the tail
// (`waits_for_a_stopped_client`).
impl Resume for EnqueueLoadNext {
    type Point = Op;

    ghost use Rattle.helping.specs.declared.op.Op.TheVariants.{EnqueueLoadNext};

    ghost point = { EnqueueLoadNext };

    fn step<M: WordMemory>(self, layout: &Layout, memory: &mut M) -> Stepped<Op, Reply> {
        let next = NodeId(load_at(layout, memory, Place::Next(self.last)) as u32);
        Stepped::quiet(After::More(Op::EnqueueCheckTail(EnqueueCheckTail {
            node: self.node,
            last: self.last,
            next,
        })))
    }
}

/// About to see whether the tail is still there.
#[derive(Clone, Copy)]
pub struct EnqueueCheckTail {
    pub(crate) node: NodeId,
    pub(crate) last: NodeId,
    pub(crate) next: NodeId,
}

// The tail and the link were read at two moments; where the tail moved between them, what was read is of no one moment
// and the call begins anew (`goes_on_though_the_tail_moved`).
impl Resume for EnqueueCheckTail {
    type Point = Op;

    ghost use Rattle.helping.specs.declared.op.Op.TheVariants.{EnqueueCheckTail};

    ghost point = { EnqueueCheckTail };

    fn step<M: WordMemory>(self, layout: &Layout, memory: &mut M) -> Stepped<Op, Reply> {
        let EnqueueCheckTail { node, last, next } = self;
        let tail = load_at(layout, memory, Place::Tail);
        Stepped::quiet(After::More(if tail != last.0 as u64 {
            Op::EnqueueLoadTail(EnqueueLoadTail { node })
        } else if next.0 == 0 {
            Op::EnqueueLink(EnqueueLink { node, last })
        } else {
            Op::Flush(Keeping::PassedLink(KeepPassedLink { node, last, next }))
        }))
    }
}

/// About to link the node behind the last.
#[derive(Clone, Copy)]
pub struct EnqueueLink {
    pub(crate) node: NodeId,
    pub(crate) last: NodeId,
}

// A swap and not a store: of two enqueues at one node the second would cut off the first one's node, though that may be
// answered already.
impl Resume for EnqueueLink {
    type Point = Op;

    ghost use Rattle.helping.specs.declared.op.Op.TheVariants.{EnqueueLink};

    ghost point = { EnqueueLink };

    fn step<M: WordMemory>(self, layout: &Layout, memory: &mut M) -> Stepped<Op, Reply> {
        let EnqueueLink { node, last } = self;
        let link = Write {
            place: Place::Next(last),
            value: node.0 as u64,
        };
        Stepped::quiet(After::More(match cas_at(layout, memory, 0, link) {
            Swap::Done => Op::Flush(Keeping::Link(KeepLink { node, last })),
            Swap::Found(_) => Op::EnqueueLoadTail(EnqueueLoadTail { node }),
        }))
    }
}

/// About to move the tail to the node. Whether it moves or not, the call is done.
#[derive(Clone, Copy)]
pub struct EnqueueMoveTail {
    pub(crate) node: NodeId,
    pub(crate) last: NodeId,
}

// A swap: where another helped and the tail is further on, a store would move it back (`tail_moves_by_a_store`).
impl Resume for EnqueueMoveTail {
    type Point = Op;

    ghost use Rattle.helping.specs.declared.op.Op.TheVariants.{EnqueueMoveTail};

    ghost point = { EnqueueMoveTail };

    fn step<M: WordMemory>(self, layout: &Layout, memory: &mut M) -> Stepped<Op, Reply> {
        let tail = Write {
            place: Place::Tail,
            value: self.node.0 as u64,
        };
        let _swap = cas_at(layout, memory, self.last.0 as u64, tail);
        Stepped::quiet(After::Done(Reply::Done))
    }
}

/// About to move a lagging tail on.
#[derive(Clone, Copy)]
pub struct EnqueueHelpTail {
    pub(crate) node: NodeId,
    pub(crate) last: NodeId,
    pub(crate) next: NodeId,
}

// Without it an enqueue would wait for the client that lags, which may have stopped (`waits_for_a_stopped_client`).
impl Resume for EnqueueHelpTail {
    type Point = Op;

    ghost use Rattle.helping.specs.declared.op.Op.TheVariants.{EnqueueHelpTail};

    ghost point = { EnqueueHelpTail };

    fn step<M: WordMemory>(self, layout: &Layout, memory: &mut M) -> Stepped<Op, Reply> {
        let EnqueueHelpTail { node, last, next } = self;
        let tail = Write {
            place: Place::Tail,
            value: next.0 as u64,
        };
        let _swap = cas_at(layout, memory, last.0 as u64, tail);
        Stepped::quiet(After::More(Op::EnqueueLoadTail(EnqueueLoadTail { node })))
    }
}
