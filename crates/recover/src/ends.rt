//! Recovery of the list: it finds the last claimed node and the last node, writes what is missing of the
//! answers of claimed nodes, and keeps head and tail. The `//` at a point says what goes wrong without it, with the
//! must-fail edit that shows it; what is kept on the way stands in `keeping`.

ghost use Rattle.std.specs.Prelude.{◌≡◌};
ghost use Rattle.recover.specs.Table.{point_at_the_end, point_past_status};

use crate::keeping::{KeepHead, KeepResult, KeepStatus, KeepTail, RecoveryKeeping};
use crate::point::{RecoveryPoint, Report};
use arena::{Layout, Place, TAKEN_STATUS, Write};
use persist::WordMemory;
use stepper::{After, Resume, Stepped, load_at, store_at};
use words::{Kind, NodeId, Token};

/// Where recovery goes on past the last node.
fn at_the_end(cur: NodeId, moved: bool) -> RecoveryPoint
    ensures { result ≡ point_at_the_end cur moved }
{
    if moved {
        RecoveryPoint::RecoveryStoreTail(RecoveryStoreTail { cur })
    } else {
        RecoveryPoint::RecoveryStoreHead(RecoveryStoreHead {
            cur,
            unclaimed: None,
        })
    }
}

/// Where recovery goes on with a node whose enqueue is told of: no node past an unclaimed one is claimed.
pub(crate) fn past_status(cur: NodeId, node: NodeId, moved: bool) -> RecoveryPoint
    ensures { result ≡ point_past_status cur node moved }
{
    if moved {
        RecoveryPoint::RecoveryLoadNext(RecoveryLoadNext { cur: node, moved })
    } else {
        RecoveryPoint::RecoveryLoadMark(RecoveryLoadMark { cur, node })
    }
}

/// About to load the head, from which recovery walks.
#[derive(Clone, Copy)]
pub struct RecoveryLoadHead {}

// Nodes before the kept head are answered already: from node 0 the walk would be as long as the queue is old.
impl Resume for RecoveryLoadHead {
    type Point = RecoveryPoint;

    ghost use Rattle.recover.specs.declared.point.RecoveryPoint.TheVariants.{RecoveryLoadHead};

    ghost point = { RecoveryLoadHead };

    fn step<M: WordMemory>(
        self,
        layout: &Layout,
        memory: &mut M,
    ) -> Stepped<RecoveryPoint, Report> {
        let cur = NodeId(load_at(layout, memory, Place::Head) as u32);
        Stepped::quiet(After::More(RecoveryPoint::RecoveryLoadNext(RecoveryLoadNext {
            cur,
            moved: false,
        })))
    }
}

/// About to load the link of the node that it has come to. `moved` says whether the head is right already.
#[derive(Clone, Copy)]
pub struct RecoveryLoadNext {
    pub(crate) cur: NodeId,
    pub(crate) moved: bool,
}

// The kept head may be behind the last claimed node: recovery that trusts it loses verdicts and gives an item out twice
// (`recovery_trusts_the_kept_head`).
impl Resume for RecoveryLoadNext {
    type Point = RecoveryPoint;

    ghost use Rattle.recover.specs.declared.point.RecoveryPoint.TheVariants.{RecoveryLoadNext};

    ghost point = { RecoveryLoadNext };

    fn step<M: WordMemory>(
        self,
        layout: &Layout,
        memory: &mut M,
    ) -> Stepped<RecoveryPoint, Report> {
        let RecoveryLoadNext { cur, moved } = self;
        let node = NodeId(load_at(layout, memory, Place::Next(cur)) as u32);
        Stepped::quiet(After::More(if node.0 == 0 {
            at_the_end(cur, moved)
        } else {
            match layout.kind() {
                Kind::Durable => past_status(cur, node, moved),
                Kind::Log => RecoveryPoint::RecoveryLoadInsert(RecoveryLoadInsert {
                    cur,
                    node,
                    moved,
                }),
            }
        }))
    }
}

/// Log queue: about to load the entry that inserted the node.
#[derive(Clone, Copy)]
pub struct RecoveryLoadInsert {
    pub(crate) cur: NodeId,
    pub(crate) node: NodeId,
    pub(crate) moved: bool,
}

// The entry and not the node says what its client is told; past the head too (`recovery_skips_statuses_past_the_head`).
impl Resume for RecoveryLoadInsert {
    type Point = RecoveryPoint;

    ghost use Rattle.recover.specs.declared.point.RecoveryPoint.TheVariants.{RecoveryLoadInsert};

    ghost point = { RecoveryLoadInsert };

    fn step<M: WordMemory>(
        self,
        layout: &Layout,
        memory: &mut M,
    ) -> Stepped<RecoveryPoint, Report> {
        let RecoveryLoadInsert { cur, node, moved } = self;
        let entry = Token(load_at(layout, memory, Place::Insert(node)) as u32);
        Stepped::quiet(After::More(RecoveryPoint::RecoveryStoreStatus(RecoveryStoreStatus {
            cur,
            node,
            entry,
            moved,
        })))
    }
}

/// Log queue: about to say that the enqueue took effect.
#[derive(Clone, Copy)]
pub struct RecoveryStoreStatus {
    pub(crate) cur: NodeId,
    pub(crate) node: NodeId,
    pub(crate) entry: Token,
    pub(crate) moved: bool,
}

// An enqueue whose link is kept and whose node nobody claimed has no other word that tells of it.
impl Resume for RecoveryStoreStatus {
    type Point = RecoveryPoint;

    ghost use Rattle.recover.specs.declared.point.RecoveryPoint.TheVariants.{RecoveryStoreStatus};

    ghost point = { RecoveryStoreStatus };

    fn step<M: WordMemory>(
        self,
        layout: &Layout,
        memory: &mut M,
    ) -> Stepped<RecoveryPoint, Report> {
        let RecoveryStoreStatus {
            cur,
            node,
            entry,
            moved,
        } = self;
        let status = Write {
            place: Place::Status(entry),
            value: TAKEN_STATUS,
        };
        store_at(layout, memory, status);
        Stepped::quiet(After::More(RecoveryPoint::Flush(RecoveryKeeping::Status(KeepStatus {
            cur,
            node,
            entry,
            moved,
        }))))
    }
}

/// About to see whether the node is claimed.
#[derive(Clone, Copy)]
pub struct RecoveryLoadMark {
    pub(crate) cur: NodeId,
    pub(crate) node: NodeId,
}

// Claimed nodes come first, so the first node without a claim is where the head stops.
impl Resume for RecoveryLoadMark {
    type Point = RecoveryPoint;

    ghost use Rattle.recover.specs.declared.point.RecoveryPoint.TheVariants.{RecoveryLoadMark};

    ghost point = { RecoveryLoadMark };

    fn step<M: WordMemory>(
        self,
        layout: &Layout,
        memory: &mut M,
    ) -> Stepped<RecoveryPoint, Report> {
        let RecoveryLoadMark { cur, node } = self;
        let mark = Token(load_at(layout, memory, Place::Mark(node)) as u32);
        Stepped::quiet(After::More(if mark.0 == 0 {
            RecoveryPoint::RecoveryStoreHead(RecoveryStoreHead {
                cur,
                unclaimed: Some(node),
            })
        } else {
            RecoveryPoint::RecoveryStoreResult(RecoveryStoreResult { node, mark })
        }))
    }
}

/// About to say what the dequeue that claimed the node got.
#[derive(Clone, Copy)]
pub struct RecoveryStoreResult {
    pub(crate) node: NodeId,
    pub(crate) mark: Token,
}

// Into the record of the claim, not the client's present one: the client may have begun another call since
// (`recovery_answers_in_another_cell`).
impl Resume for RecoveryStoreResult {
    type Point = RecoveryPoint;

    ghost use Rattle.recover.specs.declared.point.RecoveryPoint.TheVariants.{RecoveryStoreResult};

    ghost point = { RecoveryStoreResult };

    fn step<M: WordMemory>(
        self,
        layout: &Layout,
        memory: &mut M,
    ) -> Stepped<RecoveryPoint, Report> {
        let RecoveryStoreResult { node, mark } = self;
        store_at(layout, memory, layout.result(mark, node));
        Stepped::quiet(After::More(RecoveryPoint::Flush(RecoveryKeeping::Result(KeepResult {
            node,
            mark,
        }))))
    }
}

/// About to store the head, at the last claimed node. An unclaimed one may follow.
#[derive(Clone, Copy)]
pub struct RecoveryStoreHead {
    pub(crate) cur: NodeId,
    pub(crate) unclaimed: Option<NodeId>,
}

// A dequeue that found the head far behind would help along claimed nodes one by one, and take more steps than a call
// alone may take (`MAX_STEPS_ALONE` of words).
impl Resume for RecoveryStoreHead {
    type Point = RecoveryPoint;

    ghost use Rattle.recover.specs.declared.point.RecoveryPoint.TheVariants.{RecoveryStoreHead};

    ghost point = { RecoveryStoreHead };

    fn step<M: WordMemory>(
        self,
        layout: &Layout,
        memory: &mut M,
    ) -> Stepped<RecoveryPoint, Report> {
        let RecoveryStoreHead { cur, unclaimed } = self;
        let head = Write {
            place: Place::Head,
            value: cur.0 as u64,
        };
        store_at(layout, memory, head);
        Stepped::quiet(After::More(RecoveryPoint::Flush(RecoveryKeeping::Head(KeepHead {
            cur,
            unclaimed,
        }))))
    }
}

/// About to store the tail, at the last node.
#[derive(Clone, Copy)]
pub struct RecoveryStoreTail {
    pub(crate) cur: NodeId,
}

// The kept tail may be anywhere on the chain: an enqueue would walk from there node by node, and take more steps than a
// call alone may take (`MAX_STEPS_ALONE` of words).
impl Resume for RecoveryStoreTail {
    type Point = RecoveryPoint;

    ghost use Rattle.recover.specs.declared.point.RecoveryPoint.TheVariants.{RecoveryStoreTail};

    ghost point = { RecoveryStoreTail };

    fn step<M: WordMemory>(
        self,
        layout: &Layout,
        memory: &mut M,
    ) -> Stepped<RecoveryPoint, Report> {
        let RecoveryStoreTail { cur } = self;
        let tail = Write {
            place: Place::Tail,
            value: cur.0 as u64,
        };
        store_at(layout, memory, tail);
        Stepped::quiet(After::More(RecoveryPoint::Flush(RecoveryKeeping::Tail(KeepTail {}))))
    }
}
