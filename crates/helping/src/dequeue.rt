//! The waiting points of a dequeue, after Michael and Scott (1996), with a claim: the node after the
//! sentinel is claimed by a compare-and-swap, the claim is kept, the result is kept, and only then the
//! head moves. Whoever meets a claimed node finishes these steps for the claimer. The `//` at a point says what
//! goes wrong without it, with the must-fail edit that shows it.

ghost use Rattle.std.specs.Prelude.{◌≡◌};
ghost use Rattle.arena.specs.Answers.{result_of};
ghost use Rattle.helping.specs.Claims.{winner};

use crate::Op;
use crate::keeping::{KeepClaim, KeepDequeuePassedLink, KeepEmpty, KeepResult, Keeping};
use arena::{Layout, Place, Write};
use persist::{Swap, WordMemory};
use stepper::{After, Loading, Resume, Stepped, cas_at, load_at, store_at};
use words::{NodeId, Reply, Token, Value};

/// How a claim went.
#[derive(Clone, Copy)]
pub enum Claim {
    Won,
    /// Another dequeue had claimed the node.
    LostTo(Token),
}

impl Claim {
    /// Whose node it is, where this token claimed it.
    pub fn winner(self, token: Token) -> Token
        ensures { result ≡ winner self token }
    {
        match self {
            Claim::Won => token,
            Claim::LostTo(winner) => winner,
        }
    }
}

/// A claim that was made, and the node that it is of.
#[derive(Clone, Copy)]
pub struct Claimed {
    pub(crate) token: Token,
    pub(crate) first: NodeId,
    pub(crate) next: NodeId,
    pub(crate) value: Value,
    pub(crate) claim: Claim,
}

impl Claimed {
    /// Where the winner's result is written, and what.
    pub(crate) fn result(&self, layout: &Layout) -> Write
        ensures { result
            ≡ result_of layout.now.kind (winner self.now.claim self.now.token) self.now.next }
    {
        layout.result(self.claim.winner(self.token), self.next)
    }
}

/// About to load the head.
#[derive(Clone, Copy)]
pub struct DequeueLoadHead {
    pub(crate) token: Token,
}

// The head is the sentinel, or the last claimed node or the one before it, so a dequeue does not walk the list.
impl Resume for DequeueLoadHead {
    type Point = Op;

    ghost use Rattle.helping.specs.declared.op.Op.TheVariants.{DequeueLoadHead};

    ghost point = { DequeueLoadHead };

    fn step<M: WordMemory>(self, layout: &Layout, memory: &mut M) -> Stepped<Op, Reply> {
        let first = NodeId(load_at(layout, memory, Place::Head) as u32);
        Stepped::quiet(After::More(Op::DequeueLoadTail(DequeueLoadTail {
            token: self.token,
            first,
        })))
    }
}

/// About to load the tail.
#[derive(Clone, Copy)]
pub struct DequeueLoadTail {
    pub(crate) token: Token,
    pub(crate) first: NodeId,
}

// Where the tail is at the head, the node behind it may have a link that is not kept, and is not to be claimed yet
// (`claims_past_a_lagging_tail`).
impl Resume for DequeueLoadTail {
    type Point = Op;

    ghost use Rattle.helping.specs.declared.op.Op.TheVariants.{DequeueLoadTail};

    ghost point = { DequeueLoadTail };

    fn step<M: WordMemory>(self, layout: &Layout, memory: &mut M) -> Stepped<Op, Reply> {
        let last = NodeId(load_at(layout, memory, Place::Tail) as u32);
        Stepped::quiet(After::More(Op::DequeueLoadNext(DequeueLoadNext {
            token: self.token,
            first: self.first,
            last,
        })))
    }
}

/// About to load the head node's link. Where it is 0 the queue is empty at this moment, and the dequeue that answers
/// Empty has taken effect here.
#[derive(Clone, Copy)]
pub struct DequeueLoadNext {
    pub(crate) token: Token,
    pub(crate) first: NodeId,
    pub(crate) last: NodeId,
}

// It comes after the tail: a link read first could be 0 before the tail passed the node, and an answer Empty would then
// be of no moment within the call.
impl Resume for DequeueLoadNext {
    type Point = Op;

    ghost use Rattle.helping.specs.declared.op.Op.TheVariants.{DequeueLoadNext};

    ghost point = { DequeueLoadNext };

    fn step<M: WordMemory>(self, layout: &Layout, memory: &mut M) -> Stepped<Op, Reply> {
        let DequeueLoadNext { token, first, last } = self;
        let next = NodeId(load_at(layout, memory, Place::Next(first)) as u32);
        Stepped::quiet(After::More(Op::DequeueCheckHead(DequeueCheckHead {
            token,
            first,
            last,
            next,
        })))
    }
}

/// About to see whether the head is still there. Each step asks of its next point whether it is this one and has no
/// `next`. That field stands first, where each small point has its first: a point is then handed on in words, and not
/// in a tag and the seven bytes behind it. See `bench/acts.sh`.
#[derive(Clone, Copy)]
pub struct DequeueCheckHead {
    pub(crate) next: NodeId,
    pub(crate) token: Token,
    pub(crate) first: NodeId,
    pub(crate) last: NodeId,
}

// Where the head moved, the node that was read is claimed already, and this dequeue would help for nothing or for ever
// (`goes_on_though_the_head_moved`).
impl Resume for DequeueCheckHead {
    type Point = Op;

    ghost use Rattle.helping.specs.declared.op.Op.TheVariants.{DequeueCheckHead};

    ghost point = { DequeueCheckHead };

    fn step<M: WordMemory>(self, layout: &Layout, memory: &mut M) -> Stepped<Op, Reply> {
        let DequeueCheckHead {
            token,
            first,
            last,
            next,
        } = self;
        let head = load_at(layout, memory, Place::Head);
        Stepped::quiet(After::More(if head != first.0 as u64 {
            Op::DequeueLoadHead(DequeueLoadHead { token })
        } else if first.0 != last.0 {
            Op::DequeueLoadItem(DequeueLoadItem {
                token,
                first,
                next,
                loading: Loading::Length,
            })
        } else if next.0 == 0 {
            Op::DequeueStoreEmpty(DequeueStoreEmpty { token })
        } else {
            Op::Flush(Keeping::DequeuePassedLink(KeepDequeuePassedLink { token, last, next }))
        }))
    }
}

/// About to say that the queue is empty.
#[derive(Clone, Copy)]
pub struct DequeueStoreEmpty {
    pub(crate) token: Token,
}

// After a crash the client is told by this word: without it an Empty that was answered would be told as open, or as not
// taken.
impl Resume for DequeueStoreEmpty {
    type Point = Op;

    ghost use Rattle.helping.specs.declared.op.Op.TheVariants.{DequeueStoreEmpty};

    ghost point = { DequeueStoreEmpty };

    fn step<M: WordMemory>(self, layout: &Layout, memory: &mut M) -> Stepped<Op, Reply> {
        let token = self.token;
        store_at(layout, memory, layout.empty_answer(token));
        Stepped::quiet(After::More(Op::Flush(Keeping::Empty(KeepEmpty { token }))))
    }
}

/// About to move a lagging tail on.
#[derive(Clone, Copy)]
pub struct DequeueHelpTail {
    pub(crate) token: Token,
    pub(crate) last: NodeId,
    pub(crate) next: NodeId,
}

// The head may not pass the tail; without it a dequeue would wait for the enqueuer, which may have stopped.
impl Resume for DequeueHelpTail {
    type Point = Op;

    ghost use Rattle.helping.specs.declared.op.Op.TheVariants.{DequeueHelpTail};

    ghost point = { DequeueHelpTail };

    fn step<M: WordMemory>(self, layout: &Layout, memory: &mut M) -> Stepped<Op, Reply> {
        let DequeueHelpTail { token, last, next } = self;
        let tail = Write {
            place: Place::Tail,
            value: next.0 as u64,
        };
        let _swap = cas_at(layout, memory, last.0 as u64, tail);
        Stepped::quiet(After::More(Op::DequeueLoadHead(DequeueLoadHead { token })))
    }
}

/// About to load a part of the message of the first node.
#[derive(Clone, Copy)]
pub struct DequeueLoadItem {
    pub(crate) token: Token,
    pub(crate) first: NodeId,
    pub(crate) next: NodeId,
    pub(crate) loading: Loading,
}

// It comes before the claim: the winner is answered with what it loaded, and whoever moves the head has nothing to load
// once the node is passed.
impl Resume for DequeueLoadItem {
    type Point = Op;

    ghost use Rattle.helping.specs.declared.op.Op.TheVariants.{DequeueLoadItem};

    ghost point = { DequeueLoadItem };

    fn step<M: WordMemory>(self, layout: &Layout, memory: &mut M) -> Stepped<Op, Reply> {
        let DequeueLoadItem {
            token,
            first,
            next,
            loading,
        } = self;
        let word = load_at(layout, memory, Place::Item(next, loading.part()));
        Stepped::quiet(After::More(match loading.with(word) {
            After::More(loading) => Op::DequeueLoadItem(DequeueLoadItem {
                token,
                first,
                next,
                loading,
            }),
            After::Done(value) => Op::DequeueClaim(DequeueClaim {
                token,
                first,
                next,
                value,
            }),
        }))
    }
}

/// About to claim the node.
#[derive(Clone, Copy)]
pub struct DequeueClaim {
    pub(crate) token: Token,
    pub(crate) first: NodeId,
    pub(crate) next: NodeId,
    pub(crate) value: Value,
}

// A swap: by a store two dequeues would both take the node for theirs.
impl Resume for DequeueClaim {
    type Point = Op;

    ghost use Rattle.helping.specs.declared.op.Op.TheVariants.{DequeueClaim};

    ghost point = { DequeueClaim };

    fn step<M: WordMemory>(self, layout: &Layout, memory: &mut M) -> Stepped<Op, Reply> {
        let DequeueClaim {
            token,
            first,
            next,
            value,
        } = self;
        let mark = Write {
            place: Place::Mark(next),
            value: token.0 as u64,
        };
        let claim = match cas_at(layout, memory, 0, mark) {
            Swap::Done => Claim::Won,
            Swap::Found(winner) => Claim::LostTo(Token(winner as u32)),
        };
        let claimed = Claimed {
            token,
            first,
            next,
            value,
            claim,
        };
        Stepped::quiet(After::More(Op::Flush(Keeping::Claim(KeepClaim { claimed }))))
    }
}

/// About to say what the winner got.
#[derive(Clone, Copy)]
pub struct DequeueStoreResult {
    pub(crate) claimed: Claimed,
}

// A loser writes the winner's answer, too: once the head has passed the node, recovery does not look at its claim
// (`loser_writes_its_own_answer`).
impl Resume for DequeueStoreResult {
    type Point = Op;

    ghost use Rattle.helping.specs.declared.op.Op.TheVariants.{DequeueStoreResult};

    ghost point = { DequeueStoreResult };

    fn step<M: WordMemory>(self, layout: &Layout, memory: &mut M) -> Stepped<Op, Reply> {
        let claimed = self.claimed;
        store_at(layout, memory, claimed.result(layout));
        Stepped::quiet(After::More(Op::Flush(Keeping::Result(KeepResult { claimed }))))
    }
}

/// About to move the head to the claimed node. The winner is answered, a loser begins anew.
#[derive(Clone, Copy)]
pub struct DequeueMoveHead {
    pub(crate) claimed: Claimed,
}

// A swap: where another helped and the head is further on, a store would move it back (`head_moves_by_a_store`).
impl Resume for DequeueMoveHead {
    type Point = Op;

    ghost use Rattle.helping.specs.declared.op.Op.TheVariants.{DequeueMoveHead};

    ghost point = { DequeueMoveHead };

    fn step<M: WordMemory>(self, layout: &Layout, memory: &mut M) -> Stepped<Op, Reply> {
        let Claimed {
            token,
            first,
            next,
            value,
            claim,
        } = self.claimed;
        let head = Write {
            place: Place::Head,
            value: next.0 as u64,
        };
        let _swap = cas_at(layout, memory, first.0 as u64, head);
        Stepped::quiet(match claim {
            Claim::Won => After::Done(Reply::Got(value)),
            Claim::LostTo(_) => After::More(Op::DequeueLoadHead(DequeueLoadHead { token })),
        })
    }
}
