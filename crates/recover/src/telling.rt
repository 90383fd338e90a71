//! What each client is told: recovery reads its announcement, and what became of the announced call. The `//` at a
//! point says what goes wrong without it, with the must-fail edit that shows it.

ghost use Rattle.std.specs.Prelude.{◌≡◌, ◌≤◌, ◌+◌};
ghost use Rattle.recover.specs.Table.{to_row, taken_as, not_taken_as, report_of};

use crate::point::{RecoveryPoint, Report};
use arena::{EMPTY_CELL, EMPTY_STATUS, ENQUEUE_KIND, GOT_CELL, Layout, Place, TAKEN_STATUS};
use persist::WordMemory;
use stepper::{After, Loading, Resume, Stepped, load_at};
use words::{Client, Kind, MAX_RECORD_NUMBER, NodeId, Outcome, Reply, Row, Token, Told, Verdict};

/// That the call of this number took effect.
fn taken(number: u64, reply: Reply) -> Told
    ensures { result ≡ taken_as number reply }
{
    Told::Verdict(Verdict {
        number,
        outcome: Outcome::Taken(reply),
    })
}

/// That it did not.
fn not_taken(number: u64) -> Told
    ensures { result ≡ not_taken_as number }
{
    Told::Verdict(Verdict {
        number,
        outcome: Outcome::NotTaken,
    })
}

/// Reports that the client is told this.
fn tell(client: Client, told: Told) -> After<RecoveryPoint, Report>
    ensures { result ≡ report_of client told }
{
    After::Done(Report { client, told })
}

/// What a cell says to its client: of a node that it names the message comes.
fn row(client: Client, answer: u64) -> After<RecoveryPoint, Report>
    requires { answer ≤ MAX_RECORD_NUMBER + GOT_CELL }
    ensures { result ≡ to_row client answer }
{
    match answer {
        0 => tell(client, Told::Row(Row::Open)),
        EMPTY_CELL => tell(client, Told::Row(Row::Empty)),
        _ => After::More(RecoveryPoint::RecoveryLoadGot(RecoveryLoadGot {
            client,
            node: NodeId((answer - GOT_CELL) as u32),
            loading: Loading::Length,
        })),
    }
}

/// About to load what a client announced last.
#[derive(Clone, Copy)]
pub struct RecoveryLoadAnnouncement {
    pub(crate) client: Client,
}

// The announcement and not the bump word: a call that was not announced is one of which the client is told nothing.
impl Resume for RecoveryLoadAnnouncement {
    type Point = RecoveryPoint;

    ghost use Rattle.recover.specs.declared.point.RecoveryPoint.TheVariants.{RecoveryLoadAnnouncement};

    ghost point = { RecoveryLoadAnnouncement };

    fn step<M: WordMemory>(
        self,
        layout: &Layout,
        memory: &mut M,
    ) -> Stepped<RecoveryPoint, Report> {
        let client = self.client;
        let token = Token(load_at(layout, memory, Place::Announcement(client)) as u32);
        Stepped::quiet(match (layout.kind(), token.0) {
            (Kind::Durable, 0) => tell(client, Told::Row(Row::NoCall)),
            (Kind::Log, 0) => tell(client, Told::None),
            (Kind::Durable, _) => After::More(RecoveryPoint::RecoveryLoadCell(RecoveryLoadCell {
                client,
                token,
            })),
            (Kind::Log, _) => After::More(RecoveryPoint::RecoveryLoadNumber(RecoveryLoadNumber {
                client,
                token,
            })),
        })
    }
}

/// Durable queue: about to load the answer of the client's dequeue.
#[derive(Clone, Copy)]
pub struct RecoveryLoadCell {
    pub(crate) client: Client,
    pub(crate) token: Token,
}

// The walk has written the answer of every claim by now, so the cell says all.
impl Resume for RecoveryLoadCell {
    type Point = RecoveryPoint;

    ghost use Rattle.recover.specs.declared.point.RecoveryPoint.TheVariants.{RecoveryLoadCell};

    ghost point = { RecoveryLoadCell };

    fn step<M: WordMemory>(
        self,
        layout: &Layout,
        memory: &mut M,
    ) -> Stepped<RecoveryPoint, Report> {
        let RecoveryLoadCell { client, token } = self;
        let answer = load_at(layout, memory, Place::Cell(token));
        Stepped::quiet(row(client, answer))
    }
}

/// Durable queue: about to load a part of the message of the node that the cell names.
#[derive(Clone, Copy)]
pub struct RecoveryLoadGot {
    pub(crate) client: Client,
    pub(crate) node: NodeId,
    pub(crate) loading: Loading,
}

// The row carries the message: the node stays its own after it was claimed, so nothing has to be written twice.
impl Resume for RecoveryLoadGot {
    type Point = RecoveryPoint;

    ghost use Rattle.recover.specs.declared.point.RecoveryPoint.TheVariants.{RecoveryLoadGot};

    ghost point = { RecoveryLoadGot };

    fn step<M: WordMemory>(
        self,
        layout: &Layout,
        memory: &mut M,
    ) -> Stepped<RecoveryPoint, Report> {
        let RecoveryLoadGot {
            client,
            node,
            loading,
        } = self;
        let word = load_at(layout, memory, Place::Item(node, loading.part()));
        Stepped::quiet(match loading.with(word) {
            After::More(loading) => After::More(RecoveryPoint::RecoveryLoadGot(RecoveryLoadGot {
                client,
                node,
                loading,
            })),
            After::Done(value) => tell(client, Told::Row(Row::Got(value))),
        })
    }
}

/// Log queue: about to load the number of the announced call.
#[derive(Clone, Copy)]
pub struct RecoveryLoadNumber {
    pub(crate) client: Client,
    pub(crate) token: Token,
}

// By the number the client knows which of its calls it is told of.
impl Resume for RecoveryLoadNumber {
    type Point = RecoveryPoint;

    ghost use Rattle.recover.specs.declared.point.RecoveryPoint.TheVariants.{RecoveryLoadNumber};

    ghost point = { RecoveryLoadNumber };

    fn step<M: WordMemory>(
        self,
        layout: &Layout,
        memory: &mut M,
    ) -> Stepped<RecoveryPoint, Report> {
        let RecoveryLoadNumber { client, token } = self;
        let number = load_at(layout, memory, Place::Number(token));
        Stepped::quiet(After::More(RecoveryPoint::RecoveryLoadKind(RecoveryLoadKind {
            client,
            token,
            number,
        })))
    }
}

/// Log queue: about to load whether it is an enqueue.
#[derive(Clone, Copy)]
pub struct RecoveryLoadKind {
    pub(crate) client: Client,
    pub(crate) token: Token,
    pub(crate) number: u64,
}

// An enqueue and a dequeue are told by different words: a status, or a claim.
impl Resume for RecoveryLoadKind {
    type Point = RecoveryPoint;

    ghost use Rattle.recover.specs.declared.point.RecoveryPoint.TheVariants.{RecoveryLoadKind};

    ghost point = { RecoveryLoadKind };

    fn step<M: WordMemory>(
        self,
        layout: &Layout,
        memory: &mut M,
    ) -> Stepped<RecoveryPoint, Report> {
        let RecoveryLoadKind {
            client,
            token,
            number,
        } = self;
        let is_enqueue = load_at(layout, memory, Place::EntryKind(token)) == ENQUEUE_KIND;
        Stepped::quiet(After::More(RecoveryPoint::RecoveryLoadStatus(RecoveryLoadStatus {
            client,
            token,
            number,
            is_enqueue,
        })))
    }
}

/// Log queue: about to load its status.
#[derive(Clone, Copy)]
pub struct RecoveryLoadStatus {
    pub(crate) client: Client,
    pub(crate) token: Token,
    pub(crate) number: u64,
    pub(crate) is_enqueue: bool,
}

// An answer Empty stands nowhere else (`verdict_always_not_taken`).
impl Resume for RecoveryLoadStatus {
    type Point = RecoveryPoint;

    ghost use Rattle.recover.specs.declared.point.RecoveryPoint.TheVariants.{RecoveryLoadStatus};

    ghost point = { RecoveryLoadStatus };

    fn step<M: WordMemory>(
        self,
        layout: &Layout,
        memory: &mut M,
    ) -> Stepped<RecoveryPoint, Report> {
        let RecoveryLoadStatus {
            client,
            token,
            number,
            is_enqueue,
        } = self;
        let status = load_at(layout, memory, Place::Status(token));
        if is_enqueue && status == TAKEN_STATUS {
            return Stepped::quiet(tell(client, taken(number, Reply::Done)));
        }
        if !is_enqueue && status == EMPTY_STATUS {
            return Stepped::quiet(tell(client, taken(number, Reply::Empty)));
        }
        Stepped::quiet(After::More(if is_enqueue {
            RecoveryPoint::RecoveryLoadRemove(RecoveryLoadRemove {
                client,
                token,
                number,
            })
        } else {
            RecoveryPoint::RecoveryLoadEntryNode(RecoveryLoadEntryNode {
                client,
                token,
                number,
            })
        }))
    }
}

/// Log queue: about to see whether the enqueue's node was claimed, which it is only once it was linked.
#[derive(Clone, Copy)]
pub struct RecoveryLoadRemove {
    pub(crate) client: Client,
    pub(crate) token: Token,
    pub(crate) number: u64,
}

// The walk begins at the head: an enqueue whose node lies before it has no status (`remove_word_ignored`).
impl Resume for RecoveryLoadRemove {
    type Point = RecoveryPoint;

    ghost use Rattle.recover.specs.declared.point.RecoveryPoint.TheVariants.{RecoveryLoadRemove};

    ghost point = { RecoveryLoadRemove };

    fn step<M: WordMemory>(
        self,
        layout: &Layout,
        memory: &mut M,
    ) -> Stepped<RecoveryPoint, Report> {
        let RecoveryLoadRemove {
            client,
            token,
            number,
        } = self;
        let remove = load_at(layout, memory, Place::Mark(NodeId(token.0)));
        let verdict = if remove == 0 {
            not_taken(number)
        } else {
            taken(number, Reply::Done)
        };
        Stepped::quiet(tell(client, verdict))
    }
}

/// Log queue: about to load the node that the dequeue removed.
#[derive(Clone, Copy)]
pub struct RecoveryLoadEntryNode {
    pub(crate) client: Client,
    pub(crate) token: Token,
    pub(crate) number: u64,
}

// The entry names the node that it claims; 0 where no claim of it was kept.
impl Resume for RecoveryLoadEntryNode {
    type Point = RecoveryPoint;

    ghost use Rattle.recover.specs.declared.point.RecoveryPoint.TheVariants.{RecoveryLoadEntryNode};

    ghost point = { RecoveryLoadEntryNode };

    fn step<M: WordMemory>(
        self,
        layout: &Layout,
        memory: &mut M,
    ) -> Stepped<RecoveryPoint, Report> {
        let RecoveryLoadEntryNode {
            client,
            token,
            number,
        } = self;
        let node = NodeId(load_at(layout, memory, Place::EntryNode(token)) as u32);
        if node.0 == 0 {
            return Stepped::quiet(tell(client, not_taken(number)));
        }
        Stepped::quiet(After::More(RecoveryPoint::RecoveryLoadRemovedItem(
            RecoveryLoadRemovedItem {
                client,
                number,
                node,
                loading: Loading::Length,
            },
        )))
    }
}

/// Log queue: about to load a part of the message of that node.
#[derive(Clone, Copy)]
pub struct RecoveryLoadRemovedItem {
    pub(crate) client: Client,
    pub(crate) number: u64,
    pub(crate) node: NodeId,
    pub(crate) loading: Loading,
}

// The verdict carries the reply, and the reply its message.
impl Resume for RecoveryLoadRemovedItem {
    type Point = RecoveryPoint;

    ghost use Rattle.recover.specs.declared.point.RecoveryPoint.TheVariants.{RecoveryLoadRemovedItem};

    ghost point = { RecoveryLoadRemovedItem };

    fn step<M: WordMemory>(
        self,
        layout: &Layout,
        memory: &mut M,
    ) -> Stepped<RecoveryPoint, Report> {
        let RecoveryLoadRemovedItem {
            client,
            number,
            node,
            loading,
        } = self;
        let word = load_at(layout, memory, Place::Item(node, loading.part()));
        Stepped::quiet(match loading.with(word) {
            After::More(loading) => After::More(RecoveryPoint::RecoveryLoadRemovedItem(
                RecoveryLoadRemovedItem {
                    client,
                    number,
                    node,
                    loading,
                },
            )),
            After::Done(value) => tell(client, taken(number, Reply::Got(value))),
        })
    }
}
