//! Where recovery waits.

use crate::ends::{
    RecoveryLoadHead, RecoveryLoadInsert, RecoveryLoadMark, RecoveryLoadNext, RecoveryStoreHead,
    RecoveryStoreResult, RecoveryStoreStatus, RecoveryStoreTail,
};
use crate::keeping::RecoveryKeeping;
use crate::telling::{
    RecoveryLoadAnnouncement, RecoveryLoadCell, RecoveryLoadEntryNode, RecoveryLoadGot,
    RecoveryLoadKind, RecoveryLoadNumber, RecoveryLoadRemove, RecoveryLoadRemovedItem,
    RecoveryLoadStatus,
};
use arena::Layout;
use persist::WordMemory;
use stepper::{Points, Resume, Stepped};
use words::{Client, Told};

/// A waiting point of recovery.
#[derive(Clone, Copy)]
pub enum RecoveryPoint {
    RecoveryLoadHead(RecoveryLoadHead),
    RecoveryLoadNext(RecoveryLoadNext),
    RecoveryLoadInsert(RecoveryLoadInsert),
    RecoveryStoreStatus(RecoveryStoreStatus),
    RecoveryLoadMark(RecoveryLoadMark),
    RecoveryStoreResult(RecoveryStoreResult),
    RecoveryStoreHead(RecoveryStoreHead),
    RecoveryStoreTail(RecoveryStoreTail),
    RecoveryLoadAnnouncement(RecoveryLoadAnnouncement),
    RecoveryLoadCell(RecoveryLoadCell),
    RecoveryLoadGot(RecoveryLoadGot),
    RecoveryLoadNumber(RecoveryLoadNumber),
    RecoveryLoadKind(RecoveryLoadKind),
    RecoveryLoadStatus(RecoveryLoadStatus),
    RecoveryLoadRemove(RecoveryLoadRemove),
    RecoveryLoadEntryNode(RecoveryLoadEntryNode),
    RecoveryLoadRemovedItem(RecoveryLoadRemovedItem),
    /// About to ask that a word be kept.
    Flush(RecoveryKeeping),
    /// About to keep it.
    Fence(RecoveryKeeping),
}

/// What recovery tells a client.
#[derive(Clone, Copy)]
pub struct Report {
    pub client: Client,
    pub told: Told,
}

/// It mends the list, and then reports client by client: each report ends the machine, and the next client begins it
/// anew.
impl Points for RecoveryPoint {
    type Answer = Report;

    ghost use Rattle.recover.specs.Table.{access_of, successor, IsPoint};

    ghost access = { access_of };

    ghost successor = { successor };

    ghost in_range = { IsPoint };
}

impl Resume for RecoveryPoint {
    type Point = RecoveryPoint;

    ghost point = { λ at. at };

    fn step<M: WordMemory>(
        self,
        layout: &Layout,
        memory: &mut M,
    ) -> Stepped<RecoveryPoint, Report> {
        match self {
            RecoveryPoint::RecoveryLoadHead(point) => point.step(layout, memory),
            RecoveryPoint::RecoveryLoadNext(point) => point.step(layout, memory),
            RecoveryPoint::RecoveryLoadInsert(point) => point.step(layout, memory),
            RecoveryPoint::RecoveryStoreStatus(point) => point.step(layout, memory),
            RecoveryPoint::RecoveryLoadMark(point) => point.step(layout, memory),
            RecoveryPoint::RecoveryStoreResult(point) => point.step(layout, memory),
            RecoveryPoint::RecoveryStoreHead(point) => point.step(layout, memory),
            RecoveryPoint::RecoveryStoreTail(point) => point.step(layout, memory),
            RecoveryPoint::RecoveryLoadAnnouncement(point) => point.step(layout, memory),
            RecoveryPoint::RecoveryLoadCell(point) => point.step(layout, memory),
            RecoveryPoint::RecoveryLoadGot(point) => point.step(layout, memory),
            RecoveryPoint::RecoveryLoadNumber(point) => point.step(layout, memory),
            RecoveryPoint::RecoveryLoadKind(point) => point.step(layout, memory),
            RecoveryPoint::RecoveryLoadStatus(point) => point.step(layout, memory),
            RecoveryPoint::RecoveryLoadRemove(point) => point.step(layout, memory),
            RecoveryPoint::RecoveryLoadEntryNode(point) => point.step(layout, memory),
            RecoveryPoint::RecoveryLoadRemovedItem(point) => point.step(layout, memory),
            RecoveryPoint::Flush(keeping) => keeping.ask(layout, memory),
            RecoveryPoint::Fence(keeping) => keeping.complete(layout, memory),
        }
    }
}
