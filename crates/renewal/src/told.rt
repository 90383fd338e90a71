//! What is written of a telling.

ghost use Rattle.std.specs.Prelude.{◌≡◌};
ghost use Rattle.renewal.specs.Renewed.{has_verdict, number_told, outcome_node, outcome_status, told_node, told_status};

use arena::{EMPTY_STATUS, value_of};
use words::{Outcome, Reply, Row, Told, Value};

/// The message of the node that stands for a call with this outcome, if one does. It is empty for an enqueue.
fn outcome_node(outcome: Outcome) -> Option<Value>
    ensures { result ≡ outcome_node outcome }
{
    match outcome {
        Outcome::NotTaken => None,
        Outcome::Taken(reply) => match reply {
            Reply::Done => Some(value_of([0; 4])),
            Reply::Got(value) => Some(value),
            Reply::Empty => None,
        },
    }
}

/// The message of the node that stands for the call that was told of, if one does.
pub(crate) fn told_node(told: Told) -> Option<Value>
    ensures { result ≡ told_node told }
{
    match told {
        Told::None => None,
        Told::Verdict(verdict) => outcome_node(verdict.outcome),
        Told::Row(row) => match row {
            Row::NoCall | Row::Open | Row::Empty => None,
            Row::Got(value) => Some(value),
        },
    }
}

/// The status of an entry whose call had this outcome.
fn outcome_status(outcome: Outcome) -> u64
    ensures { result ≡ outcome_status outcome }
{
    match outcome {
        Outcome::NotTaken => 0,
        Outcome::Taken(reply) => match reply {
            Reply::Done | Reply::Got(_) => 0,
            Reply::Empty => EMPTY_STATUS,
        },
    }
}

/// The status of the entry of the call that was told of.
pub(crate) fn told_status(told: Told) -> u64
    ensures { result ≡ told_status told }
{
    match told {
        Told::None | Told::Row(_) => 0,
        Told::Verdict(verdict) => outcome_status(verdict.outcome),
    }
}

/// The number of the call that was told of, or 0.
pub(crate) fn number_told(told: Told) -> u64
    ensures { result ≡ number_told told }
{
    match told {
        Told::None | Told::Row(_) => 0,
        Told::Verdict(verdict) => verdict.number,
    }
}

/// Whether a verdict was told.
pub(crate) fn has_verdict(told: Told) -> bool
    ensures { result ≡ has_verdict told }
{
    matches!(told, Told::Verdict(_))
}
