//! Whether replies, and what clients are told, are the same.

ghost use Rattle.std.specs.Prelude.{◌≡◌, ◌↔◌, IsTrue};

use words::{Outcome, Reply, Row, Told, Value};

/// Whether two messages are the same.
pub fn is_same_value(value: &Value, other: &Value) -> bool
    ensures { IsTrue result ↔ (value.now ≡ other.now) }
{
    *value == *other
}

/// Whether two lists of messages are the same.
pub fn are_same_values(values: &[Value], others: &[Value]) -> bool
    ensures { IsTrue result ↔ (values.now ≡ others.now) }
{
    if values.len() != others.len() {
        return false;
    }
    for i in 0..values.len() {
        if !is_same_value(&values[i], &others[i]) {
            return false;
        }
    }
    true
}

/// Whether two replies are the same.
pub fn is_same_reply(reply: &Reply, other: &Reply) -> bool
    ensures { IsTrue result ↔ (reply.now ≡ other.now) }
{
    match (reply, other) {
        (Reply::Done, Reply::Done) => true,
        (Reply::Got(value), Reply::Got(other)) => is_same_value(value, other),
        (Reply::Empty, Reply::Empty) => true,
        _ => false,
    }
}

/// Whether two outcomes are the same.
pub fn is_same_outcome(outcome: &Outcome, other: &Outcome) -> bool
    ensures { IsTrue result ↔ (outcome.now ≡ other.now) }
{
    match (outcome, other) {
        (Outcome::NotTaken, Outcome::NotTaken) => true,
        (Outcome::Taken(reply), Outcome::Taken(other)) => is_same_reply(reply, other),
        _ => false,
    }
}

/// Whether two rows are the same.
fn is_same_row(row: &Row, other: &Row) -> bool
    ensures { IsTrue result ↔ (row.now ≡ other.now) }
{
    match (row, other) {
        (Row::NoCall, Row::NoCall) => true,
        (Row::Open, Row::Open) => true,
        (Row::Empty, Row::Empty) => true,
        (Row::Got(value), Row::Got(other)) => is_same_value(value, other),
        _ => false,
    }
}

/// Whether the same is told.
pub fn is_same_told(told: &Told, other: &Told) -> bool
    ensures { IsTrue result ↔ (told.now ≡ other.now) }
{
    match (told, other) {
        (Told::None, Told::None) => true,
        (Told::Verdict(verdict), Told::Verdict(other)) => {
            verdict.number == other.number && is_same_outcome(&verdict.outcome, &other.outcome)
        }
        (Told::Row(row), Told::Row(other)) => is_same_row(row, other),
        _ => false,
    }
}
