//! The numbers as a JSON object.

ghost use Rattle.std.specs.Prelude.{◌≡◌, string_bytes, IfOk};
ghost use Rattle.serde_json.specs.Data.{array};
ghost use Rattle.serde_json.specs.View.{items_of, view};
ghost use Rattle.serde_json.specs.Written.{compact_text};
ghost use Rattle.gauges.specs.Objects.{journal_data, journal_data_of, queue_data, queue_datas, stats_data};

use crate::numbers::{Gauges, JournalGauges, QueueGauges};
use crate::samples::{keeping_text, kind_text};
use serde_json::{Value, json};
use std::alloc::{AllocError, Global};

/// A queue, with its numbers.
fn queue_value(alloc: Global, queue: &QueueGauges) -> Result<Value, AllocError>
    ensures { IfOk result (λ value. view value ≡ queue_data queue.now) }
{
    let kind = kind_text(queue.queue.kind);
    let name = queue.queue.name.as_str();
    json!(in alloc; {
        "clients": queue.clients,
        "items": queue.items,
        "kind": kind,
        "queue": name,
        "records": queue.records
    })
}

/// The queues, in the order of their slots.
fn queues_value(alloc: Global, queues: &[Option<QueueGauges>]) -> Result<Value, AllocError>
    ensures { IfOk result (λ value. view value ≡ array (items_of (queue_datas queues.now))) }
{
    let mut list = Vec::new(alloc);
    for place in queues {
        if let Some(queue) = place {
            list.push(queue_value(alloc, queue)?)?;
        }
    }
    Ok(Value::Array(list))
}

/// A journal.
fn journal_value(alloc: Global, journal: &JournalGauges) -> Result<Value, AllocError>
    ensures { IfOk result (λ value. view value ≡ journal_data journal.now) }
{
    let sync = keeping_text(journal.keeping);
    json!(in alloc; {
        "batches": journal.batches,
        "bytes": journal.bytes,
        "failed": journal.failed,
        "failures": journal.failures,
        "kept": journal.kept,
        "sync": sync
    })
}

/// A journal, or null where there is none.
fn journal_value_of(alloc: Global, journal: &Option<JournalGauges>) -> Result<Value, AllocError>
    ensures { IfOk result (λ value. view value ≡ journal_data_of journal.now) }
{
    match journal {
        Some(journal) => journal_value(alloc, journal),
        None => Ok(Value::Null),
    }
}

/// The numbers as a JSON object.
fn stats_value(alloc: Global, gauges: &Gauges) -> Result<Value, AllocError>
    ensures { IfOk result (λ value. view value ≡ stats_data gauges.now) }
{
    let Gauges {
        uptime,
        connections,
        workers,
        replies,
        broker,
        journal,
    } = *gauges;
    let queues = queues_value(alloc, &broker.queues)?;
    let journal = journal_value_of(alloc, &journal)?;
    json!(in alloc; {
        "connections": connections,
        "journal": journal,
        "queues": queues,
        "ready": broker.ready,
        "replies": replies,
        "uptime": uptime,
        "workers": workers
    })
}

/// The text of that object.
pub fn stats_text(alloc: Global, gauges: &Gauges) -> Result<String, AllocError>
    ensures { IfOk result (λ text. string_bytes text ≡ compact_text (stats_data gauges.now)) }
{
    let value = stats_value(alloc, gauges)?;
    value.to_string(alloc)
}
