//! The numbers of a server as a table.

use serde_json::Value;
use std::alloc::{AllocError, Global};

/// A number at a key, and 0 where none is.
fn number(value: &Value, key: &str) -> u64 {
    match value.get(key) {
        Some(value) => value.as_u64().unwrap_or(0),
        None => 0,
    }
}

/// A text at a key, and a dash where none is.
fn text<'a>(value: &'a Value, key: &str) -> &'a str {
    match value.get(key) {
        Some(value) => value.as_str().unwrap_or("-"),
        None => "-",
    }
}

/// Whether a key says that it is so.
fn is_so(value: &Value, key: &str) -> bool {
    match value.get(key) {
        Some(value) => value.as_bool().unwrap_or(false),
        None => false,
    }
}

/// What is told of those who serve.
fn append_server(table: &mut String, numbers: &Value) -> Result<(), AllocError> {
    let state = if is_so(numbers, "ready") {
        "ready"
    } else {
        "recovering"
    };
    let uptime = number(numbers, "uptime");
    let connections = number(numbers, "connections");
    let workers = number(numbers, "workers");
    let replies = number(numbers, "replies");
    write!(
        table,
        "state        {state}\nup           {uptime} s\nconnections  {connections}\n"
    )?;
    write!(table, "workers      {workers}\nreplies      {replies}\n")
}

/// What is told of a journal.
fn append_journal(table: &mut String, journal: &Value) -> Result<(), AllocError> {
    let sync = text(journal, "sync");
    let bytes = number(journal, "bytes");
    let kept = number(journal, "kept");
    let batches = number(journal, "batches");
    let failures = number(journal, "failures");
    let failed = if is_so(journal, "failed") {
        ", failed"
    } else {
        ""
    };
    write!(
        table,
        "journal      {sync}, {bytes} bytes, {kept} synced, {batches} batches"
    )?;
    write!(table, ", {failures} failures{failed}\n")
}

/// What is told of a queue.
fn append_queue(table: &mut String, queue: &Value) -> Result<(), AllocError> {
    let name = text(queue, "queue");
    let kind = text(queue, "kind");
    let items = number(queue, "items");
    let clients = number(queue, "clients");
    let records = number(queue, "records");
    write!(
        table,
        "{name:<16}  {kind:<7}  {items:>7}  {clients:>7}  {records:>7}\n"
    )
}

/// What is told of queues, below what it is.
fn append_queues(table: &mut String, queues: &[Value]) -> Result<(), AllocError> {
    if queues.is_empty() {
        return Ok(());
    }
    table.push_str("\nqueue             kind       items  clients  records\n")?;
    for queue in queues {
        append_queue(table, queue)?;
    }
    Ok(())
}

/// The table of these numbers. What is not told is 0, or a dash.
pub(crate) fn table_of(alloc: Global, numbers: &Value) -> Result<String, AllocError> {
    let mut table = String::new(alloc);
    append_server(&mut table, numbers)?;
    match numbers.get("journal") {
        Some(Value::Null) | None => table.push_str("journal      none\n")?,
        Some(journal) => append_journal(&mut table, journal)?,
    }
    if let Some(Value::Array(queues)) = numbers.get("queues") {
        append_queues(&mut table, queues)?;
    }
    Ok(table)
}
