//! The numbers as Prometheus reads them: a line for each, below two that say what it is.

ghost use Rattle.std.specs.Prelude.{◌≡◌, ◌++◌, string_bytes, IfOk, OnOk};
ghost use Rattle.gauges.specs.Samples.{broker_samples, count_of, counter_text, counts_samples, failed_text, family_text, flag, gauge_text, help_of};
ghost use Rattle.gauges.specs.Samples.{journal_samples, keeping_text, metrics_text, name_of, queue_samples, queue_text};
ghost use Rattle.gauges.specs.Samples.{queue_texts, server_samples};
ghost use Rattle.wire.specs.Kinds.{kind_text};

use crate::numbers::{BrokerGauges, Gauges, JournalGauges, Keeping, QueueGauges};
use std::alloc::{AllocError, Global};
use words::Kind;

/// The two lines above the samples of a name: what they are, and of which kind.
#[tactic(auto, unfolding(crate::specs::Samples::family_text))]
fn append_family(text: &mut String, name: &str, kind: &str, help: &str) -> Result<(), AllocError>
    ensures { OnOk result (string_bytes text.new ≡ string_bytes text.old ++ family_text name.now kind.now help.now) }
{
    write!(text, "# HELP {name} {help}\n# TYPE {name} {kind}\n")
}

/// The only sample of its name, which only grows.
#[tactic(auto, unfolding(crate::specs::Samples::counter_text))]
fn append_counter(text: &mut String, name: &str, help: &str, value: u64) -> Result<(), AllocError>
    ensures { OnOk result (string_bytes text.new ≡ string_bytes text.old ++ counter_text name.now help.now value) }
{
    append_family(text, name, "counter", help)?;
    write!(text, "{name} {value}\n")
}

/// The only sample of its name, which may fall.
#[tactic(auto, unfolding(crate::specs::Samples::gauge_text))]
fn append_gauge(text: &mut String, name: &str, help: &str, value: u64) -> Result<(), AllocError>
    ensures { OnOk result (string_bytes text.new ≡ string_bytes text.old ++ gauge_text name.now help.now value) }
{
    append_family(text, name, "gauge", help)?;
    write!(text, "{name} {value}\n")
}

/// How a sample says whether something is so.
fn flag(is_so: bool) -> u64
    ensures { result ≡ flag is_so }
{
    if is_so { 1 } else { 0 }
}

/// How a kind of queue is called.
pub(crate) fn kind_text(kind: Kind) -> &'static str
    ensures { result.now ≡ kind_text kind }
{
    match kind {
        Kind::Durable => "durable",
        Kind::Log => "log",
    }
}

/// How it is said when a journal is kept.
pub(crate) fn keeping_text(keeping: Keeping) -> &'static str
    ensures { result.now ≡ keeping_text keeping }
{
    match keeping {
        Keeping::Always => "always",
        Keeping::EachSecond => "second",
        Keeping::Never => "never",
    }
}

/// What is told of those who serve.
fn append_server(text: &mut String, gauges: &Gauges) -> Result<(), AllocError>
    ensures { OnOk result (string_bytes text.new ≡ string_bytes text.old ++ server_samples gauges.now) }
{
    append_gauge(
        text,
        "wistaku_uptime_seconds",
        "Seconds since connections were first taken.",
        gauges.uptime,
    )?;
    append_gauge(
        text,
        "wistaku_connections",
        "Connections that are open.",
        gauges.connections,
    )?;
    append_gauge(
        text,
        "wistaku_workers",
        "Threads that serve connections.",
        gauges.workers,
    )?;
    append_counter(
        text,
        "wistaku_replies_total",
        "Replies that were sent.",
        gauges.replies,
    )
}

/// A number of a queue.
#[derive(Clone, Copy)]
pub(crate) enum Count {
    Items,
    Clients,
    Records,
}

impl Count {
    /// How its samples are called.
    fn name(self) -> &'static str
        ensures { result.now ≡ name_of self }
    {
        match self {
            Count::Items => "wistaku_queue_items",
            Count::Clients => "wistaku_queue_clients",
            Count::Records => "wistaku_queue_records",
        }
    }

    /// What they are.
    fn help(self) -> &'static str
        ensures { result.now ≡ help_of self }
    {
        match self {
            Count::Items => "Items that a queue holds.",
            Count::Clients => "Clients of a queue.",
            Count::Records => "Records of each client of a queue, used and free.",
        }
    }

    /// The number of a queue.
    fn of(self, queue: &QueueGauges) -> u64
        ensures { result ≡ count_of self queue.now }
    {
        match self {
            Count::Items => queue.items,
            Count::Clients => queue.clients,
            Count::Records => queue.records,
        }
    }
}

/// A number of a queue.
#[tactic(auto, unfolding(crate::specs::Samples::queue_text))]
fn append_queue(text: &mut String, count: Count, queue: &QueueGauges) -> Result<(), AllocError>
    ensures { OnOk result (string_bytes text.new ≡ string_bytes text.old ++ queue_text count queue.now) }
{
    let name = count.name();
    let kind = kind_text(queue.queue.kind);
    let queue_name = queue.queue.name.as_str();
    let value = count.of(queue);
    write!(
        text,
        "{name}{{kind=\"{kind}\",queue=\"{queue_name}\"}} {value}\n"
    )
}

/// A number of each queue.
fn append_each(
    text: &mut String,
    count: Count,
    queues: &[Option<QueueGauges>],
) -> Result<(), AllocError>
    ensures { OnOk result (string_bytes text.new ≡ string_bytes text.old ++ queue_texts count queues.now) }
{
    for place in queues {
        if let Some(queue) = place {
            append_queue(text, count, queue)?;
        }
    }
    Ok(())
}

/// A number of each queue, below what it is.
fn append_queues(
    text: &mut String,
    count: Count,
    queues: &[Option<QueueGauges>],
) -> Result<(), AllocError>
    ensures { OnOk result (string_bytes text.new ≡ string_bytes text.old ++ queue_samples count queues.now) }
{
    append_family(text, count.name(), "gauge", count.help())?;
    append_each(text, count, queues)
}

/// What is told of a broker.
fn append_broker(text: &mut String, broker: &BrokerGauges) -> Result<(), AllocError>
    ensures { OnOk result (string_bytes text.new ≡ string_bytes text.old ++ broker_samples broker.now) }
{
    append_gauge(
        text,
        "wistaku_ready",
        "1 where the broker is ready, and 0 while it recovers.",
        flag(broker.ready),
    )?;
    append_queues(text, Count::Items, &broker.queues)?;
    append_queues(text, Count::Clients, &broker.queues)?;
    append_queues(text, Count::Records, &broker.queues)
}

/// Whether a journal has failed, by when it is kept.
#[tactic(auto, unfolding(crate::specs::Samples::failed_text))]
fn append_failed(text: &mut String, name: &str, journal: &JournalGauges) -> Result<(), AllocError>
    ensures { OnOk result (string_bytes text.new ≡ string_bytes text.old ++ failed_text name.now journal.now) }
{
    let sync = keeping_text(journal.keeping);
    let value = flag(journal.failed);
    write!(text, "{name}{{sync=\"{sync}\"}} {value}\n")
}

/// What is counted of a journal.
#[tactic(auto, unfolding(crate::specs::Samples::counts_samples))]
fn append_counts(text: &mut String, journal: &JournalGauges) -> Result<(), AllocError>
    ensures { OnOk result (string_bytes text.new ≡ string_bytes text.old ++ counts_samples journal.now) }
{
    append_gauge(
        text,
        "wistaku_journal_bytes",
        "Bytes of the journal.",
        journal.bytes,
    )?;
    append_gauge(
        text,
        "wistaku_journal_kept_bytes",
        "Bytes that were there when all were last synced.",
        journal.kept,
    )?;
    append_counter(
        text,
        "wistaku_journal_batches_total",
        "Batches that were appended.",
        journal.batches,
    )?;
    append_counter(
        text,
        "wistaku_journal_failures_total",
        "Failures to append or to sync.",
        journal.failures,
    )
}

/// What is told of a journal.
fn append_journal(text: &mut String, journal: &JournalGauges) -> Result<(), AllocError>
    ensures { OnOk result (string_bytes text.new ≡ string_bytes text.old ++ journal_samples journal.now) }
{
    append_counts(text, journal)?;
    append_family(
        text,
        "wistaku_journal_failed",
        "gauge",
        "1 where the journal has failed for good.",
    )?;
    append_failed(text, "wistaku_journal_failed", journal)
}

/// The numbers as Prometheus reads them.
pub fn metrics_text(alloc: Global, gauges: &Gauges) -> Result<String, AllocError>
    ensures { IfOk result (λ text. string_bytes text ≡ metrics_text gauges.now) }
{
    let mut text = String::new(alloc);
    append_server(&mut text, gauges)?;
    append_broker(&mut text, &gauges.broker)?;
    if let Some(journal) = &gauges.journal {
        append_journal(&mut text, journal)?;
    }
    Ok(text)
}
