//! Serving with a journal in a log of etcd.

ghost use Rattle.std.specs.Prelude.{◌≡◌, IfOk};
ghost use Rattle.opening.specs.Sessions.{IsUncalled};
ghost use Rattle.lasting.specs.declared.policy.Policy.TheVariants.{Always};
ghost use Rattle.pqd.specs.Keeping.{GoesOnFromText};

use crate::entering::bind;
use crate::keeping::{Kept, broker_on, serve_connections, serve_input};
use crate::standby::wait_for;
use crate::{Fault, broker_for, fill_places, service_of};
use etcd_log::{EtcdStore, Exchange, ask_tail};
use etcd_net::{HttpExchange, is_place, log_at, members};
use etcd_text::tail_in;
use journal_store::found_in;
use lasting::Policy;
use log::Log;
use named::Broker;
use options::{Listening, LogJournal, Mode, Options};
use serving::Journaling;
use std::net::{Net, SocketAddr};
use std::random::RandomSource;
use std::sync::Wait;
use std::thread::Threads;
use std::time::{Clock, Duration};
use words::Refusal;

/// How many seconds it asks at the end whose the log is.
const LAST_SECONDS: u64 = 5;

/// How many bytes are drawn for the name of an owner.
const DRAWN_BYTES: usize = 8;

/// A log, as it was asked for.
#[derive(Drop)]
struct Wanted<'a> {
    members: Vec<SocketAddr>,
    name: &'a str,
}

/// The log of this address.
fn log_of<'a>(rt: &HostRuntime, address: &'a str) -> Result<Wanted<'a>, Fault> {
    let Some((names, name)) = log_at(address) else {
        return Err(Fault::Address);
    };
    match members(rt, rt.alloc(), names) {
        Some(members) => Ok(Wanted { members, name }),
        None => Err(Fault::NoEngine),
    }
}

impl<'a> Wanted<'a> {
    /// What asks its members, and goes on asking for so many seconds where no answer comes.
    fn exchange(&self, rt: &'a HostRuntime, seconds: u64) -> Result<HttpExchange<'a>, Fault> {
        let Ok(members) = self.members.clone() else {
            return Err(Fault::Refused(Refusal::NoMemory));
        };
        Ok(HttpExchange::new(rt, self.name, members, Duration::from_secs(seconds)))
    }

    /// Why a server ended that had the log under this name: that it has it no more, if it has not.
    fn reason(&self, rt: &'a HostRuntime, owner: &[u8], fault: Fault) -> Fault {
        let Ok(mut exchange) = self.exchange(rt, LAST_SECONDS) else {
            return fault;
        };
        let Ok(Some(text)) = ask_tail(&mut exchange) else {
            return fault;
        };
        match tail_in(&text) {
            Some(tail) if tail.owner != owner => Fault::TakenOver,
            _ => fault,
        }
    }
}

/// A name for an owner who is to be found there: nobody had it before.
fn owner_name(rt: &HostRuntime, place: &str) -> Result<String, Fault> {
    let mut drawn = [0; DRAWN_BYTES];
    if rt.fill_bytes(&mut drawn).is_err() {
        return Err(Fault::Refused(Refusal::ReadFailed));
    }
    let drawn = u64::from_be_bytes(drawn);
    match format!(in rt.alloc(); "{place}/{drawn:016x}") {
        Ok(name) => Ok(name),
        Err(_) => Err(Fault::Refused(Refusal::NoMemory)),
    }
}

/// The broker that goes on from the journal in this log, which says how long it is; or, where it is empty, the broker
/// that the options ask for.
fn broker_in<X: Exchange + Drop>(
    rt: &HostRuntime,
    asked: &Options<'_>,
    log: &mut EtcdStore<X>,
) -> Result<Broker, Fault>
    ensures uncalled { IfOk result IsUncalled }
    ensures found { IfOk result (GoesOnFromText asked.now log.old.text) }
    ensures text { log.new.text ≡ log.old.text }
{
    let bytes = log.read(rt.alloc())?;
    if bytes.is_empty() {
        return Ok(broker_for(rt, asked)?);
    }
    let found = found_in(rt.alloc(), &bytes)?;
    let said = eprintln!(rt;
        "pqd: the log has {} bytes, {} of a torn frame left out",
        bytes.len(),
        found.torn
    );
    if said.is_err() {
        return Err(Fault::Refused(Refusal::WriteFailed));
    }
    Ok(broker_on(rt, asked, found)?)
}

/// The log, once it is this owner's, and the broker that goes on from it.
fn kept_in<X: Exchange + Drop>(
    rt: &HostRuntime,
    asked: &Options<'_>,
    exchange: X,
    owner: &str,
) -> Result<Kept<EtcdStore<X>>, Fault>
    ensures uncalled { IfOk result (λ kept. IsUncalled kept.broker) }
    ensures found { IfOk result (λ kept. GoesOnFromText asked.now kept.journaling.storage.text kept.broker) }
    ensures policy { IfOk result (λ kept. kept.journaling.policy ≡ Always) }
{
    let Ok(owner) = Vec::from_slice(rt.alloc(), owner.as_bytes()) else {
        return Err(Fault::Refused(Refusal::NoMemory));
    };
    let mut log = EtcdStore::take(exchange, owner)?;
    let broker = broker_in(rt, asked, &mut log)?;
    let journaling = Journaling {
        storage: log,
        policy: Policy::Always,
    };
    Ok(Kept { broker, journaling })
}

/// The same of this log, asked for so many seconds where no answer comes. Who takes the log next removes its pieces once
/// he has put them anew, also while they are read here: then it is said that the log is his.
fn kept_of<'a>(
    rt: &'a HostRuntime,
    asked: &Options<'_>,
    log: &Wanted<'a>,
    seconds: u64,
    owner: &str,
) -> Result<Kept<EtcdStore<HttpExchange<'a>>>, Fault>
    ensures uncalled { IfOk result (λ kept. IsUncalled kept.broker) }
    ensures found { IfOk result (λ kept. GoesOnFromText asked.now kept.journaling.storage.text kept.broker) }
    ensures policy { IfOk result (λ kept. kept.journaling.policy ≡ Always) }
{
    let exchange = log.exchange(rt, seconds)?;
    match kept_in(rt, asked, exchange, owner) {
        Ok(kept) => Ok(kept),
        Err(Fault::BadLog) => Err(log.reason(rt, owner.as_bytes(), Fault::BadLog)),
        Err(fault) => Err(fault),
    }
}

/// Serves standard input to standard output. The image that it leaves.
fn pipe_logged<T: Threads + Wait + Clock + Sync>(
    threads: &T,
    rt: &HostRuntime,
    asked: &Options<'_>,
    log: &Wanted<'_>,
    patience: u64,
) -> Result<Vec<u8>, Fault> {
    let owner = owner_name(rt, "pipe")?;
    let kept = kept_of(rt, asked, log, patience, &owner)?;
    serve_input(threads, rt, kept)
}

/// A name for an owner who listens at this address, and is found where that is announced, or there.
fn server_name(
    rt: &HostRuntime,
    journal: LogJournal<'_>,
    address: SocketAddr,
) -> Result<String, Fault> {
    if let Some(place) = journal.announce {
        return owner_name(rt, place);
    }
    let Ok(place) = address.to_string(rt.alloc()) else {
        return Err(Fault::Refused(Refusal::NoMemory));
    };
    if address.ip().is_unspecified() {
        let said = eprintln!(rt;
            "pqd: nobody is found at {place}: --announce says where others find this server"
        );
        if said.is_err() {
            return Err(Fault::Refused(Refusal::WriteFailed));
        }
    }
    owner_name(rt, &place)
}

/// Serves connections as they come to this address. The image that it leaves.
fn serve_logged<T: Threads + Wait + Net + Log + Clock + Sync>(
    threads: &T,
    rt: &HostRuntime,
    asked: &Options<'_>,
    log: &Wanted<'_>,
    journal: LogJournal<'_>,
    at: Listening<'_>,
) -> Result<Vec<u8>, Fault> {
    // Whoever stands by finds the port taken before the log is, and so does not take it meanwhile.
    let bound = bind(rt, at)?;
    let owner = server_name(rt, journal, bound.address)?;
    let kept = kept_of(rt, asked, log, u64::from(journal.patience), &owner)?;
    bound.tell(rt)?;
    match serve_connections(threads, rt, service_of(at, asked), kept, &bound.entrance()) {
        Ok(image) => Ok(image),
        Err(fault) => Err(log.reason(rt, owner.as_bytes(), fault)),
    }
}

/// Serves as the options ask, with a journal in a log of etcd. The image that it leaves.
pub(crate) fn serve<T: Threads + Wait + Net + Log + Clock + Sync>(
    threads: &T,
    rt: &HostRuntime,
    asked: &Options<'_>,
    journal: LogJournal<'_>,
) -> Result<Vec<u8>, Fault> {
    let _places = fill_places(rt);
    if !journal.announce.is_none_or(is_place) {
        return Err(Fault::Place);
    }
    let log = log_of(rt, journal.address)?;
    let patience = u64::from(journal.patience);
    let mut exchange = log.exchange(rt, patience)?;
    wait_for(rt, &mut exchange, journal.taking)?;
    match asked.mode {
        Mode::Pipe => pipe_logged(threads, rt, asked, &log, patience),
        Mode::Serve(at) => serve_logged(threads, rt, asked, &log, journal, at),
    }
}
