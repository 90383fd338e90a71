//! Serving with a journal.

ghost use Rattle.std.specs.Prelude.{◌≡◌, IfOk};
ghost use Rattle.opening.specs.Sessions.{IsUncalled};
ghost use Rattle.pqd.specs.Keeping.{GoesOnFrom, GoesOnFromFiles, policy_for};

use crate::entering::bind;
use crate::{Fault, broker_for, fill_places, service_of};
use devices::{CountedReader, CountedWriter};
use journal_file::Storage;
use journal_store::{Folder, Found, Store, SystemFolder};
use lasting::Policy;
use log::Log;
use named::Broker;
use opening::{reopened, reopened_anew};
use options::{FileJournal, Listening, Mode, Options, Syncing};
use server::{Entrance, Service, net_lasting, pipe_lasting};
use serving::Journaling;
use std::io;
use std::net::Net;
use std::sync::Wait;
use std::thread::Threads;
use std::time::Clock;
use words::Refusal;

/// When the journal is kept that is asked for so.
fn policy_of(syncing: Syncing) -> Policy
    ensures { result ≡ policy_for syncing }
{
    match syncing {
        Syncing::Always => Policy::Always,
        Syncing::EachSecond => Policy::EachSecond,
        Syncing::Never => Policy::Never,
    }
}

/// Says that a torn frame is left out, of which the file is kept too.
fn tell_torn<D: Folder + Drop>(
    rt: &HostRuntime,
    store: &Store<D>,
    torn: usize,
) -> Result<(), Refusal> {
    let kept = match store.keep_torn() {
        Ok(()) => "kept as FILE.torn",
        Err(_) => "not kept",
    };
    match eprintln!(rt;
        "pqd: the journal ends in {torn} bytes of a torn frame, left out and {kept}"
    ) {
        Ok(()) => Ok(()),
        Err(_) => Err(Refusal::WriteFailed),
    }
}

/// The broker that goes on from what the journal left, in fresh records if the options say so.
pub(crate) fn broker_on(
    rt: &HostRuntime,
    asked: &Options<'_>,
    found: Found,
) -> Result<Broker, Refusal>
    ensures uncalled { IfOk result IsUncalled }
    ensures words { IfOk result (GoesOnFrom asked.now found.words.items) }
{
    if asked.renew {
        return reopened_anew(rt.alloc(), asked.clients, asked.records, found.words);
    }
    reopened(rt.alloc(), found.words)
}

/// The broker that goes on from the journal; or, where there is none yet, the one that the options ask for.
fn broker_from<D: Folder + Drop>(
    rt: &HostRuntime,
    asked: &Options<'_>,
    store: &Store<D>,
) -> Result<Broker, Fault>
    ensures uncalled { IfOk result IsUncalled }
    ensures found { IfOk result (GoesOnFromFiles asked.now store.now.files) }
{
    let Some(found) = store.find(rt.alloc())? else {
        return Ok(broker_for(rt, asked)?);
    };
    if found.torn > 0 {
        tell_torn(rt, store, found.torn)?;
    }
    Ok(broker_on(rt, asked, found)?)
}

/// A broker, and the journal that goes on from what it began on.
#[derive(Drop)]
pub(crate) struct Kept<S: Storage + Drop> {
    pub(crate) broker: Broker,
    pub(crate) journaling: Journaling<S>,
}

/// Serves standard input to standard output, with a journal. The image that it leaves.
pub(crate) fn serve_input<T: Threads + Wait + Clock + Sync, S: Storage + Drop + Send>(
    threads: &T,
    rt: &HostRuntime,
    kept: Kept<S>,
) -> Result<Vec<u8>, Fault>
    requires { IsUncalled kept.broker }
{
    let mut reader = CountedReader::new(rt.reader());
    let mut writer = CountedWriter::new(io::writer(rt));
    let left = pipe_lasting(
        threads,
        rt.alloc(),
        kept.broker,
        kept.journaling,
        &mut reader,
        &mut writer,
    )?;
    Ok(left.image)
}

/// Serves the connections of an entrance, with a journal. The image that it leaves.
pub(crate) fn serve_connections<
    T: Threads + Wait + Net + Log + Clock + Sync,
    S: Storage + Drop + Send,
>(
    threads: &T,
    rt: &HostRuntime,
    service: Service,
    kept: Kept<S>,
    entrance: &Entrance<'_>,
) -> Result<Vec<u8>, Fault>
    requires { IsUncalled kept.broker }
{
    let left = net_lasting(
        threads,
        rt.alloc(),
        kept.broker,
        service,
        kept.journaling,
        entrance,
    )?;
    Ok(left.image)
}

/// The broker that goes on from the journal of this storage, which is to be kept as it is asked for.
fn kept_in<D: Folder + Drop>(
    rt: &HostRuntime,
    asked: &Options<'_>,
    store: Store<D>,
    syncing: Syncing,
) -> Result<Kept<Store<D>>, Fault>
    ensures uncalled { IfOk result (λ kept. IsUncalled kept.broker) }
    ensures found { IfOk result (λ kept. GoesOnFromFiles asked.now kept.journaling.storage.files kept.broker) }
    ensures policy { IfOk result (λ kept. kept.journaling.policy ≡ policy_for syncing) }
{
    let broker = broker_from(rt, asked, &store)?;
    let journaling = Journaling {
        storage: store,
        policy: policy_of(syncing),
    };
    Ok(Kept { broker, journaling })
}

/// Serves as the options ask: each change is in the journal before a reply that follows it. The image that it leaves.
pub(crate) fn serve<T: Threads + Wait + Net + Log + Clock + Sync>(
    threads: &T,
    rt: &HostRuntime,
    asked: &Options<'_>,
    wanted: FileJournal<'_>,
) -> Result<Vec<u8>, Fault> {
    let store = Store::new(SystemFolder::open(rt, wanted.file)?);
    let kept = kept_in(rt, asked, store, wanted.syncing)?;
    match asked.mode {
        Mode::Pipe => serve_input(threads, rt, kept),
        Mode::Serve(at) => {
            let _places = fill_places(rt);
            let bound = bind(rt, at)?;
            bound.tell(rt)?;
            serve_connections(threads, rt, service_of(at, asked), kept, &bound.entrance())
        }
    }
}
