//! A broker that serves standard input, or connections; and the numbers of one that does.
#![tactic(auto)]

ghost use Rattle.std.specs.Prelude.{◌≡◌, IfOk};
ghost use Rattle.opening.specs.Sessions.{IsUncalled};
ghost use Rattle.pqd.specs.declared.Fault.TheVariants.{Refused};

mod entering;
mod image;
mod keeping;
mod logging;
mod secret;
mod standby;
mod stats;
mod table;

use command_lines::command_line;
use devices::{CountedReader, CountedWriter};
use door::Unfit;
use entering::bind;
use etcd_log::Undone;
use log::Log;
use named::Broker;
use opening::{opened, renewed};
use options::{Asked, Journaling, Listening, Mode, Options};
use server::{Service, net};
use serving::{Unserved, pipe};
use std::fs::File;
use std::io;
use std::net::Net;
use std::process::ExitCode;
use std::sync::Wait;
use std::thread::Threads;
use std::time::Clock;
use thiserror::Error;
use words::Refusal;

/// Why the broker does not serve, or not to its end.
#[derive(Debug, Drop, Error)]
enum Fault {
    #[error("{0}")]
    Refused(Refusal),
    #[error("listen failed")]
    Listen,
    /// Nobody tells numbers at the port.
    #[error("no server tells its numbers there")]
    Untold,
    /// The journal's file is not used.
    #[error("{0}")]
    Journal(journal_store::Fault),
    /// What was done could not be kept in the journal, and so no reply tells of it.
    #[error("31 NotKept")]
    NotKept,
    /// The log is another server's by now.
    #[error("34 TakenOver")]
    TakenOver,
    /// No member of etcd answers.
    #[error("35 NoEngine")]
    NoEngine,
    /// What etcd has is no log.
    #[error("36 BadLog")]
    BadLog,
    /// What is given is no secret.
    #[error("{0}")]
    Secret(Unfit),
    /// What is given is no log's address.
    #[error("the option '--journal' takes a file, or etcd://HOST:PORT,../NAME")]
    Address,
    /// What is announced is no place of a server.
    #[error("the option '--announce' takes HOST:PORT")]
    Place,
}

impl From<Refusal> for Fault {
    ghost from_gives = { λ refusal fault. fault ≡ Refused refusal };

    fn from(refusal: Refusal) -> Fault {
        Fault::Refused(refusal)
    }
}

impl From<journal_store::Fault> for Fault {
    fn from(fault: journal_store::Fault) -> Fault {
        Fault::Journal(fault)
    }
}

impl From<Undone> for Fault {
    fn from(undone: Undone) -> Fault {
        match undone {
            Undone::TakenOver => Fault::TakenOver,
            Undone::NoEngine => Fault::NoEngine,
            Undone::NoMemory => Fault::Refused(Refusal::NoMemory),
            Undone::BadAnswer | Undone::Full | Undone::Missing => Fault::BadLog,
        }
    }
}

impl From<Unserved> for Fault {
    fn from(unserved: Unserved) -> Fault {
        match unserved {
            Unserved::Refused(refusal) => Fault::Refused(refusal),
            Unserved::NotKept => Fault::NotKept,
        }
    }
}

/// The broker that the options ask for: the one that the image's file keeps, where there is such a file, in fresh
/// records if they say so.
fn broker_for(rt: &HostRuntime, asked: &Options<'_>) -> Result<Broker, Refusal>
    ensures { IfOk result IsUncalled }
{
    let kept = match asked.image {
        Some(path) => image::read(rt, path)?,
        None => None,
    };
    let bytes = kept.as_ref().map(|bytes| bytes.as_slice());
    match bytes {
        Some(image) if asked.renew => renewed(rt.alloc(), asked.clients, asked.records, image),
        _ => opened(rt.alloc(), asked.clients, asked.records, bytes),
    }
}

/// Serves standard input to standard output. The image that it leaves.
fn serve_input<T: Wait>(waits: &T, rt: &HostRuntime, broker: Broker) -> Result<Vec<u8>, Refusal>
    requires { IsUncalled broker }
{
    let mut reader = CountedReader::new(rt.reader());
    let mut writer = CountedWriter::new(io::writer(rt));
    pipe(waits, rt.alloc(), broker, &mut reader, &mut writer)
}

/// Files in place of an input, an output and an error that the process was not given. Else a connection would have the
/// place of standard error, and be sent the warnings.
fn fill_places(rt: &HostRuntime) -> [io::Result<File>; 3] {
    [
        File::open(rt, "/dev/null"),
        File::open(rt, "/dev/null"),
        File::open(rt, "/dev/null"),
    ]
}

/// How connections are served that are asked for so.
fn service_of(at: Listening<'_>, asked: &Options<'_>) -> Service {
    Service {
        workers: at.workers,
        renew: asked.renew,
    }
}

/// Serves connections. The image that it leaves.
fn serve_connections<T: Threads + Wait + Net + Log + Clock + Sync>(
    threads: &T,
    rt: &HostRuntime,
    broker: Broker,
    service: Service,
    at: Listening<'_>,
) -> Result<Vec<u8>, Fault>
    requires { IsUncalled broker }
{
    let _places = fill_places(rt);
    let bound = bind(rt, at)?;
    bound.tell(rt)?;
    Ok(net(threads, rt.alloc(), broker, service, &bound.entrance())?)
}

/// Serves as the options ask, in memory. The image that it leaves.
fn serve_in_memory<T: Threads + Wait + Net + Log + Clock + Sync>(
    threads: &T,
    rt: &HostRuntime,
    asked: &Options<'_>,
) -> Result<Vec<u8>, Fault> {
    let broker = broker_for(rt, asked)?;
    match asked.mode {
        Mode::Pipe => Ok(serve_input(threads, rt, broker)?),
        Mode::Serve(at) => serve_connections(threads, rt, broker, service_of(at, asked), at),
    }
}

/// Serves as the options ask, and writes the image's file at the end.
fn serve<T: Threads + Wait + Net + Log + Clock + Sync>(
    threads: &T,
    rt: &HostRuntime,
    asked: Options<'_>,
) -> Result<(), Fault> {
    let image = match asked.journal {
        Some(Journaling::InFile(wanted)) => keeping::serve(threads, rt, &asked, wanted)?,
        Some(Journaling::InLog(wanted)) => logging::serve(threads, rt, &asked, wanted)?,
        None => serve_in_memory(threads, rt, &asked)?,
    };
    if let Some(path) = asked.image {
        image::write(rt, path, &image)?;
    }
    Ok(())
}

/// Does what the command line asks for, and answers with which status to end.
fn follow<T: Threads + Wait + Net + Log + Clock + Sync>(
    threads: &T,
    rt: &HostRuntime,
) -> Result<ExitCode, Fault> {
    let words = command_lines::words(rt)?;
    match command_line(rt.alloc(), &words) {
        Ok(Asked::Serving(asked)) => {
            serve(threads, rt, asked)?;
            Ok(ExitCode::SUCCESS)
        }
        Ok(Asked::Printing(asked)) => {
            stats::print(rt, asked)?;
            Ok(ExitCode::SUCCESS)
        }
        Err(error) => Ok(command_lines::explained(rt, &error)?),
    }
}

fn main(rt: HostRuntime) -> io::Result<ExitCode> {
    command_lines::ended(&rt, "pqd", follow(&rt, &rt))
}
