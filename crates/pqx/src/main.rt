//! Follows scripts of single steps on a queue or on a whole broker, and crashes them everywhere; finds an order for
//! recordings of any queue.
#![tactic(auto)]

ghost use Rattle.std.specs.Prelude.{◌≡◌};
ghost use Rattle.pqx.specs.Faults.{fault_of};

mod checking;
mod progress;
mod wanting;

use crate::checking::check;
use crate::progress::Progress;
use crate::wanting::{evictions, wanted};
use command_lines::pqx_command_line;
use devices::{CountedReader, CountedWriter};
use explore::Wanted;
use options::{BrokerPointOptions, PointOptions, PqxAsked, RunOptions};
use std::process::ExitCode;
use std::thread::Threads;
use std::{fs, io};
use thiserror::Error;
use words::Refusal;

/// Why a script was not followed to its end.
#[derive(Debug, Drop, Error)]
enum Fault {
    #[error("line {0}: {1}")]
    Line(u32, Refusal),
    #[error("{0}")]
    Refused(Refusal),
}

impl From<Refusal> for Fault {
    ghost from_gives = { λ refusal fault. fault ≡ fault_of refusal };

    fn from(refusal: Refusal) -> Fault {
        match refusal {
            Refusal::BadLine(number) => Fault::Line(number, refusal),
            _ => Fault::Refused(refusal),
        }
    }
}

/// Prints what a crash at each wanted point comes to.
fn print_points<H: Threads + Sync>(
    threads: &H,
    rt: &HostRuntime,
    wanted: Wanted,
) -> Result<(), Refusal> {
    let mut reader = CountedReader::new(rt.reader());
    let mut writer = CountedWriter::new(io::writer(rt));
    let mut progress = Progress::new(rt);
    let printed = script_reports::run_points(
        threads,
        rt.alloc(),
        &mut reader,
        &mut writer,
        wanted,
        &mut progress,
    );
    progress.clear();
    printed
}

/// The same, and writes the page of it to a file.
fn show_points<H: Threads + Sync>(
    threads: &H,
    rt: &HostRuntime,
    wanted: Wanted,
    path: &str,
) -> Result<(), Refusal> {
    let mut reader = CountedReader::new(rt.reader());
    let mut writer = CountedWriter::new(io::writer(rt));
    let mut progress = Progress::new(rt);
    let shown = script_reports::run_page(
        threads,
        rt.alloc(),
        &mut reader,
        &mut writer,
        wanted,
        &mut progress,
    );
    progress.clear();
    fs::write(rt, path, &shown?).map_err(|_| Refusal::WriteFailed)
}

/// Reports on the points of a script.
fn report<H: Threads + Sync>(
    threads: &H,
    rt: &HostRuntime,
    points: PointOptions<'_>,
) -> Result<(), Refusal> {
    let wanted = wanted(points);
    match points.page {
        None => print_points(threads, rt, wanted),
        Some(path) => show_points(threads, rt, wanted, path),
    }
}

/// Reports on the points of a whole broker's script.
fn report_on_broker<H: Threads + Sync>(
    threads: &H,
    rt: &HostRuntime,
    points: BrokerPointOptions,
) -> Result<(), Refusal> {
    let mut reader = CountedReader::new(rt.reader());
    let mut writer = CountedWriter::new(io::writer(rt));
    let mut progress = Progress::new(rt);
    let printed = broker_points::run_points(
        threads,
        rt.alloc(),
        &mut reader,
        &mut writer,
        evictions(points.choice, points.draw),
        &mut progress,
    );
    progress.clear();
    printed
}

/// Follows a script, and writes the page of that to a file, if it is to.
fn follow_script(rt: &HostRuntime, asked: RunOptions<'_>) -> Result<(), Refusal> {
    let mut reader = CountedReader::new(rt.reader());
    let mut writer = CountedWriter::new(io::writer(rt));
    let Some(path) = asked.page else {
        return script_reports::run(rt.alloc(), &mut reader, &mut writer);
    };
    let page = script_reports::run_story(rt.alloc(), &mut reader, &mut writer)?;
    fs::write(rt, path, &page).map_err(|_| Refusal::WriteFailed)
}

/// Prints what becomes of each call that stops, where it goes on alone.
fn print_alone(rt: &HostRuntime) -> Result<(), Refusal> {
    let mut reader = CountedReader::new(rt.reader());
    let mut writer = CountedWriter::new(io::writer(rt));
    script_reports::run_alone(rt.alloc(), &mut reader, &mut writer)
}

/// Follows a whole broker's script.
fn follow_broker(rt: &HostRuntime) -> Result<(), Refusal> {
    let mut reader = CountedReader::new(rt.reader());
    let mut writer = CountedWriter::new(io::writer(rt));
    broker_script::run(rt.alloc(), &mut reader, &mut writer)
}

/// Does what was asked for, and answers with which status to end.
fn answer<H: Threads + Sync>(
    threads: &H,
    rt: &HostRuntime,
    asked: PqxAsked<'_>,
) -> Result<ExitCode, Refusal> {
    let done = match asked {
        PqxAsked::Run(asked) => follow_script(rt, asked),
        PqxAsked::Alone => print_alone(rt),
        PqxAsked::Points(points) => report(threads, rt, points),
        PqxAsked::BrokerRun => follow_broker(rt),
        PqxAsked::BrokerPoints(points) => report_on_broker(threads, rt, points),
        PqxAsked::Check(asked) => return check(threads, rt, asked),
    };
    done.map(|()| ExitCode::SUCCESS)
}

/// Does what the command line asks for, and answers with which status to end.
fn follow<H: Threads + Sync>(threads: &H, rt: &HostRuntime) -> Result<ExitCode, Fault> {
    let words = command_lines::words(rt)?;
    match pqx_command_line(rt.alloc(), &words) {
        Ok(asked) => Ok(answer(threads, rt, asked)?),
        Err(error) => Ok(command_lines::explained(rt, &error)?),
    }
}

fn main(rt: HostRuntime) -> io::Result<ExitCode> {
    command_lines::ended(&rt, "pqx", follow(&rt, &rt))
}
