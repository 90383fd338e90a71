//! What a parse of a command line of `pqd` asks.

ghost use Rattle.std.specs.Prelude.{◌≡◌, IfOk, OnErr, OnOk, Some};
ghost use Rattle.clap.specs.Words.{first_value, found_of, subcommand_rows_of};
ghost use Rattle.options.specs.Asked.{AllFit, Asks, IdleFits, IsIdleGiven, IsKnown, IsPortGiven, ListeningFits, ListensBy};
ghost use Rattle.options.specs.Numbers.{Fits, given_text};
ghost use Rattle.options.specs.declared.limits.TheConstants.{MAX_PORT, MAX_WORKERS};
ghost use Rattle.options.specs.Asked.{AsksFor, CommandAsks, CommandFits, FitsAll, PrintingFits, PrintsBy, Serves, name_in, workers_with};

use crate::address::address;
use crate::asked::{Asked, Journaling, Listening, Mode, Options, Printing, Syncing};
use crate::journaling::{is_set, journaling};
use crate::limits::{
    CLIENTS, CONNECTIONS, IDLE, METRICS, PORT, RECORDS, STATS_PORT, WAITING_WORKERS, WORKERS,
};
use crate::number::{Misfit, NumberOption};
use clap::ArgMatches;

/// For how many seconds no line comes over a connection before it is closed, if that is given.
fn idle(given: Option<&str>) -> Result<Option<u32>, Misfit>
    ensures seconds { IfOk result (IsIdleGiven (given_text given.entry)) }
    ensures misfit { OnErr result (¬ (IdleFits (given_text given.entry))) }
{
    match given {
        Some(_) => Ok(Some(IDLE.read(given)?)),
        None => Ok(None),
    }
}

/// The port at which numbers are told, if one is given.
fn metrics(given: Option<&str>) -> Result<Option<u16>, Misfit>
    ensures asked { IfOk result (IsPortGiven (given_text given.entry)) }
    ensures fits { OnOk result (Fits 0 MAX_PORT (given_text given.entry)) }
    ensures misfit { OnErr result (¬ (Fits 0 MAX_PORT (given_text given.entry))) }
{
    match given {
        Some(text) => Ok(Some(METRICS.read(Some(text))? as u16)),
        None => Ok(None),
    }
}

/// The option `--workers` of a server with this journal.
fn workers_with(journal: &Option<Journaling<'_>>) -> NumberOption
    ensures range { (result.least ≡ 1) × (result.most ≡ MAX_WORKERS) }
    ensures default { result.default ≡ workers_with journal.now }
{
    match journal {
        None => WORKERS,
        Some(Journaling::InLog(_)) => WAITING_WORKERS,
        Some(Journaling::InFile(file)) => match file.syncing {
            Syncing::Always => WAITING_WORKERS,
            Syncing::EachSecond | Syncing::Never => WORKERS,
        },
    }
}

/// Where `serve` listens, with this journal.
fn listening<'a>(
    given: &ArgMatches<'a>,
    journal: &Option<Journaling<'_>>,
) -> Result<Listening<'a>, Misfit>
    ensures asked { IfOk result (ListensBy journal.now (first_value (found_of given.now))) }
    ensures misfit { OnErr result (¬ (ListeningFits (first_value (found_of given.now)))) }
{
    Ok(Listening {
        address: address(given.get_str("listen"))?,
        port: PORT.read(given.get_str("port"))? as u16,
        metrics: metrics(given.get_str("metrics"))?,
        workers: workers_with(journal).read(given.get_str("workers"))?,
        connections: CONNECTIONS.read(given.get_str("connections"))?,
        idle: idle(given.get_str("idle"))?,
        secret: given.get_str("secret"),
    })
}

/// What `stats` prints.
fn printing(given: &ArgMatches<'_>) -> Result<Printing, Misfit>
    ensures asked { IfOk result (PrintsBy (first_value (found_of given.now))) }
    ensures misfit { OnErr result (¬ (PrintingFits (first_value (found_of given.now)))) }
{
    let port = STATS_PORT.read(given.get_str("port"))?;
    Ok(Printing {
        port: port as u16,
        watch: is_set(given, "watch"),
    })
}

/// What a command that serves asks with the options that it was given.
fn options<'a>(command: &str, given: &ArgMatches<'a>) -> Result<Options<'a>, Misfit>
    requires known { Serves (Some command.now) }
    ensures asked { IfOk result (Asks (Some command.now) (first_value (found_of given.now))) }
    ensures misfit { OnErr result (¬ (AllFit (Some command.now) (first_value (found_of given.now)))) }
{
    let clients = CLIENTS.read(given.get_str("clients"))?;
    let records = RECORDS.read(given.get_str("records"))?;
    let journal = journaling(given)?;
    let mode = match command {
        "serve" => Mode::Serve(listening(given, &journal)?),
        _ => Mode::Pipe,
    };
    Ok(Options {
        clients,
        records,
        image: given.get_str("image"),
        journal,
        renew: is_set(given, "renew"),
        mode,
    })
}

/// What a command asks with the options that it was given.
fn asked<'a>(command: &str, given: &ArgMatches<'a>) -> Result<Asked<'a>, Misfit>
    requires known { IsKnown (Some command.now) }
    ensures asked { IfOk result (AsksFor (Some command.now) (first_value (found_of given.now))) }
    ensures misfit { OnErr result (¬ (FitsAll (Some command.now) (first_value (found_of given.now)))) }
{
    if command == "stats" {
        return Ok(Asked::Printing(printing(given)?));
    }
    Ok(Asked::Serving(options(command, given)?))
}

/// What a parse found to be asked.
pub fn asked_in<'a>(matches: &ArgMatches<'a>) -> Result<Asked<'a>, Misfit>
    requires known { IsKnown (name_in (subcommand_rows_of matches.now)) }
    ensures asked { IfOk result (CommandAsks (subcommand_rows_of matches.now)) }
    ensures misfit { OnErr result (¬ (CommandFits (subcommand_rows_of matches.now))) }
{
    let Some((command, given)) = matches.subcommand() else {
        unreachable!();
    };
    asked(command, given)
}
