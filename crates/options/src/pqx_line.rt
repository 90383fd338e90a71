//! What a parse of a command line of `pqx` asks.

ghost use Rattle.std.specs.Prelude.{◌≡◌, IfOk, OnErr, Some, codes, option_map};
ghost use Rattle.std.specs.Result.{OkIff};
ghost use Rattle.clap.specs.Words.{first_value, found_of, subcommand_rows_of};
ghost use Rattle.options.specs.declared.limits.TheConstants.{DEFAULT_DRAW, MAX_DRAW, MAX_POINT};
ghost use Rattle.options.specs.Numbers.{Fits, IsNumberGiven, decimal_value, given_text};
ghost use Rattle.options.specs.PqxAsked.{AllFit, Asks, AsksBrokerPoints, AsksCheck, AsksRun};
ghost use Rattle.options.specs.PqxAsked.{Chooses, IsChoice, CommandAsks, CommandFits};

use crate::limits::DEFAULT_DRAW;
use crate::pqx::{BrokerPointOptions, CheckOptions, Choice, PointOptions, PqxAsked, RunOptions};
use clap::ArgMatches;

/// An option was given what it does not take.
#[derive(Clone, Copy)]
pub enum PqxMisfit {
    Evict,
    Draw,
    From,
    Count,
    Task,
    Taken,
}

/// What such an option takes.
pub fn text_of(misfit: PqxMisfit) -> &'static str {
    match misfit {
        PqxMisfit::Evict => "the option '--evict' takes none, all or drawn",
        PqxMisfit::Draw =>
            "the option '--draw' takes a whole number from 0 to 18446744073709551615",
        PqxMisfit::From =>
            "the option '--from' takes a whole number from 0 to 18446744073709551615",
        PqxMisfit::Count => {
            "the option '--count' takes a whole number from 0 to 18446744073709551615"
        }
        PqxMisfit::Task => "broker takes run or points",
        PqxMisfit::Taken => "broker run takes neither '--evict' nor '--draw'",
    }
}

/// The choice that is given, or none where none is.
fn choice(given: Option<&str>) -> Result<Choice, PqxMisfit>
    ensures chosen { IfOk result (Chooses (given_text given.entry)) }
    ensures misfit { OnErr result (¬ (IsChoice (given_text given.entry))) }
{
    let Some(text) = given else {
        return Ok(Choice::None);
    };
    match text {
        "none" => Ok(Choice::None),
        "all" => Ok(Choice::All),
        "drawn" => Ok(Choice::Drawn),
        _ => Err(PqxMisfit::Evict),
    }
}

/// The state that is given, or the default where none is.
fn draw(given: Option<&str>) -> Result<u64, PqxMisfit>
    ensures { IsNumberGiven (given_text given.entry) 0 MAX_DRAW DEFAULT_DRAW result }
{
    let Some(text) = given else {
        return Ok(DEFAULT_DRAW);
    };
    text.parse::<u64>().map_err(|_| PqxMisfit::Draw)
}

/// The first point that is given, or the very first where none is.
fn first_point(given: Option<&str>) -> Result<u64, PqxMisfit>
    ensures { IsNumberGiven (given_text given.entry) 0 MAX_POINT 0 result }
{
    let Some(text) = given else {
        return Ok(0);
    };
    text.parse::<u64>().map_err(|_| PqxMisfit::From)
}

/// How many points are wanted, if that is given.
fn point_count(given: Option<&str>) -> Result<Option<u64>, PqxMisfit>
    ensures { OkIff result (Fits 0 MAX_POINT (given_text given.entry))
        (option_map decimal_value (given_text given.entry)) }
{
    let Some(text) = given else {
        return Ok(None);
    };
    match text.parse::<u64>() {
        Ok(count) => Ok(Some(count)),
        Err(_) => Err(PqxMisfit::Count),
    }
}

/// What a report on points is asked to be.
fn points<'a>(given: &ArgMatches<'a>) -> Result<PqxAsked<'a>, PqxMisfit>
    ensures asked { IfOk result (Asks (Some (codes "points")) (first_value (found_of given.now))) }
    ensures misfit { OnErr result (¬ (AllFit (first_value (found_of given.now)))) }
{
    let choice = choice(given.get_str("evict"))?;
    let draw = draw(given.get_str("draw"))?;
    let from = first_point(given.get_str("from"))?;
    let count = point_count(given.get_str("count"))?;
    Ok(PqxAsked::Points(PointOptions {
        choice,
        draw,
        from,
        count,
        page: given.get_str("page"),
    }))
}

/// What the transcript of a script is asked to be.
fn run_options<'a>(given: &ArgMatches<'a>) -> RunOptions<'a>
    ensures { AsksRun (first_value (found_of given.now)) result }
{
    RunOptions {
        page: given.get_str("page"),
    }
}

/// What a verdict on a recording is asked to be.
fn check_options<'a>(given: &ArgMatches<'a>) -> CheckOptions<'a>
    ensures { AsksCheck (first_value (found_of given.now)) result }
{
    CheckOptions {
        order: given.get_flag("order"),
        page: given.get_str("page"),
    }
}

/// What a report on the points of a whole broker is asked to be.
fn broker_points(given: &ArgMatches<'_>) -> Result<BrokerPointOptions, PqxMisfit>
    requires { first_value (found_of given.now) (codes "task") ≡ Some (codes "points") }
    ensures asked { IfOk result (AsksBrokerPoints (first_value (found_of given.now))) }
    ensures misfit { OnErr result (¬ (AllFit (first_value (found_of given.now)))) }
{
    let choice = choice(given.get_str("evict"))?;
    let draw = draw(given.get_str("draw"))?;
    Ok(BrokerPointOptions { choice, draw })
}

/// The transcript of a whole broker's script, where nothing is said of words that are kept.
fn broker_run<'a>(given: &ArgMatches<'a>) -> Result<PqxAsked<'a>, PqxMisfit>
    requires { first_value (found_of given.now) (codes "task") ≡ Some (codes "run") }
    ensures asked { IfOk result (Asks (Some (codes "broker")) (first_value (found_of given.now))) }
    ensures misfit { OnErr result (¬ (AllFit (first_value (found_of given.now)))) }
{
    if given.get_str("evict").is_some() {
        return Err(PqxMisfit::Taken);
    }
    if given.get_str("draw").is_some() {
        return Err(PqxMisfit::Taken);
    }
    Ok(PqxAsked::BrokerRun)
}

/// What is asked of a script of a whole broker.
fn broker_task<'a>(given: &ArgMatches<'a>) -> Result<PqxAsked<'a>, PqxMisfit>
    ensures asked { IfOk result (Asks (Some (codes "broker")) (first_value (found_of given.now))) }
    ensures misfit { OnErr result (¬ (AllFit (first_value (found_of given.now)))) }
{
    match given.get_str("task") {
        Some("points") => Ok(PqxAsked::BrokerPoints(broker_points(given)?)),
        Some("run") => broker_run(given),
        None => Ok(PqxAsked::BrokerRun),
        Some(_) => Err(PqxMisfit::Task),
    }
}

/// What a command asks with the options that it was given.
fn asked_by<'a>(command: &str, given: &ArgMatches<'a>) -> Result<PqxAsked<'a>, PqxMisfit>
    ensures asked { IfOk result (Asks (Some command.now) (first_value (found_of given.now))) }
    ensures misfit { OnErr result (¬ (AllFit (first_value (found_of given.now)))) }
{
    match command {
        "points" => points(given),
        "alone" => Ok(PqxAsked::Alone),
        "check" => Ok(PqxAsked::Check(check_options(given))),
        "broker" => broker_task(given),
        _ => Ok(PqxAsked::Run(run_options(given))),
    }
}

/// What a parse found to be asked.
pub fn pqx_asked_in<'a>(matches: &ArgMatches<'a>) -> Result<PqxAsked<'a>, PqxMisfit>
    ensures asked { IfOk result (CommandAsks (subcommand_rows_of matches.now)) }
    ensures misfit { OnErr result (¬ (CommandFits (subcommand_rows_of matches.now))) }
{
    match matches.subcommand() {
        Some((command, given)) => asked_by(command, given),
        None => Ok(PqxAsked::Run(RunOptions { page: None })),
    }
}
