//! Which journal is asked for.

ghost use Rattle.std.specs.Prelude.{◌≡◌, ◌↔◌, ◌++◌, IfOk, IsTrue, MatchOption, OnErr, OnOk, Some, codes};
ghost use Rattle.clap.specs.Words.{first_value, found_of};
ghost use Rattle.options.specs.Journals.{HasNoLogWords, HasPatience, IsAnnouncedAs, IsLogs, IsSet, IsSyncing, JournalFits};
ghost use Rattle.options.specs.Journals.{JournalsBy, KeepsAlways, LogFits, NamesNoLog, SyncsBy, TakesBy};
ghost use Rattle.options.specs.Numbers.{given_text};

use crate::asked::{FileJournal, Journaling, LogJournal, Syncing, Taking};
use crate::limits::PATIENCE;
use crate::number::Misfit;
use clap::ArgMatches;

/// Whether a flag is given: clap gives it the value `true` then, and else `false`.
pub(crate) fn is_set(given: &ArgMatches<'_>, flag: &str) -> bool
    ensures { IsTrue result ↔ IsSet (first_value (found_of given.now)) flag.now }
{
    match given.get_str(flag) {
        Some(value) => value == "true",
        None => false,
    }
}

/// When a journal's bytes are kept.
fn syncing(given: Option<&str>) -> Result<Syncing, Misfit>
    ensures chosen { IfOk result (SyncsBy (given_text given.entry)) }
    ensures misfit { OnErr result (¬ (IsSyncing (given_text given.entry))) }
{
    let Some(text) = given else {
        return Ok(Syncing::EachSecond);
    };
    match text {
        "always" => Ok(Syncing::Always),
        "second" => Ok(Syncing::EachSecond),
        "never" => Ok(Syncing::Never),
        _ => Err(Misfit::Syncing),
    }
}

/// What stands behind `etcd://` in the place of a journal, if it begins so.
fn address_in(place: &str) -> Option<&str>
    ensures { MatchOption result (¬ (IsLogs place.now)) (λ address. place.now ≡ codes "etcd://" ++ address.now) }
{
    place.strip_prefix("etcd://")
}

/// The address of the log that is the place of a journal, if it is one's.
fn log_address(place: Option<&str>) -> Option<&str>
    ensures { MatchOption result (NamesNoLog (given_text place.entry))
        (λ address. given_text place.entry ≡ Some (codes "etcd://" ++ address.now)) }
{
    match place {
        Some(text) => address_in(text),
        None => None,
    }
}

/// When a log is taken from another server.
fn taking(given: &ArgMatches<'_>) -> Taking
    ensures { TakesBy (first_value (found_of given.now)) result }
{
    if is_set(given, "take-over") {
        return Taking::AtOnce;
    }
    if is_set(given, "standby") {
        return Taking::OnceFree;
    }
    Taking::IfFree
}

/// Whether no option of a log is given.
fn has_no_log_words(given: &ArgMatches<'_>) -> bool
    ensures { IsTrue result ↔ HasNoLogWords (first_value (found_of given.now)) }
{
    if is_set(given, "standby") {
        return false;
    }
    if is_set(given, "take-over") {
        return false;
    }
    if given.get_str("announce").is_some() {
        return false;
    }
    given.get_str("patience").is_none()
}

/// Whether a log is to be kept as it always is.
fn keeps_always(when: Option<&str>) -> bool
    ensures { IsTrue result ↔ KeepsAlways (given_text when.entry) }
{
    match when {
        None => true,
        Some(text) => text == "always",
    }
}

/// The journal in the log of this address.
fn in_log<'a>(given: &ArgMatches<'a>, address: &'a str) -> Result<LogJournal<'a>, Misfit>
    ensures address { IfOk result (λ log. log.address.now ≡ address.now) }
    ensures fits { OnOk result (LogFits (first_value (found_of given.now))) }
    ensures taking { IfOk result (λ log. TakesBy (first_value (found_of given.now)) log.taking) }
    ensures patience { IfOk result (λ log. HasPatience (first_value (found_of given.now)) log.patience) }
    ensures announced { IfOk result (λ log. IsAnnouncedAs (first_value (found_of given.now)) log.announce) }
    ensures misfit { OnErr result (¬ (LogFits (first_value (found_of given.now)))) }
{
    if !keeps_always(given.get_str("sync")) {
        return Err(Misfit::NotAlways);
    }
    let patience = PATIENCE.read(given.get_str("patience"))?;
    Ok(LogJournal {
        address,
        taking: taking(given),
        patience,
        announce: given.get_str("announce"),
    })
}

/// The journal that is asked for, if one is.
pub(crate) fn journaling<'a>(given: &ArgMatches<'a>) -> Result<Option<Journaling<'a>>, Misfit>
    ensures asked { IfOk result (JournalsBy (first_value (found_of given.now))) }
    ensures misfit { OnErr result (¬ (JournalFits (first_value (found_of given.now)))) }
{
    let place = given.get_str("journal");
    if let Some(address) = log_address(place) {
        return Ok(Some(Journaling::InLog(in_log(given, address)?)));
    }
    if !has_no_log_words(given) {
        return Err(Misfit::NoLog);
    }
    let when = given.get_str("sync");
    let Some(file) = place else {
        return match when {
            Some(_) => Err(Misfit::Unjournaled),
            None => Ok(None),
        };
    };
    let syncing = syncing(when)?;
    Ok(Some(Journaling::InFile(FileJournal { file, syncing })))
}
