//! What the words of a command line ask.

ghost use Rattle.std.specs.Prelude.{◌≡◌, ◌⊎◌, IfOk, IfErr, map};
ghost use Rattle.clap.specs.Words.{app_of, kind_of};
ghost use Rattle.command_lines.specs.Commands.{pqd_app};
ghost use Rattle.command_lines.specs.Lines.{IsAsked, Refuses};

use crate::commands::pqd;
use clap::error::ErrorKind;
use clap::{Command, Error};
use options::{Asked, Misfit, asked_in};
use std::alloc::{AllocError, Global};
use std::convert::AsStr;

/// The error that tells of an option that does not fit.
fn explained(alloc: Global, command: &mut Command<'_>, misfit: Misfit) -> Result<Error, AllocError>
    ensures { IfOk result (λ e. kind_of e ≡ ErrorKind.ValueValidation) }
{
    let text = misfit.to_string(alloc)?;
    command.error(ErrorKind::ValueValidation, text.as_str())
}

/// That error, or the one that memory for it is wanting.
fn refusal(alloc: Global, command: &mut Command<'_>, misfit: Misfit) -> Error
    ensures { (kind_of result ≡ ErrorKind.OutOfMemory) ⊎ (kind_of result ≡ ErrorKind.ValueValidation) }
{
    match explained(alloc, command, misfit) {
        Ok(error) => error,
        Err(error) => error.into(),
    }
}

/// What the words ask of the command, of which the first is the program's name.
fn asked_of<'a, S: AsStr>(
    alloc: Global,
    command: &mut Command<'a>,
    words: &'a [S],
) -> Result<Asked<'a>, Error>
    requires app { app_of command.old ≡ pqd_app }
    ensures asked { IfOk result (IsAsked (map S.text words.entry.now)) }
    ensures refused { IfErr result (Refuses (map S.text words.entry.now)) }
{
    let matches = command.try_get_matches_from_mut(words)?;
    match asked_in(&matches) {
        Ok(asked) => Ok(asked),
        Err(misfit) => Err(refusal(alloc, command, misfit)),
    }
}

/// What the words of a command line ask, of which the first is the program's name.
///
/// An error that is no want of memory has the text for the user and the status to end with: 0 where the words ask for
/// help or the version, and else 2.
pub fn command_line<'a, S: AsStr>(alloc: Global, words: &'a [S]) -> Result<Asked<'a>, Error>
    ensures asked { IfOk result (IsAsked (map S.text words.entry.now)) }
    ensures refused { IfErr result (Refuses (map S.text words.entry.now)) }
{
    let mut command = pqd(alloc)?;
    asked_of(alloc, &mut command, words)
}
