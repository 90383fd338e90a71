//! What the words of a command line ask of `pqx`.

ghost use Rattle.std.specs.Prelude.{◌≡◌, ◌⊎◌, IfOk, IfErr, map};
ghost use Rattle.clap.specs.Words.{app_of, kind_of};
ghost use Rattle.command_lines.specs.PqxCommands.{pqx_app};
ghost use Rattle.command_lines.specs.PqxLines.{IsPqxAsked, RefusesPqx};

use crate::pqx_commands::pqx;
use clap::error::ErrorKind;
use clap::{Command, Error};
use options::{PqxAsked, PqxMisfit, pqx_asked_in, text_of};
use std::alloc::Global;
use std::convert::AsStr;

/// The error that tells of an option that does not fit, or that memory for it is wanting.
fn refusal(command: &mut Command<'_>, misfit: PqxMisfit) -> Error
    ensures { (kind_of result ≡ ErrorKind.OutOfMemory) ⊎ (kind_of result ≡ ErrorKind.ValueValidation) }
{
    match command.error(ErrorKind::ValueValidation, text_of(misfit)) {
        Ok(error) => error,
        Err(error) => error.into(),
    }
}

/// What the words ask of the command, of which the first is the program's name.
fn asked_of<'a, S: AsStr>(command: &mut Command<'a>, words: &'a [S]) -> Result<PqxAsked<'a>, Error>
    requires app { app_of command.old ≡ pqx_app }
    ensures asked { IfOk result (IsPqxAsked (map S.text words.entry.now)) }
    ensures refused { IfErr result (RefusesPqx (map S.text words.entry.now)) }
{
    let matches = command.try_get_matches_from_mut(words)?;
    match pqx_asked_in(&matches) {
        Ok(asked) => Ok(asked),
        Err(misfit) => Err(refusal(command, misfit)),
    }
}

/// What the words of a command line ask of `pqx`, of which the first is the program's name.
///
/// An error that is no want of memory has the text for the user and the status to end with: 0 where the words ask for
/// help or the version, and else 2.
pub fn pqx_command_line<'a, S: AsStr>(alloc: Global, words: &'a [S]) -> Result<PqxAsked<'a>, Error>
    ensures asked { IfOk result (IsPqxAsked (map S.text words.entry.now)) }
    ensures refused { IfErr result (RefusesPqx (map S.text words.entry.now)) }
{
    let mut command = pqx(alloc)?;
    asked_of(&mut command, words)
}
