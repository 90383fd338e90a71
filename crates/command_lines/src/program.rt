//! What a program does with its command line, whatever that asks, and with a fault at its end.

ghost use Rattle.std.specs.Prelude.{◌≡◌, ◌↔◌, ◌⊎◌, IfErr, IsErrOf};
ghost use Rattle.std.specs.IoError.{error_kind};
ghost use Rattle.clap.specs.Words.{kind_of};
ghost use Rattle.command_lines.specs.Faults.{refusal_of_system};

use clap::error::ErrorKind;
use std::process::ExitCode;
use std::{env, fmt, io};
use words::Refusal;

/// What `--version` prints after the name of a program.
pub(crate) const VERSION: &str = "0.1.0";

/// What a fault of the system is, where something was to be read.
pub fn refusal_of(error: &io::Error) -> Refusal
    ensures { result ≡ refusal_of_system (error_kind error.now) }
{
    match error.kind() {
        io::ErrorKind::OutOfMemory => Refusal::NoMemory,
        _ => Refusal::ReadFailed,
    }
}

/// The words of the command line, of which the first is the program's name. One that is no text is a failed read.
pub fn words(rt: &HostRuntime) -> Result<Vec<String>, Refusal>
    ensures { IfErr result (λ refusal. (refusal ≡ Refusal.NoMemory) ⊎ (refusal ≡ Refusal.ReadFailed)) }
{
    let given = match env::args(rt) {
        Ok(given) => given,
        Err(error) => return Err(refusal_of(&error)),
    };
    match given.collect(rt.alloc()) {
        Ok(words) => Ok(words),
        Err(_) => Err(Refusal::NoMemory),
    }
}

/// Says what is wrong with a command line, or what it asks to know, and answers with which status to end.
pub fn explained(rt: &HostRuntime, error: &clap::Error) -> Result<ExitCode, Refusal>
    ensures memory { IsErrOf result Refusal.NoMemory ↔ kind_of error.now ≡ ErrorKind.OutOfMemory }
    ensures errors { IfErr result (λ refusal. (refusal ≡ Refusal.NoMemory) ⊎ (refusal ≡ Refusal.WriteFailed)) }
{
    if let ErrorKind::OutOfMemory = error.kind() {
        return Err(Refusal::NoMemory);
    }
    if error.print(rt).is_err() {
        return Err(Refusal::WriteFailed);
    }
    Ok(ExitCode::from(error.exit_code() as u8))
}

/// The status with which a program of this name ends: a fault is said on standard error, and has the status 1.
pub fn ended<F: fmt::Display + Drop>(
    rt: &HostRuntime,
    program: &str,
    followed: Result<ExitCode, F>,
) -> io::Result<ExitCode> {
    match followed {
        Ok(status) => Ok(status),
        Err(fault) => {
            eprintln!(rt; "{program}: {fault}")?;
            Ok(ExitCode::FAILURE)
        }
    }
}
