//! The commands of `pqd`, and the options that each takes.

ghost use Rattle.std.specs.Prelude.{◌≡◌, IfOk, false};
ghost use Rattle.clap.specs.Words.{app_of, new_app, rule_of};
ghost use Rattle.command_lines.specs.Commands.{HasNoGlobals, pqd_app};
ghost use Rattle.command_lines.specs.Described.{described_app, described_rule, program_app, with_apps, with_rules};

use crate::help::Notes;
use crate::program::VERSION;
use clap::{Arg, ArgAction, Command};
use std::alloc::{AllocError, Global};

/// How a command is given what it takes.
#[derive(Clone, Copy)]
pub(crate) enum Form<'a> {
    /// `--name VALUE`, where help calls the value so.
    Option(&'a str),
    /// `--name`
    Flag,
    /// A word that stands for itself, and has to be there, which help calls so.
    Word(&'a str),
}

/// What a command takes.
#[derive(Clone, Copy)]
pub(crate) struct Described<'a> {
    pub(crate) name: &'a str,
    pub(crate) form: Form<'a>,
    pub(crate) help: &'a str,
}

impl<'a> Described<'a> {
    /// As clap has it.
    fn arg(&self, alloc: Global) -> Arg<'a>
        ensures rule { rule_of result ≡ described_rule self.now }
        ensures local { result.global ≡ false }
    {
        let arg = Arg::new(alloc, self.name).help(self.help);
        match self.form {
            Form::Option(value) => arg.long(self.name).value_name(value).action(ArgAction::Set),
            Form::Flag => arg.long(self.name).action(ArgAction::SetTrue),
            Form::Word(value) => arg.value_name(value).required(true),
        }
    }
}

/// The command that takes these more.
fn with_taken<'a>(
    alloc: Global,
    command: Command<'a>,
    taken: &[Described<'a>],
) -> Result<Command<'a>, AllocError>
    ensures app { IfOk result (λ c. app_of c ≡ with_rules (app_of command.entry) taken.entry.now) }
    ensures local { HasNoGlobals command.entry → IfOk result HasNoGlobals }
{
    let mut command = command;
    for described in taken {
        command = command.arg(described.arg(alloc))?;
    }
    Ok(command)
}

/// What a command is.
#[derive(Clone, Copy)]
pub(crate) struct DescribedCommand<'a> {
    pub(crate) name: &'a str,
    pub(crate) about: &'a str,
    /// What help says below its options, if anything.
    pub(crate) notes: Option<Notes>,
    pub(crate) takes: &'a [Described<'a>],
}

impl<'a> DescribedCommand<'a> {
    /// As clap has it, before it takes anything.
    fn bare(&self, alloc: Global) -> Command<'a>
        ensures app { app_of result ≡ new_app self.now.name.now }
        ensures local { HasNoGlobals result }
    {
        let command = Command::new(alloc, self.name).about(self.about);
        match self.notes {
            Some(notes) => command.after_help(notes.text()),
            None => command,
        }
    }

    /// As clap has it, where it is a program: it wants a command, and tells its version.
    pub(crate) fn program(&self, alloc: Global) -> Command<'a>
        ensures app { app_of result ≡ program_app self.now.name.now }
        ensures local { HasNoGlobals result }
    {
        self.bare(alloc).version(VERSION).subcommand_required(true)
    }

    /// As clap has it, with all that it takes.
    fn command(&self, alloc: Global) -> Result<Command<'a>, AllocError>
        ensures app { IfOk result (λ c. app_of c ≡ described_app self.now) }
        ensures local { IfOk result HasNoGlobals }
    {
        with_taken(alloc, self.bare(alloc), self.takes)
    }
}

/// The command with these commands below it.
pub(crate) fn with_commands<'a>(
    alloc: Global,
    command: Command<'a>,
    below: &[DescribedCommand<'a>],
) -> Result<Command<'a>, AllocError>
    ensures { IfOk result (λ c. app_of c ≡ with_apps (app_of command.entry) below.entry.now) }
{
    let mut command = command;
    for subcommand in below {
        command = command.subcommand(subcommand.command(alloc)?)?;
    }
    Ok(command)
}

const CLIENTS: Described<'static> = Described {
    name: "clients",
    form: Form::Option("T"),
    help: "The clients of a queue, 1 to 16 [default: 4]",
};

const RECORDS: Described<'static> = Described {
    name: "records",
    form: Form::Option("K"),
    help: "The records of one client in a queue, 1 to 4096 [default: 256]",
};

const IMAGE: Described<'static> = Described {
    name: "image",
    form: Form::Option("FILE"),
    help: "Keeps the memory in this file; without it nothing outlives the program",
};

const JOURNAL: Described<'static> = Described {
    name: "journal",
    form: Form::Option("FILE"),
    help: "Has every change in this file before a reply that follows it, so that a kill loses nothing",
};

const STANDBY: Described<'static> = Described {
    name: "standby",
    form: Form::Flag,
    help: "Waits until the server that has the journal in etcd takes no connections any more",
};

const TAKE_OVER: Described<'static> = Described {
    name: "take-over",
    form: Form::Flag,
    help: "Takes the journal in etcd at once, from whoever has it",
};

const PATIENCE: Described<'static> = Described {
    name: "patience",
    form: Form::Option("S"),
    help: "The seconds for which etcd is asked again that does not answer [default: 60]",
};

const ANNOUNCE: Described<'static> = Described {
    name: "announce",
    form: Form::Option("HOST:PORT"),
    help: "Where others find the server of the journal in etcd [default: where it listens]",
};

const SYNC: Described<'static> = Described {
    name: "sync",
    form: Form::Option("WHEN"),
    help: "When the journal outlives a loss of power: always, second or never [default: second]",
};

/// `pipe [--clients T] [--records K] [--image FILE] [--journal FILE [--sync WHEN]] [--renew]`, and the options of a log
const PIPE: DescribedCommand<'static> = DescribedCommand {
    name: "pipe",
    about: "Answers the requests of standard input on standard output",
    notes: None,
    takes: &[
        CLIENTS,
        RECORDS,
        IMAGE,
        Described {
            name: "renew",
            form: Form::Flag,
            help: "Begins each queue of the file in fresh records: of T clients, K of each",
        },
        JOURNAL,
        SYNC,
        STANDBY,
        TAKE_OVER,
        PATIENCE,
    ],
};

/// `serve [--clients T] [--records K] [--image FILE] [--journal FILE [--sync WHEN]] [--renew] [--listen ADDRESS] [--port P]
/// [--metrics PORT] [--workers N] [--connections C] [--idle SECONDS] [--secret FILE]`, and the options of a log
const SERVE: DescribedCommand<'static> = DescribedCommand {
    name: "serve",
    about: "Answers the requests of connections to a port",
    notes: None,
    takes: &[
        CLIENTS,
        RECORDS,
        IMAGE,
        Described {
            name: "renew",
            form: Form::Flag,
            help: "Begins queues in fresh records: of the file, and then where there is no room",
        },
        JOURNAL,
        SYNC,
        STANDBY,
        TAKE_OVER,
        PATIENCE,
        ANNOUNCE,
        Described {
            name: "listen",
            form: Form::Option("ADDRESS"),
            help: "The address, where 0.0.0.0 is every one of IPv4 [default: 127.0.0.1]",
        },
        Described {
            name: "port",
            form: Form::Option("P"),
            help: "The port, 0 to 65535, where 0 lets the system choose [default: 7070]",
        },
        Described {
            name: "metrics",
            form: Form::Option("PORT"),
            help: "The port of this machine at which numbers are told: /metrics, /stats and a page",
        },
        Described {
            name: "workers",
            form: Form::Option("N"),
            help: "The threads that serve, 1 to 16 [default: 1, and 8 where each reply waits for the journal]",
        },
        Described {
            name: "connections",
            form: Form::Option("C"),
            help: "The connections that are open at most, 1 to 65536 [default: 1024]",
        },
        Described {
            name: "idle",
            form: Form::Option("SECONDS"),
            help: "Closes a connection over which no line comes for so long, 1 to 86400; without it none",
        },
        Described {
            name: "secret",
            form: Form::Option("FILE"),
            help: "Serves those alone whose first line says the secret in this file, of 32 bytes or more",
        },
    ],
};

/// `stats [--port P] [--watch]`
const STATS: DescribedCommand<'static> = DescribedCommand {
    name: "stats",
    about: "Prints the numbers that a server tells at its port of numbers",
    notes: None,
    takes: &[
        Described {
            name: "port",
            form: Form::Option("P"),
            help: "The port that the server has for numbers, 1 to 65535 [default: 7071]",
        },
        Described {
            name: "watch",
            form: Form::Flag,
            help: "Prints them again each second",
        },
    ],
};

static COMMANDS: [DescribedCommand<'static>; 3] = [PIPE, SERVE, STATS];

/// `pqd` without its commands.
const PQD: DescribedCommand<'static> = DescribedCommand {
    name: "pqd",
    about: "A broker of queues that outlive crashes",
    notes: None,
    takes: &[],
};

/// `pqd pipe`, `pqd serve`, `pqd stats`
pub(crate) fn pqd<'a>(alloc: Global) -> Result<Command<'a>, AllocError>
    ensures app { IfOk result (λ c. app_of c ≡ pqd_app) }
{
    let command = PQD.program(alloc).disable_help_subcommand(true);
    with_commands(alloc, command, &COMMANDS)
}
