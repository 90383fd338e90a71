//! The commands of `pqx`, and the options that they take.

ghost use Rattle.std.specs.Prelude.{◌≡◌, IfOk};
ghost use Rattle.clap.specs.Words.{app_of};
ghost use Rattle.command_lines.specs.PqxCommands.{pqx_app};

use crate::commands::{Described, DescribedCommand, Form, with_commands};
use crate::help::Notes;
use clap::Command;
use std::alloc::{AllocError, Global};

/// `run [--page FILE]`
const RUN: DescribedCommand<'static> = DescribedCommand {
    name: "run",
    about: "Follows the script that standard input has, and prints what happens",
    notes: Some(Notes::Scripts),
    takes: &[Described {
        name: "page",
        form: Form::Option("FILE"),
        help: "Shows the acts of the run on a page, which is written to this file",
    }],
};

/// `points [--evict none|all|drawn] [--draw N] [--from P] [--count N] [--page FILE]`
const POINTS: DescribedCommand<'static> = DescribedCommand {
    name: "points",
    about: "Crashes at each point of the script that standard input has, and prints what each recovery finds",
    notes: Some(Notes::Scripts),
    takes: &[
        Described {
            name: "evict",
            form: Form::Option("WORDS"),
            help: "Which words are kept just before each crash: none, all or drawn [default: none]",
        },
        Described {
            name: "draw",
            form: Form::Option("N"),
            help: "Where the draws of --evict drawn begin [default: 1]",
        },
        Described {
            name: "from",
            form: Form::Option("P"),
            help: "Prints the points from this one on, numbered as they are [default: 0]",
        },
        Described {
            name: "count",
            form: Form::Option("N"),
            help: "Prints at most so many points [default: all that are left]",
        },
        Described {
            name: "page",
            form: Form::Option("FILE"),
            help: "Shows the same on a page, which is written to this file",
        },
    ],
};

/// `alone`
const ALONE: DescribedCommand<'static> = DescribedCommand {
    name: "alone",
    about: "At each point of the script, lets each call under way go on alone, and prints its answer",
    notes: Some(Notes::Scripts),
    takes: &[],
};

/// `broker run`, `broker points [--evict none|all|drawn] [--draw N]`
const BROKER: DescribedCommand<'static> = DescribedCommand {
    name: "broker",
    about: "Follows the script of a whole broker that standard input has, or crashes the broker at each of its points",
    notes: Some(Notes::Brokers),
    takes: &[
        Described {
            name: "task",
            form: Form::Word("TASK"),
            help: "What is done with the script: run or points",
        },
        Described {
            name: "evict",
            form: Form::Option("WORDS"),
            help: "With points, which words are kept just before each crash: none, all or drawn [default: none]",
        },
        Described {
            name: "draw",
            form: Form::Option("N"),
            help: "Where the draws of --evict drawn begin [default: 1]",
        },
    ],
};

/// `check [--order] [--page FILE]`
const CHECK: DescribedCommand<'static> = DescribedCommand {
    name: "check",
    about: "Finds an order that explains the recording that standard input has, or says why there is none",
    notes: Some(Notes::Recordings),
    takes: &[
        Described {
            name: "order",
            form: Form::Flag,
            help: "Prints the entries of the order, too",
        },
        Described {
            name: "page",
            form: Form::Option("FILE"),
            help: "Shows the recording on a page, which is written to this file",
        },
    ],
};

static COMMANDS: [DescribedCommand<'static>; 5] = [RUN, POINTS, ALONE, BROKER, CHECK];

/// `pqx` without its commands.
const PQX: DescribedCommand<'static> = DescribedCommand {
    name: "pqx",
    about: "Follows scripts of single steps on a queue",
    notes: Some(Notes::Scripts),
    takes: &[],
};

/// `pqx run`, `pqx points`, `pqx alone`, `pqx broker`, `pqx check`
pub(crate) fn pqx<'a>(alloc: Global) -> Result<Command<'a>, AllocError>
    ensures app { IfOk result (λ c. app_of c ≡ pqx_app) }
{
    with_commands(alloc, PQX.program(alloc), &COMMANDS)
}
