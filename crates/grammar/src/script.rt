//! A script as a value.

ghost use Rattle.std.specs.Prelude.{◌≡◌, IfSome};
ghost use Rattle.grammar.specs.Grammar.{IsServedQueue};

use crate::commands::{Command, QueueLine};
use std::marker::Model;

/// No queue and nothing to do, or a queue that is served and the commands on it, in order.
#[derive(Drop)]
pub struct Script {
    pub(crate) queue: Option<QueueLine>,
    pub(crate) commands: Vec<Command>,
}

impl Model for Script {
    ghost use Rattle.std.specs.Prelude.{IfSome};
    ghost use Rattle.grammar.specs.Grammar.{IsServedQueue};
    ghost use Rattle.grammar.specs.Scripted.{Scripted};

    ghost Value = { Scripted };

    ghost view = { λ script. record { queue = script.queue; commands = script.commands.items } };

    ghost invariant = { λ script. IfSome script.queue IsServedQueue };
}

impl Script {
    /// The queue that is followed, if there is one.
    pub fn queue(&self) -> Option<QueueLine>
        ensures queue { result ≡ self.now.queue }
        ensures served { IfSome result IsServedQueue }
    {
        self.queue
    }

    /// What is done on it, in order.
    pub fn commands(&self) -> &[Command]
        ensures { result.now ≡ self.now.commands }
    {
        &self.commands
    }
}
