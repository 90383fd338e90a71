//! A broker's script as a value.

ghost use Rattle.std.specs.Prelude.{◌≡◌, IfSome};
ghost use Rattle.broker_lines.specs.Grammar.{IsServedBroker};

use broker_lines::{BrokerLine, Statement};
use std::marker::Model;

/// No broker and nothing to do, or a broker that is served and what is done on it, in order.
#[derive(Drop)]
pub struct Script {
    pub(crate) broker: Option<BrokerLine>,
    pub(crate) statements: Vec<Statement>,
}

impl Model for Script {
    ghost use Rattle.std.specs.Prelude.{IfSome};
    ghost use Rattle.broker_lines.specs.Grammar.{IsServedBroker};
    ghost use Rattle.broker_lines.specs.Scripted.{Scripted};

    ghost Value = { Scripted };

    ghost view = { λ script. record { broker = script.broker; statements = script.statements.items } };

    ghost invariant = { λ script. IfSome script.broker IsServedBroker };
}

impl Script {
    /// The broker that it is about, if it is about one.
    pub fn broker(&self) -> Option<BrokerLine>
        ensures broker { result ≡ self.now.broker }
        ensures served { IfSome result IsServedBroker }
    {
        self.broker
    }

    /// What is done on it, in order.
    pub fn statements(&self) -> &[Statement]
        ensures { result.now ≡ self.now.statements }
    {
        &self.statements
    }
}
