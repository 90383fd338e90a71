//! A world's acts on a memory of its own: each client's through the client's port, and recovery's through one of its
//! own.

ghost use Rattle.std.specs.Prelude.{◌≡◌, ◌≤◌, false, Ok, None};
ghost use Rattle.interleave.specs.Asked.{HoldsOver};
ghost use Rattle.interleave.specs.Rules.{evicting, IsByAloneOver, IsByRecoverOver, IsByRuleOver, IsByStartOver};
ghost use Rattle.interleave.specs.Rules.{IsByStepOver};

use crate::lent::Core;
use persist::{Change, Memory};
use words::{Call, Client, MAX_STEPS_ALONE, RECOVERY_PORT, Refusal, Reply};

impl Core {
    /// As [`Core::start`]. It asks for nothing, so that the port does not matter.
    pub(crate) fn start_in(
        &mut self,
        memory: &mut Memory,
        client: Client,
        number: u64,
        call: Call,
    ) -> Result<(), Refusal>
        requires { HoldsOver self.old memory.old }
        ensures by_rule { IsByStartOver client number call self.old memory.old.words result self.new memory.new.words }
        ensures holds { HoldsOver self.new memory.new }
    {
        self.start(memory, client, number, call)
    }

    /// As [`Core::step`], through the client's port.
    pub(crate) fn step_in(
        &mut self,
        memory: &mut Memory,
        client: Client,
    ) -> Result<Option<Reply>, Refusal>
        requires { HoldsOver self.old memory.old }
        ensures by_rule { IsByStepOver client self.old memory.old.words result self.new memory.new.words }
        ensures stays { result ≡ Ok None → self.old.trace.room ≤ self.new.trace.room }
        ensures holds { HoldsOver self.new memory.new }
    {
        // Of two clients at one port the one would keep what the other asked for, in place of its own word
        // (`two_clients_act_through_one_port`).
        self.step(&mut memory.port(client.0 as usize)?, client)
    }

    /// As [`Core::run_alone`], through the client's port.
    pub(crate) fn run_alone_in(
        &mut self,
        memory: &mut Memory,
        client: Client,
    ) -> Result<(Reply, u32), Refusal>
        requires { HoldsOver self.old memory.old }
        ensures alone { IsByAloneOver client self.old memory.old.words result self.new memory.new.words }
        ensures holds { HoldsOver self.new memory.new }
    {
        self.run_alone(&mut memory.port(client.0 as usize)?, client)
    }

    /// As [`Core::evict`]. It leaves every request, so that the port does not matter.
    pub(crate) fn evict_in(
        &mut self,
        memory: &mut Memory,
        word: usize,
    ) -> Result<Option<Change>, Refusal>
        requires { HoldsOver self.old memory.old }
        ensures by_rule { IsByRuleOver (evicting word) self.old memory.old.words result self.new memory.new.words }
        ensures room { self.new.trace.room ≡ self.old.trace.room }
        ensures holds { HoldsOver self.new memory.new }
    {
        self.evict(memory, word)
    }

    /// As [`Core::recover_step`], through recovery's port.
    pub(crate) fn recover_step_in(&mut self, memory: &mut Memory) -> Result<bool, Refusal>
        requires { HoldsOver self.old memory.old }
        ensures by_rule { IsByRecoverOver self.old memory.old.words result self.new memory.new.words }
        ensures stays { result ≡ Ok false → self.old.trace.room ≤ self.new.trace.room }
        ensures holds { HoldsOver self.new memory.new }
    {
        self.recover_step(&mut memory.port(RECOVERY_PORT)?)
    }
}
