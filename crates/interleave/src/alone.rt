//! A call that goes on alone.

ghost use Rattle.std.specs.Prelude.{◌≡◌, ◌+◌, slice_index_or, None, IfOk, IfErr};
ghost use Rattle.interleave.specs.Asked.{IfCallAsked, IsLentAlone};
ghost use Rattle.interleave.specs.Core.{state_of};
ghost use Rattle.interleave.specs.Holds.{Holds};
ghost use Rattle.interleave.specs.Rules.{IsByAloneOver};

use crate::lent::Core;
use persist::EvictableWords;
use words::{Client, MAX_STEPS_ALONE, Refusal, Reply};

impl Core {
    /// A client's call goes on alone until it answers: its reply, and how many steps that took, at most
    /// [`MAX_STEPS_ALONE`] from wherever it waits. The words are lent through the client's port, as to
    /// [`Core::step`]. It is refused, in this order, where there is no such client (NoClient), where recovery is under
    /// way (NotReady), where it has no call (Idle), and, before its first step, for want of memory (NoMemory).
    pub fn run_alone<M: EvictableWords>(
        &mut self,
        memory: &mut M,
        client: Client,
    ) -> Result<(Reply, u32), Refusal>
        requires holds { Holds (state_of self.old (M.words memory.old)) }
        requires asked { IfCallAsked self.old.shape (slice_index_or self.old.calls client.0 None)
            (M.lent memory.old).request }
        ensures alone { IsByAloneOver client self.old (M.words memory.old) result self.new (M.words memory.new) }
        ensures holds { Holds (state_of self.new (M.words memory.new)) }
        ensures lent { IfOk result
            (IsLentAlone client self.old (M.words memory.old) (M.lent memory.old) (M.lent memory.new)) }
        ensures left { IfErr result (λ e. M.lent memory.new ≡ M.lent memory.old) }
    {
        self.waiting(client)?;
        self.reserve(1)?;
        let mut steps = 0u32;
        loop {
            let answer = self.step(memory, client)?;
            steps += 1;
            if let Some(reply) = answer {
                return Ok((reply, steps));
            }
        }
    }
}
