//! The calls of the first so many steps of a recording, as the search takes them.

ghost use Rattle.std.specs.Prelude.{◌≡◌, IfOk};

use recording::{Act, Recording, Said};
use seeking::{Calls, Known};
use std::alloc::{AllocError, Global};

/// The calls of the first so many steps, and the step of each place.
#[derive(Drop)]
pub struct Prefix {
    pub calls: Calls,
    pub step_of: Vec<usize>,
    /// How many steps there are.
    pub count: usize,
}

/// Which calls were refused by then.
fn refused(alloc: Global, recording: &Recording, count: usize) -> Result<Vec<bool>, AllocError> {
    let mut refused = vec![in alloc; false; recording.calls.len()]?;
    for number in 0..count {
        if let Some(step) = recording.steps.get(number) {
            if let Act::Refuse(call) = step.act {
                if let Some(place) = refused.get_mut(call) {
                    *place = true;
                }
            }
        }
    }
    Ok(refused)
}

/// Calls that are put together, and by the numbers of clients those that are open.
#[derive(Drop)]
struct Walk {
    calls: Calls,
    step_of: Vec<usize>,
    /// For each call one more than its number among those that are not refused, and 0 for the others.
    number_of: Vec<usize>,
    holders: Vec<usize>,
}

impl Walk {
    /// One more than the number of the client's open call is this, and 0 if it has none.
    fn hold(&mut self, client: u32, number: usize) -> Result<(), AllocError> {
        for _ in self.holders.len()..(client as usize).saturating_add(1) {
            self.holders.push(0usize)?;
        }
        if let Some(holder) = self.holders.get_mut(client as usize) {
            *holder = number;
        }
        Ok(())
    }

    /// One more than the number of a call, and 0 if it is not there.
    fn number(&self, call: usize) -> usize {
        self.number_of.get(call).copied().unwrap_or(0)
    }

    fn begin(&mut self, recording: &Recording, call: usize, step: usize) -> Result<(), AllocError> {
        let Some(of) = recording.calls.get(call).copied() else {
            return Ok(());
        };
        let number = self.calls.begin(recording.asked_by(of))?.wrapping_add(1);
        if let Some(place) = self.number_of.get_mut(call) {
            *place = number;
        }
        self.hold(of.number, number)?;
        self.step_of.push(step)?;
        Ok(())
    }

    fn answer(
        &mut self,
        recording: &Recording,
        call: usize,
        said: Said,
        step: usize,
    ) -> Result<(), AllocError> {
        let Some(of) = recording.calls.get(call).copied() else {
            return Ok(());
        };
        let number = self.number(call).wrapping_sub(1);
        self.calls.answer(number, recording.reply_of(said));
        self.hold(of.number, 0)?;
        self.step_of.push(step)?;
        Ok(())
    }

    fn crash(&mut self, step: usize) -> Result<(), AllocError> {
        for number in &self.holders {
            if *number > 0 {
                self.calls.interrupt(number.wrapping_sub(1));
            }
        }
        self.holders.clear();
        self.calls.crash()?;
        self.step_of.push(step)?;
        self.step_of.push(step)?;
        Ok(())
    }

    fn learn(&mut self, call: usize, known: Known) {
        let number = self.number(call).wrapping_sub(1);
        self.calls.learn(number, known);
    }

    /// Takes the step of a number.
    fn take(
        &mut self,
        recording: &Recording,
        refused: &[bool],
        step: usize,
    ) -> Result<(), AllocError> {
        match recording.steps.get(step).copied().map(|step| step.act) {
            Some(Act::Begin(call)) if refused.get(call).copied() == Some(false) => {
                self.begin(recording, call, step)?;
            }
            Some(Act::Answer(call, said)) => self.answer(recording, call, said, step)?,
            Some(Act::Crash) => self.crash(step)?,
            Some(Act::LearnTaken(call, said)) => {
                self.learn(call, Known::Taken(recording.reply_of(said)));
            }
            Some(Act::LearnNotTaken(call)) => self.learn(call, Known::NotTaken),
            _ => {}
        }
        Ok(())
    }
}

/// The calls of the first so many steps.
pub fn prefix_of(alloc: Global, recording: &Recording, count: usize) -> Result<Prefix, AllocError>
    ensures { IfOk result (λ prefix. prefix.count ≡ count) }
{
    let refused = refused(alloc, recording, count)?;
    let mut walk = Walk {
        calls: Calls::with_room(alloc, recording.calls.len().min(count))?,
        step_of: Vec::with_capacity(alloc, recording.steps.len().min(count))?,
        number_of: vec![in alloc; 0usize; recording.calls.len()]?,
        holders: Vec::new(alloc),
    };
    for step in 0..count.min(recording.steps.len()) {
        walk.take(recording, &refused, step)?;
    }
    let Walk {
        calls,
        step_of,
        number_of: _,
        holders: _,
    } = walk;
    Ok(Prefix {
        calls,
        step_of,
        count,
    })
}

impl Prefix {
    /// The call that begins at a place.
    pub fn call_at(&self, recording: &Recording, place: usize) -> Option<usize> {
        let step = self.step_of.get(place).copied()?;
        match recording.steps.get(step)?.act {
            Act::Begin(call) => Some(call),
            _ => None,
        }
    }
}
