//! A world that follows a script.

ghost use Rattle.std.specs.Prelude.{◌≡◌, ◌++◌, ◌∷◌, [], Ok, IfOk, IfErr, IsErrOf, OnErr, OnOk, false, true};
ghost use Rattle.std.specs.List.{flat_map};
ghost use Rattle.grammar.specs.Grammar.{is_shown};
ghost use Rattle.playing.specs.Play.{most_alone, most_recovery, new_play, play_after_start, after_steps, after_eviction, play_after_crash, after_recovery, after_command, EndsAtNextStep};
ghost use Rattle.playing.specs.Transcript.{start_lines, step_lines, ready_lines, recovery_lines, command_lines, entry_lines, AddsLastLines, GoesOnRecovering};

use crate::entries::named_call;
use crate::lines::{Line, Values, add, add_refused};
use crate::put_off::Unfollowed;
use crate::steps::Steps;
use arena::Layout;
use events::{Entry, Events};
use grammar::{Command, is_shown};
use interleave::World;
use std::alloc::Global;
use std::marker::Model;
use words::{Call, Client, Refusal};

/// Shows the calls that entries of an order name.
fn show_entries(lines: &mut Vec<Line>, events: &Events, entries: &[Entry]) -> Result<(), Refusal>
    ensures lines { OnOk result (lines.new.items
        ≡ lines.old.items ++ flat_map (entry_lines events.now.items) entries.now) }
    ensures errors { IfErr result (λ e. e ≡ Refusal.NoMemory) }
{
    for entry in entries {
        if let Some(ordered) = named_call(events, *entry) {
            add(lines, Line::Entry(ordered))?;
        }
    }
    Ok(())
}

/// A world that follows commands, and how many steps its calls and its recovery have made.
#[derive(Drop)]
pub(crate) struct Player {
    world: World,
    steps: Steps,
}

impl Model for Player {
    ghost use Rattle.playing.specs.Play.{Play};

    ghost Value = { Play };

    ghost view = { λ p. record { world = p.world.now; steps = p.steps } };
}

impl Player {
    /// A new world, in which no step was made.
    pub(crate) fn new(alloc: Global, layout: Layout) -> Result<Self, Refusal>
        ensures made { IfOk result (λ player. player ≡ new_play layout) }
        ensures errors { IfErr result (λ e. e ≡ Refusal.NoMemory) }
    {
        let world = World::make(alloc, layout)?;
        let steps = Steps::new();
        Ok(Player { world, steps })
    }

    /// Starts a call.
    fn start(
        &mut self,
        lines: &mut Vec<Line>,
        command: &Command,
        client: Client,
        number: u64,
        call: Call,
    ) -> Result<(), Refusal>
        ensures play { OnOk result (self.new ≡ play_after_start self.old client number call) }
        ensures lines { OnOk result (lines.new.items
            ≡ lines.old.items ++ start_lines self.old command.now client number call) }
        ensures errors { IfErr result (λ e. e ≡ Refusal.NoMemory) }
    {
        match self.world.start(client, number, call) {
            Ok(()) => {
                self.steps.begin(client);
                // As its line stands, so that a transcript is read without its script.
                add(lines, Line::Call(*command))
            }
            Err(refusal) => add_refused(lines, refusal),
        }
    }

    /// Goes on with a call by at most so many steps.
    fn go_on(&mut self, lines: &mut Vec<Line>, client: Client, most: u32) -> Result<(), Refusal>
        ensures play { OnOk result (self.new ≡ after_steps client most self.old) }
        ensures lines { OnOk result (lines.new.items ≡ lines.old.items ++ step_lines client most self.old) }
        ensures errors { IfErr result (λ e. e ≡ Refusal.NoMemory) }
    {
        for _ in 0..most {
            match self.world.step(client) {
                Err(refusal) => return add_refused(lines, refusal),
                Ok(answer) => {
                    let steps = self.steps.go_on(client, 1);
                    // Steps that are left over would be refused.
                    if let Some(reply) = answer {
                        return add(
                            lines,
                            Line::Return {
                                client,
                                reply,
                                steps,
                            },
                        );
                    }
                }
            }
        }
        Ok(())
    }

    /// Goes on with a call alone, to its answer.
    fn end(&mut self, lines: &mut Vec<Line>, client: Client) -> Result<(), Refusal>
        ensures play { OnOk result (self.new ≡ after_steps client most_alone self.old) }
        ensures lines { OnOk result (lines.new.items ≡ lines.old.items ++ step_lines client most_alone self.old) }
        ensures errors { IfErr result (λ e. e ≡ Refusal.NoMemory) }
    {
        match self.world.run_alone(client) {
            Ok((reply, alone)) => {
                let steps = self.steps.go_on(client, u64::from(alone));
                add(
                    lines,
                    Line::Return {
                        client,
                        reply,
                        steps,
                    },
                )
            }
            Err(refusal) => add_refused(lines, refusal),
        }
    }

    /// The environment keeps a word.
    fn evict(&mut self, lines: &mut Vec<Line>, word: u64) -> Result<(), Refusal>
        ensures play { OnOk result (self.new ≡ after_eviction self.old word) }
        ensures lines { OnOk result (lines.new.items
            ≡ lines.old.items ++ command_lines self.old (Command.Evict word)) }
        ensures errors { IfErr result (λ e. e ≡ Refusal.NoMemory) }
    {
        match self.world.evict(word as usize) {
            Ok(change) => add(
                lines,
                Line::Evicted {
                    word,
                    changed: change.is_some(),
                },
            ),
            Err(refusal) => add_refused(lines, refusal),
        }
    }

    /// The whole system stops.
    fn crash(&mut self, lines: &mut Vec<Line>) -> Result<(), Refusal>
        ensures play { OnOk result (self.new ≡ play_after_crash self.old) }
        ensures lines { OnOk result (lines.new.items ≡ lines.old.items ++ Line.Crash ∷ []) }
        ensures errors { IfErr result (λ e. e ≡ Refusal.NoMemory) }
    {
        // It is refused for want of memory alone, which is no line.
        self.world.crash()?;
        self.steps.crash();
        add(lines, Line::Crash)
    }

    /// Shows that the queue is ready, and what each client is told.
    fn show_ready(&self, lines: &mut Vec<Line>) -> Result<(), Refusal>
        ensures lines { OnOk result (lines.new.items ≡ lines.old.items ++ ready_lines self.now) }
        ensures errors { IfErr result (λ e. e ≡ Refusal.NoMemory) }
    {
        add(
            lines,
            Line::Ready {
                steps: self.steps.recovery,
            },
        )?;
        for number in 0..self.world.layout().clients() {
            let client = Client(number as u8);
            let told = self.world.told(client);
            add(lines, Line::Told { client, told })?;
        }
        Ok(())
    }

    /// One step of recovery. It answers whether that ends the command: where the queue is ready now, or the step is
    /// refused.
    fn recover_step(&mut self, lines: &mut Vec<Line>) -> Result<bool, Refusal>
        ensures going { result ≡ Ok false → GoesOnRecovering self.old self.new lines.old.items lines.new.items }
        ensures play { result ≡ Ok true → EndsAtNextStep self.old self.new }
        ensures lines { result ≡ Ok true → AddsLastLines self.old lines.old.items lines.new.items }
        ensures errors { IfErr result (λ e. e ≡ Refusal.NoMemory) }
    {
        match self.world.recover_step() {
            Err(refusal) => {
                add_refused(lines, refusal)?;
                Ok(true)
            }
            Ok(ready) => {
                self.steps.recover();
                if ready {
                    self.show_ready(lines)?;
                }
                Ok(ready)
            }
        }
    }

    /// Recovery goes on by at most so many steps.
    fn recover_by(&mut self, lines: &mut Vec<Line>, most: u32) -> Result<(), Refusal>
        ensures play { OnOk result (self.new ≡ after_recovery most self.old) }
        ensures lines { OnOk result (lines.new.items ≡ lines.old.items ++ recovery_lines most self.old) }
        ensures errors { IfErr result (λ e. e ≡ Refusal.NoMemory) }
    {
        for _ in 0..most {
            if self.recover_step(lines)? {
                return Ok(());
            }
        }
        add(lines, Line::Recovering)
    }

    /// Recovery goes on to its end.
    fn recover(&mut self, lines: &mut Vec<Line>) -> Result<(), Refusal>
        ensures play { OnOk result (self.new ≡ after_recovery (most_recovery self.old.world) self.old) }
        ensures lines { OnOk result (lines.new.items ≡ lines.old.items ++ command_lines self.old Command.Recover) }
        ensures errors { IfErr result (λ e. e ≡ Refusal.NoMemory) }
    {
        while !self.recover_step(lines)? {}
        Ok(())
    }

    /// Shows what the queue holds.
    fn show_content(&self, lines: &mut Vec<Line>) -> Result<(), Refusal>
        ensures lines { OnOk result (lines.new.items ≡ lines.old.items ++ command_lines self.now Command.Content) }
        ensures errors { IfErr result (λ e. e ≡ Refusal.NoMemory) }
    {
        let values = self.world.content()?;
        add(lines, Line::Content(Values::from_vec(values)))
    }

    /// Shows in which order the calls took effect. An entry names a call; one that did not would show nothing.
    fn show_order(&self, lines: &mut Vec<Line>) -> Result<(), Refusal>
        ensures lines { OnOk result (lines.new.items ≡ lines.old.items ++ command_lines self.now Command.Order) }
        ensures errors { IfErr result (λ e. e ≡ Refusal.NoMemory) }
    {
        let order = self.world.order()?;
        let entries = order.entries.as_slice();
        add(lines, Line::Order(entries.len()))?;
        show_entries(lines, &self.world.history().events, entries)
    }

    /// Shows what a command asks for: all of it or nothing.
    fn show(&self, lines: &mut Vec<Line>, command: &Command) -> Result<(), Refusal>
        requires { is_shown command.now ≡ true }
        ensures lines { OnOk result (lines.new.items ≡ lines.old.items ++ command_lines self.now command.now) }
        ensures same { OnErr result (lines.new.items ≡ lines.old.items) }
    {
        let mut shown = Vec::new(*lines.allocator());
        match command {
            Command::Content => self.show_content(&mut shown)?,
            Command::Order => self.show_order(&mut shown)?,
            _ => unreachable!(),
        }
        lines.append(&mut shown).map_err(|_| Refusal::NoMemory)
    }

    /// Makes room for an act in the history, and for its lines.
    fn make_room(&mut self, lines: &mut Vec<Line>, command: &Command) -> Result<(), Refusal>
        ensures play { self.new ≡ self.old }
        ensures lines { lines.new.items ≡ lines.old.items }
    {
        // Nothing is made where an act was made already.
        if let Command::Again = command {
            return Ok(());
        }
        self.world.reserve(1)?;
        // At the end of recovery each client has a line.
        let most = self.world.layout().clients() as usize + 1;
        lines.reserve(most).map_err(|_| Refusal::NoMemory)
    }

    /// Makes what a command asks for, and adds its lines.
    fn make(&mut self, lines: &mut Vec<Line>, command: &Command) -> Result<(), Refusal>
        ensures play { OnOk result (self.new ≡ after_command self.old command.now) }
        ensures lines { OnOk result (lines.new.items ≡ lines.old.items ++ command_lines self.old command.now) }
        ensures errors { IfErr result (λ e. e ≡ Refusal.NoMemory) }
    {
        match command {
            Command::Enq { client, value } => {
                self.start(lines, command, *client, 0, Call::Enq(*value))
            }
            Command::NumberedEnq {
                client,
                number,
                value,
            } => self.start(lines, command, *client, *number, Call::Enq(*value)),
            Command::Deq { client } => self.start(lines, command, *client, 0, Call::Deq),
            Command::NumberedDeq { client, number } => {
                self.start(lines, command, *client, *number, Call::Deq)
            }
            Command::Step { client, most } => self.go_on(lines, *client, *most),
            Command::End { client } => self.end(lines, *client),
            Command::Evict { word } => self.evict(lines, *word),
            Command::Crash => self.crash(lines),
            Command::Recover => self.recover(lines),
            Command::RecoverBy { most } => self.recover_by(lines, *most),
            Command::Content => self.show_content(lines),
            Command::Order => self.show_order(lines),
            Command::Again => Ok(()),
        }
    }

    /// Follows a command, and adds its lines. For want of memory it adds none. Then nothing was made of it (PutOff), or
    /// it is half followed (Halfway).
    pub(crate) fn follow(
        &mut self,
        lines: &mut Vec<Line>,
        command: &Command,
    ) -> Result<(), Unfollowed>
        ensures play { OnOk result (self.new ≡ after_command self.old command.now) }
        ensures lines { OnOk result (lines.new.items ≡ lines.old.items ++ command_lines self.old command.now) }
        ensures same_play { IsErrOf result Unfollowed.PutOff → self.new ≡ self.old }
        ensures same_lines { IsErrOf result Unfollowed.PutOff → lines.new.items ≡ lines.old.items }
    {
        // With this room an act is refused no memory, nor its lines once it was made.
        if self.make_room(lines, command).is_err() {
            return Err(Unfollowed::PutOff);
        }
        if is_shown(command) {
            self.show(lines, command).map_err(|_| Unfollowed::PutOff)
        } else {
            self.make(lines, command).map_err(|_| Unfollowed::Halfway)
        }
    }
}
