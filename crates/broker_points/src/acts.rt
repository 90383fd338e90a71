//! The acts of a broker's script: each is a line of its own that makes one step at most.

ghost use Rattle.std.specs.Prelude.{◌≡◌, ◌++◌, ◌∷◌, [], Some, OnOk, IfOk, IfErr, List, replicate};
ghost use Rattle.broker_lines.specs.declared.statements.Statement.{Statement};
ghost use Rattle.broker_points.specs.Acts.{act_of, beginning, plain_command, steps_of, is_refusal, is_refused, says_refused, times_of, AreActsOf, IsAttempted};
ghost use Rattle.broker_points.specs.Made.{Adds, AddsActsOf, AddsAsked, AddsBegun, AddsCreation};

use broker_lines::{Ask, Printed, Statement};
use broker_script::{Player, asker};
use directory::{CREATION_STEPS, Name};
use grammar::Command;
use playing::{Line, push};
use std::alloc::Global;
use words::{Call, Client, Kind, MAX_STEPS_ALONE, Refusal};

/// Whether a line of a queue says that an act was refused.
fn is_refusal(line: &Line) -> bool
    ensures { result ≡ is_refusal line.now }
{
    matches!(line, Line::Refused(_))
}

/// Whether a line says so.
fn says_refused(line: &Printed) -> bool
    ensures { result ≡ says_refused line.now }
{
    match line {
        Printed::Whole(line) => is_refusal(line),
        Printed::Of { line, .. } => is_refusal(line),
        Printed::Unsound(_) => true,
        _ => false,
    }
}

/// Whether an act that gave these lines was refused.
fn is_refused(lines: &[Printed]) -> bool
    ensures { result ≡ is_refused lines.now }
{
    match lines.first() {
        Some(line) => says_refused(line),
        None => false,
    }
}

/// Attempts an act, and answers whether it was accepted.
fn attempt(alloc: Global, player: &mut Player, act: &Statement) -> Result<bool, Refusal>
    ensures attempted { IfOk result (λ accepted. IsAttempted player.old act.now accepted player.new) }
    ensures errors { IfErr result (λ e. e ≡ Refusal.NoMemory) }
{
    match player.follow(alloc, act) {
        Ok(lines) => Ok(!is_refused(&lines)),
        Err(_) => Err(Refusal::NoMemory),
    }
}

/// Adds a line.
fn add(acts: &mut Vec<Statement>, act: &Statement) -> Result<(), Refusal>
    ensures acts { OnOk result (acts.new.items ≡ acts.old.items ++ act.now ∷ []) }
    ensures errors { IfErr result (λ e. e ≡ Refusal.NoMemory) }
{
    // A line that has a command is copied field by field: the copy of the whole line has no proof.
    match act {
        Statement::Whole { command } => push(acts, Statement::Whole { command: *command }),
        Statement::On { name, command } => push(
            acts,
            Statement::On {
                name: *name,
                command: *command,
            },
        ),
        Statement::Asks { name, ask } => push(
            acts,
            Statement::Asks {
                name: *name,
                ask: *ask,
            },
        ),
        _ => push(acts, *act),
    }
}

/// Attempts an act at most so many times and until it is refused, and adds it as often as it was accepted.
fn repeat(
    alloc: Global,
    player: &mut Player,
    acts: &mut Vec<Statement>,
    act: &Statement,
    most: u32,
) -> Result<(), Refusal>
    ensures acts { OnOk result
        (Adds player.old (replicate most act.now) acts.old.items acts.new.items player.new) }
    ensures errors { IfErr result (λ e. e ≡ Refusal.NoMemory) }
{
    for _ in 0..most {
        let accepted = attempt(alloc, player, act)?;
        if !accepted {
            return Ok(());
        }
        add(acts, act)?;
    }
    Ok(())
}

/// Attempts an act that begins something, and then at most so many steps of that.
fn begin(
    alloc: Global,
    player: &mut Player,
    acts: &mut Vec<Statement>,
    first: &Statement,
    step: &Statement,
    most: u32,
) -> Result<(), Refusal>
    ensures acts { OnOk result
        (AddsBegun first.now step.now most player.old acts.old.items acts.new.items player.new) }
    ensures errors { IfErr result (λ e. e ≡ Refusal.NoMemory) }
{
    let accepted = attempt(alloc, player, first)?;
    if !accepted {
        return Ok(());
    }
    add(acts, first)?;
    repeat(alloc, player, acts, step, most)
}

/// Begins a creation, and has it make at most so many steps.
fn create(
    alloc: Global,
    player: &mut Player,
    acts: &mut Vec<Statement>,
    name: &Name,
    kind: Kind,
    most: u32,
) -> Result<(), Refusal>
    ensures acts { OnOk result
        (AddsCreation name.now kind most player.old acts.old.items acts.new.items player.new) }
    ensures errors { IfErr result (λ e. e ≡ Refusal.NoMemory) }
{
    let first = Statement::BeginCreation {
        name: *name,
        kind,
        most: 0,
    };
    begin(alloc, player, acts, &first, &Statement::CreateStep, most)
}

/// A call of a durable queue, as its line begins it.
fn plain_command(client: Client, call: Call) -> Command
    ensures { result ≡ plain_command client call }
{
    match call {
        Call::Enq(value) => Command::Enq { client, value },
        Call::Deq => Command::Deq { client },
    }
}

/// How what is asked begins.
fn beginning(name: &Name, ask: &Ask) -> Statement
    ensures { result ≡ beginning name.now ask.now }
{
    match ask {
        Ask::Request {
            client,
            number,
            call,
        }
        | Ask::Begin {
            client,
            number,
            call,
        } => Statement::Asks {
            name: *name,
            ask: Ask::Begin {
                client: *client,
                number: *number,
                call: *call,
            },
        },
        Ask::Plain { client, call } => Statement::On {
            name: *name,
            command: plain_command(*client, *call),
        },
    }
}

/// How many steps it goes on by at most.
fn steps_of(ask: &Ask) -> u32
    ensures { result ≡ steps_of ask.now }
{
    match ask {
        Ask::Request { .. } => MAX_STEPS_ALONE,
        Ask::Plain { .. } => MAX_STEPS_ALONE,
        Ask::Begin { .. } => 0,
    }
}

/// Begins what is asked, and goes on with it.
fn ask_for(
    alloc: Global,
    player: &mut Player,
    acts: &mut Vec<Statement>,
    name: &Name,
    ask: &Ask,
) -> Result<(), Refusal>
    ensures acts { OnOk result (AddsAsked name.now ask.now player.old acts.old.items acts.new.items player.new) }
    ensures errors { IfErr result (λ e. e ≡ Refusal.NoMemory) }
{
    let first = beginning(name, ask);
    let step = Statement::On {
        name: *name,
        command: Command::Step {
            client: asker(ask),
            most: 1,
        },
    };
    begin(alloc, player, acts, &first, &step, steps_of(ask))
}

/// What a line of a queue's script attempts at a time.
fn act_of(command: &Command) -> Command
    ensures { result ≡ act_of command.now }
{
    match command {
        Command::Step { client, .. } | Command::End { client } => Command::Step {
            client: *client,
            most: 1,
        },
        Command::Recover | Command::RecoverBy { .. } => Command::RecoverBy { most: 1 },
        _ => *command,
    }
}

/// How often at most.
fn times_of(command: &Command) -> u32
    ensures { result ≡ times_of command.now }
{
    match command {
        Command::Step { most, .. } | Command::RecoverBy { most } => *most,
        Command::End { .. } => MAX_STEPS_ALONE,
        // A step past the end of a recovery is refused: the greatest count will do.
        Command::Recover => u32::MAX,
        Command::Content | Command::Order | Command::Again => 0,
        _ => 1,
    }
}

/// Attempts what a line asks for, and adds the acts that were accepted.
fn follow(
    alloc: Global,
    player: &mut Player,
    acts: &mut Vec<Statement>,
    statement: &Statement,
) -> Result<(), Refusal>
    ensures acts { OnOk result
        (AddsActsOf statement.now player.old acts.old.items acts.new.items player.new) }
    ensures errors { IfErr result (λ e. e ≡ Refusal.NoMemory) }
{
    match statement {
        Statement::Create { name, kind } => {
            create(alloc, player, acts, name, *kind, CREATION_STEPS as u32)
        }
        Statement::BeginCreation { name, kind, most } => {
            create(alloc, player, acts, name, *kind, *most)
        }
        Statement::CreateStep
        | Statement::Rotate
        | Statement::Renew { .. }
        | Statement::Image
        | Statement::SetWord { .. }
        | Statement::Boot => repeat(alloc, player, acts, statement, 1),
        Statement::CreateSteps { most } => {
            repeat(alloc, player, acts, &Statement::CreateStep, *most)
        }
        Statement::Whole { command } => {
            let act = Statement::Whole {
                command: act_of(command),
            };
            repeat(alloc, player, acts, &act, times_of(command))
        }
        Statement::On { name, command } => {
            let act = Statement::On {
                name: *name,
                command: act_of(command),
            };
            repeat(alloc, player, acts, &act, times_of(command))
        }
        Statement::Asks { name, ask } => ask_for(alloc, player, acts, name, ask),
        Statement::Find { .. } | Statement::List | Statement::Told { .. } => Ok(()),
    }
}

/// The acts that these lines make on a broker, in order: those of each line that are accepted.
pub(crate) fn accepted_acts(
    alloc: Global,
    mut player: Player,
    statements: &[Statement],
) -> Result<Vec<Statement>, Refusal>
    ensures acts { IfOk result (λ acts. AreActsOf player statements.now acts.items) }
    ensures errors { IfErr result (λ e. e ≡ Refusal.NoMemory) }
{
    let mut acts = Vec::new(alloc);
    for statement in statements {
        follow(alloc, &mut player, &mut acts, statement)?;
    }
    Ok(acts)
}
