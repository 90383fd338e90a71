//! A broker that follows a script.

ghost use Rattle.std.specs.Prelude.{◌≡◌, IfOk, IfErr, replicate};
ghost use Rattle.arena.specs.Limits.{AreCounts};
ghost use Rattle.broker_script.specs.Play.{new_played, no_steps, session_of};
ghost use Rattle.broker_script.specs.PutOff.{PutsOff};
ghost use Rattle.broker_script.specs.Transcript.{FollowsLine, FollowsWhole};
ghost use Rattle.named.specs.Brokers.{IsNew};
ghost use Rattle.named.specs.Promises.{KeepsPromises};
ghost use Rattle.session.specs.Keeping.{AreKeptAsHeard};
ghost use Rattle.session.specs.Sessions.{IsRight};

use arena::SLOTS;
use broker_lines::{Printed, Statement};
use directory::CREATION_STEPS;
use grammar::Command;
use named::Broker;
use playing::{Steps, Unfollowed};
use session::Session;
use std::alloc::Global;
use std::marker::Model;
use words::Refusal;

/// A session over a broker that follows a script, and how many steps its calls, its last creation and its recovery have
/// made.
#[derive(Drop)]
pub struct Player {
    pub(crate) session: Session,
    /// Those of the calls on each slot's queue.
    pub(crate) steps: [Steps; SLOTS],
    pub(crate) creation: u64,
    pub(crate) recovery: u64,
    /// The words of the image that is remembered: none at first.
    pub(crate) image: Vec<u64>,
}

impl Model for Player {
    ghost use Rattle.broker_script.specs.Play.{Played};
    ghost use Rattle.session.specs.Promises.{KeepsNumbers};

    ghost Value = { Played };

    ghost use Rattle.broker_script.specs.PlayerView.{player_view};

    ghost view = { player_view };

    ghost invariant = { λ p. KeepsNumbers p.session };
}

/// No call on any slot's queue has made a step.
pub(crate) fn no_steps() -> [Steps; SLOTS]
    ensures { result ≡ replicate SLOTS no_steps }
{
    [
        Steps::new(),
        Steps::new(),
        Steps::new(),
        Steps::new(),
        Steps::new(),
        Steps::new(),
        Steps::new(),
        Steps::new(),
    ]
}

impl Player {
    /// A new broker, on which no step was made, whose queues will have so many clients with so many records each.
    pub fn new(alloc: Global, clients: u32, records: u32) -> Result<Self, Refusal>
        requires { AreCounts clients records }
        ensures made { IfOk result (λ p. IsNew (record { clients = clients; records = records }) p.broker) }
        ensures kept { IfOk result (λ p. AreKeptAsHeard p.broker p.kept) }
        ensures played { IfOk result (λ p. p ≡ new_played (session_of p)) }
        ensures errors { IfErr result (λ e. e ≡ Refusal.NoMemory) }
    {
        let broker = Broker::make(alloc, clients, records)?;
        Ok(Player {
            session: Session::open(broker),
            steps: no_steps(),
            creation: 0,
            recovery: 0,
            image: Vec::new(alloc),
        })
    }

    /// Follows a line about the whole memory, and answers what it gives.
    fn follow_whole(&mut self, alloc: Global, command: &Command) -> Result<Vec<Printed>, Unfollowed>
        ensures follows { IfOk result (λ lines. FollowsWhole self.old command.now lines.items self.new) }
        ensures put_off { PutsOff self.old result self.new }
    {
        match command {
            Command::Evict { word } => self.evict(alloc, *word),
            Command::Crash => self.crash(alloc),
            Command::Recover => self.recover(alloc),
            Command::RecoverBy { most } => self.recover_by(alloc, *most),
            _ => Ok(Vec::new(alloc)),
        }
    }

    /// The broker, to look at.
    pub fn broker(&self) -> &Broker
        ensures broker { result.now ≡ self.now.broker }
        ensures promises { KeepsPromises self.now.broker }
    {
        self.session.broker()
    }

    /// The session over it, to look at.
    pub fn session(&self) -> &Session
        ensures session { result.now ≡ session_of self.now }
        ensures right { IsRight (session_of self.now) }
    {
        self.session.is_right();
        &self.session
    }

    /// How many steps recovery had since the last crash.
    pub fn recovery(&self) -> u64
        ensures { result ≡ self.now.recovery }
    {
        self.recovery
    }

    /// Follows a line, and answers what it gives: of an act that is refused the one line that says why. For want of
    /// memory it gives none. Then nothing was made of it (PutOff), or it is half followed (Halfway).
    pub fn follow(
        &mut self,
        alloc: Global,
        statement: &Statement,
    ) -> Result<Vec<Printed>, Unfollowed>
        ensures follows { IfOk result (λ lines. FollowsLine self.old statement.now lines.items self.new) }
        ensures put_off { PutsOff self.old result self.new }
    {
        match statement {
            Statement::Create { name, kind } => {
                self.begin_creation(alloc, name, *kind, CREATION_STEPS as u32)
            }
            Statement::BeginCreation { name, kind, most } => {
                self.begin_creation(alloc, name, *kind, *most)
            }
            Statement::CreateStep => self.create(alloc, 1),
            Statement::CreateSteps { most } => self.create(alloc, *most),
            Statement::Find { name } => self.find(alloc, name),
            Statement::List => self.list(alloc),
            Statement::Rotate => self.rotate(alloc),
            Statement::Renew { name } => self.renew(alloc, name),
            Statement::Image => self.remember(alloc),
            Statement::SetWord { word, value } => self.set_word(alloc, *word, *value),
            Statement::Boot => self.boot(alloc),
            Statement::Whole { command } => self.follow_whole(alloc, command),
            Statement::On { name, command } => self.follow_on(alloc, name, command),
            Statement::Told { name, client } => self.tell(alloc, name, *client),
            Statement::Asks { name, ask } => self.follow_ask(alloc, name, ask),
        }
    }
}
