//! Puts together a recording, line by line.

ghost use Rattle.std.specs.Prelude.{◌≡◌, Some, codes, length, map, option_map, slice_get, unwrap_or};
ghost use Rattle.std.specs.Prelude.{IfOk, IsTrue, OnOk};
ghost use Rattle.std.specs.String.{string_bytes};
ghost use Rattle.recording.specs.Reading.{number_in, with_client, with_value, with_put, with_step, with_call};
ghost use Rattle.recording.specs.Reading.{next_number, does_put, said_by, with_got, with_free};
ghost use Rattle.recording.specs.Reading.{with_answer, MayAnswer, with_crash, crashed, with_state, with_number};
ghost use Rattle.recording.specs.Reading.{after_answer, IsBeginLine, IsAnswerLine, IsToldLine, IsLine};
ghost use Rattle.recording.specs.Reading.{with_base_value, with_base, with_left_value, with_left, with_final};
ghost use Rattle.recording.specs.Reader.{read_of, bytes_of, IsOfRead};
ghost use Rattle.recording.specs.Recording.{AreDistinct};

use crate::act::{Act, CallOf, Recording, Said, Step};
use crate::fault::{Fault, Why};
use crate::line::{Answered, Line, Told};
use crate::ranks::ranks_of;
use crate::state::State;
use crate::wording::shown;
use indexmap::IndexSet;
use std::alloc::{AllocError, Global};

/// What a recording has come to. Clients and values have numbers, as they first come.
#[derive(Drop)]
pub(crate) struct Reader {
    alloc: Global,
    clients: IndexSet<String>,
    /// What each client is about.
    states: Vec<State>,
    values: IndexSet<String>,
    /// How many numbers by which a history knows clients were given since the last crash, and those that are free again.
    numbers: u32,
    free: Vec<u32>,
    calls: Vec<CallOf>,
    steps: Vec<Step>,
    times: Vec<String>,
    is_over: bool,
}

/// A line, and one more than the number of its time.
#[derive(Clone, Copy)]
pub(crate) struct At {
    pub line: u32,
    pub time: u32,
}

impl Reader {
    pub(crate) fn new(alloc: Global) -> Self {
        Reader {
            alloc,
            clients: IndexSet::new(alloc),
            states: Vec::new(alloc),
            values: IndexSet::new(alloc),
            numbers: 0,
            free: Vec::new(alloc),
            calls: Vec::new(alloc),
            steps: Vec::new(alloc),
            times: Vec::new(alloc),
            is_over: false,
        }
    }

    /// Keeps the text of a time, and answers one more than its number.
    pub(crate) fn keep_time(&mut self, text: String) -> Result<u32, Fault> {
        self.times.push(text)?;
        Ok(u32::try_from(self.times.len()).unwrap_or(0))
    }

    /// The number of a client.
    pub(crate) fn client(&mut self, text: String) -> Result<usize, Fault>
        ensures number { IfOk result (λ n. n ≡ number_in (read_of self.old).clients (string_bytes text)) }
        ensures read { OnOk result (read_of self.new ≡ with_client (read_of self.old) (string_bytes text)) }
    {
        let (client, is_new) = self.clients.insert_full(text)?;
        if is_new {
            self.states.push(State::Idle)?;
        }
        Ok(client)
    }

    /// The number of a value.
    fn value(&mut self, text: String) -> Result<usize, Fault>
        ensures number { IfOk result (λ n. n ≡ number_in (read_of self.old).values (string_bytes text)) }
        ensures read { OnOk result (read_of self.new ≡ with_value (read_of self.old) (string_bytes text)) }
    {
        let (value, _is_new) = self.values.insert_full(text)?;
        Ok(value)
    }

    /// A step more.
    fn add(&mut self, act: Act, at: At) -> Result<(), Fault>
        ensures { OnOk result (read_of self.new ≡ with_step (read_of self.old) act at) }
    {
        self.steps.push(Step {
            act,
            line: at.line,
            time: at.time,
        })?;
        Ok(())
    }

    /// What a client's name shows.
    fn client_text(&self, client: usize) -> Result<String, Fault> {
        match self.clients.get_index(client) {
            Some(text) => Ok(shown(self.alloc, text.as_str())?),
            None => Ok(String::new(self.alloc)),
        }
    }

    /// The number of the value that a call puts, if it puts one.
    fn put(&mut self, puts: Option<String>) -> Result<Option<usize>, Fault>
        ensures number { IfOk result (λ n. n ≡ option_map (number_in (read_of self.old).values) (bytes_of puts)) }
        ensures read { OnOk result (read_of self.new ≡ with_put (read_of self.old) (bytes_of puts)) }
    {
        match puts {
            Some(text) => Ok(Some(self.value(text)?)),
            None => Ok(None),
        }
    }

    /// A number for a client: the last one that is free again, or a new one.
    fn give_number(&mut self) -> Result<u32, Fault>
        ensures number { IfOk result (λ number. number ≡ next_number (read_of self.old)) }
        ensures read { OnOk result (read_of self.new ≡ with_number (read_of self.old)) }
    {
        if let Some(number) = self.free.pop() {
            return Ok(number);
        }
        let number = self.numbers;
        let Some(numbers) = number.checked_add(1) else {
            // There are more calls open than a number can count.
            return Err(Fault::Memory);
        };
        self.numbers = numbers;
        Ok(number)
    }

    /// A call of a client begins.
    pub(crate) fn begin(
        &mut self,
        client: usize,
        puts: Option<String>,
        is_base: bool,
        at: At,
    ) -> Result<usize, Fault>
        ensures number { IfOk result (λ call. call ≡ length (read_of self.old).calls) }
        ensures read { OnOk result (read_of self.new ≡ with_call (read_of self.old) client (bytes_of puts) is_base at) }
    {
        let puts = self.put(puts)?;
        let number = self.give_number()?;
        let call = self.calls.len();
        self.calls.push(CallOf {
            client,
            number,
            puts,
            is_base,
        })?;
        self.add(Act::Begin(call), at)?;
        Ok(call)
    }

    /// What an answer says, if it is one of such a call.
    fn said(&mut self, call: usize, answered: Answered) -> Result<Option<Said>, Fault>
        ensures said { IfOk result (λ said. said
            ≡ said_by (read_of self.old) (does_put (read_of self.old) call) answered) }
        ensures read { OnOk result (read_of self.new
            ≡ with_got (read_of self.old) (does_put (read_of self.old) call) answered) }
    {
        let puts = self.does_put(call);
        match answered {
            Answered::Done if puts => Ok(Some(Said::Done)),
            Answered::Empty if !puts => Ok(Some(Said::Empty)),
            Answered::Got(text) if !puts => Ok(Some(Said::Got(self.value(text)?))),
            _ => Ok(None),
        }
    }

    /// Whether a call puts.
    fn does_put(&self, call: usize) -> bool
        ensures { result ≡ does_put (read_of self.now) call }
    {
        match self.calls.get(call) {
            Some(call) => call.puts.is_some(),
            None => false,
        }
    }

    /// The number of a call is free again.
    fn free(&mut self, call: usize) -> Result<(), Fault>
        ensures { OnOk result (read_of self.new
            ≡ with_free (read_of self.old) (slice_get (read_of self.old).calls call)) }
    {
        let number = match self.calls.get(call) {
            Some(of) => of.number,
            None => return Ok(()),
        };
        self.free.push(number)?;
        Ok(())
    }

    /// The call is answered, refused or given up.
    pub(crate) fn answer(
        &mut self,
        client: usize,
        call: usize,
        answered: Answered,
        at: At,
    ) -> Result<(), Fault>
        ensures read { OnOk result (read_of self.new ≡ with_answer (read_of self.old) call answered at) }
        ensures may { OnOk result (MayAnswer (read_of self.old) call answered) }
    {
        match answered {
            Answered::Unknown => self.add(Act::GiveUp(call), at),
            Answered::Refused => {
                self.free(call)?;
                self.add(Act::Refuse(call), at)
            }
            answered => {
                let Some(said) = self.said(call, answered)? else {
                    let text = self.client_text(client)?;
                    return Err(Fault::Line(at.line, Why::WrongAnswer(text)));
                };
                self.free(call)?;
                self.add(Act::Answer(call, said), at)
            }
        }
    }

    /// Every call that is open is interrupted.
    pub(crate) fn crash(&mut self, at: At) -> Result<(), Fault>
        ensures { OnOk result (read_of self.new ≡ with_crash (read_of self.old) at) }
    {
        self.numbers = 0;
        self.free.clear();
        interrupt(&mut self.states);
        self.add(Act::Crash, at)
    }

    /// What a client is about.
    fn state(&self, client: usize) -> State
        ensures { result ≡ unwrap_or (slice_get (read_of self.now).states client) State.Idle }
    {
        self.states.get(client).copied().unwrap_or(State::Idle)
    }

    /// From now on it is about this.
    fn set_state(&mut self, client: usize, state: State)
        ensures { read_of self.new ≡ with_state (read_of self.old) client state }
    {
        if client < self.states.len() {
            self.states[client] = state;
        }
    }

    /// That the client has no call under way.
    pub(crate) fn no_call(&self, client: usize, at: At) -> Result<Fault, Fault> {
        let text = self.client_text(client)?;
        Ok(Fault::Line(at.line, Why::NoCall(text)))
    }

    /// A line with which a client calls.
    fn begin_line(&mut self, client: String, puts: Option<String>, at: At) -> Result<(), Fault>
        ensures { OnOk result
            (IsBeginLine (read_of self.old) (string_bytes client) (bytes_of puts) at (read_of self.new)) }
    {
        let client = self.client(client)?;
        if let State::Calls(_) = self.state(client) {
            let text = self.client_text(client)?;
            return Err(Fault::Line(at.line, Why::UnderWay(text)));
        }
        let call = self.begin(client, puts, false, at)?;
        self.set_state(client, State::Calls(call));
        Ok(())
    }

    /// A line that says what became of the call that a client has under way.
    fn answer_line(&mut self, client: String, answered: Answered, at: At) -> Result<(), Fault>
        ensures { OnOk result (IsAnswerLine (read_of self.old) (string_bytes client) answered at (read_of self.new)) }
    {
        let client = self.client(client)?;
        let State::Calls(call) = self.state(client) else {
            return Err(self.no_call(client, at)?);
        };
        let state = after_answer(call, &answered);
        self.answer(client, call, answered, at)?;
        self.set_state(client, state);
        Ok(())
    }

    /// A line that says what became of a client's last call, which a crash interrupted.
    fn told_line(&mut self, client: String, told: Told, at: At) -> Result<(), Fault>
        ensures { OnOk result (IsToldLine (read_of self.old) (string_bytes client) told at (read_of self.new)) }
    {
        let client = self.client(client)?;
        let State::Interrupted(call) = self.state(client) else {
            let text = self.client_text(client)?;
            return Err(Fault::Line(at.line, Why::NotInterrupted(text)));
        };
        match told {
            Told::NotTaken => {
                self.set_state(client, State::Idle);
                self.add(Act::LearnNotTaken(call), at)
            }
            Told::Taken(answered) => {
                let Some(said) = self.said(call, answered)? else {
                    let text = self.client_text(client)?;
                    return Err(Fault::Line(at.line, Why::WrongAnswer(text)));
                };
                self.set_state(client, State::Idle);
                self.add(Act::LearnTaken(call, said), at)
            }
        }
    }

    /// A value that the queue held at first.
    fn base_value(&mut self, client: usize, value: &String, at: At) -> Result<(), Fault>
        ensures { OnOk result (read_of self.new
            ≡ with_base_value (read_of self.old) client at (string_bytes value.now)) }
    {
        let text = value.clone()?;
        let call = self.begin(client, Some(text), true, at)?;
        self.answer(client, call, Answered::Done, at)
    }

    /// What the queue held at first: calls of their own, before all others.
    fn base_line(&mut self, values: &[String], at: At) -> Result<(), Fault>
        ensures { OnOk result (read_of self.new ≡ with_base (read_of self.old) values.now at) }
    {
        let client = self.client(String::from_str(self.alloc, "base")?)?;
        for value in values {
            self.base_value(client, value, at)?;
        }
        Ok(())
    }

    /// A value that was left.
    fn left_value(&mut self, client: usize, value: &String, at: At) -> Result<(), Fault>
        ensures { OnOk result (read_of self.new ≡ with_left_value (read_of self.old) client at value.now) }
    {
        let text = value.clone()?;
        let call = self.begin(client, None, false, at)?;
        self.answer(client, call, Answered::Got(text), at)
    }

    /// The values that were left when all had stopped: a crash, and takes that get them. The answer is their client.
    fn left_values(&mut self, values: &[String], at: At) -> Result<usize, Fault>
        ensures client { IfOk result (λ n. n ≡ number_in (read_of self.old).clients (codes "final")) }
        ensures read { OnOk result (read_of self.new ≡ with_left (read_of self.old) values.now at) }
    {
        self.crash(at)?;
        let client = self.client(String::from_str(self.alloc, "final")?)?;
        for value in values {
            self.left_value(client, value, at)?;
        }
        Ok(client)
    }

    /// What was left when all had stopped, and a take that finds nothing.
    fn final_line(&mut self, values: &[String], at: At) -> Result<(), Fault>
        ensures { OnOk result (read_of self.new ≡ with_final (read_of self.old) values.now at) }
    {
        let client = self.left_values(values, at)?;
        let call = self.begin(client, None, false, at)?;
        self.answer(client, call, Answered::Empty, at)?;
        self.is_over = true;
        Ok(())
    }

    /// Takes what a line without times says.
    pub(crate) fn take(&mut self, line: Line, at: At) -> Result<(), Fault>
        ensures { OnOk result (IsLine (read_of self.old) line at (read_of self.new)) }
    {
        if self.is_over {
            return Err(Fault::Line(at.line, Why::AfterFinal));
        }
        match line {
            Line::Base(values) => {
                if self.steps.len() > 0 {
                    return Err(Fault::Line(at.line, Why::BaseNotFirst));
                }
                self.base_line(&values, at)
            }
            Line::Final(values) => self.final_line(&values, at),
            Line::Begin { client, puts } => self.begin_line(client, puts, at),
            Line::Answer { client, answered } => self.answer_line(client, answered, at),
            Line::Crash => self.crash(at),
            Line::Told { client, told } => self.told_line(client, told, at),
            Line::Whole(_) | Line::CrashAt(_) => Err(Fault::Line(at.line, Why::TimesAndNone)),
        }
    }

    /// What was read, as a recording.
    pub(crate) fn recording(self) -> Result<Recording, Fault>
        ensures read { IfOk result (λ recording. IsOfRead (read_of self) recording) }
        ensures distinct { IfOk result (λ recording. AreDistinct recording.ranks.items) }
    {
        let ranks = ranks_of(self.alloc, &self.calls, &self.steps, self.values.len())?;
        if !are_distinct(self.alloc, &ranks)? {
            // There are more values than a rank can count.
            return Err(Fault::Memory);
        }
        Ok(Recording {
            calls: self.calls,
            steps: self.steps,
            clients: self.clients,
            values: self.values,
            times: self.times,
            ranks,
        })
    }
}

/// Whether no two of the ranks are the same, and each is less than their number.
fn are_distinct(alloc: Global, ranks: &[u32]) -> Result<bool, AllocError>
    ensures { IfOk result (λ yes. IsTrue yes → AreDistinct ranks.now) }
{
    let mut seen = vec![in alloc; false; ranks.len()]?;
    for i in 0..ranks.len() {
        let rank = ranks[i] as usize;
        if rank >= seen.len() || seen[rank] {
            return Ok(false);
        }
        seen[rank] = true;
    }
    Ok(true)
}

/// What a client is about once its call was answered, refused or given up.
fn after_answer(call: usize, answered: &Answered) -> State
    ensures { result ≡ after_answer call answered.now }
{
    match answered {
        Answered::Unknown => State::GaveUp(call),
        _ => State::Idle,
    }
}

/// What clients are about after a crash.
fn interrupt(states: &mut [State])
    ensures { states.new ≡ map crashed states.old }
{
    for state in states.iter_mut() {
        *state = state.crashed();
    }
}
