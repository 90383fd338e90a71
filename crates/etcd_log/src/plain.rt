//! An engine in memory, which is known, and whose answers are lost where it is told to.
// A clause that speaks of an engine before and after may be longer than 120 columns.

ghost use Rattle.std.specs.Prelude.{◌≡◌, ◌<◌, ◌+◌, ◌^◌, [], ℕ, List, Option, Some, None, IfOk, OnErr, OnOk, option_map};
ghost use Rattle.fenced.specs.Engine.{same_state, same_tail, with_piece};
ghost use Rattle.fenced.specs.Requests.{PieceIs, Put, Take, after, answer_of, compared, effect, is_as, is_met};
ghost use Rattle.etcd_text.specs.Asked.{HasRoom, asked_by};
ghost use Rattle.etcd_text.specs.Tails.{Fits, said_by, spelled};
ghost use Rattle.etcd_log.specs.Asking.{Tells};
ghost use Rattle.etcd_log.specs.Plain.{answer_of_state, changed, engine_of, pieces_of, said_of, seen_in};

use crate::exchange::{Exchange, Lost};
use devices::Failed;
use etcd_text::{Answer, Request, Tail, append_tail};
use journal::KEY_BYTES;
use std::alloc::{AllocError, Global};

/// What becomes of a request.
#[derive(Clone, Copy, Debug, PartialEq, Eq)]
pub enum Fate {
    /// It is done and answered.
    Answered,
    /// It is lost on its way.
    LostBefore,
    /// It is done, and its answer is lost.
    LostBehind,
    /// It is done twice, and answered once.
    Twice,
}

/// A tail that owns its text.
#[derive(Drop)]
struct OwnTail {
    generation: u64,
    count: u64,
    owner: Vec<u8>,
}

/// A change of the pieces.
#[derive(Drop)]
enum Change {
    /// One of them has these bytes.
    Piece(u64, u64, Vec<u8>),
    /// Those of the generations below this one are gone.
    Dropped(u64),
}

/// An engine in memory. A request is also lost where memory is refused.
#[derive(Drop)]
pub struct PlainEngine {
    alloc: Global,
    key: [u8; KEY_BYTES],
    tail: Option<OwnTail>,
    changes: Vec<Change>,
    fates: Vec<Fate>,
    asked: usize,
    /// How often what was lost may be asked once more.
    patience: usize,
}

/// Whether two tails are the same.
fn is_same_tail(one: &OwnTail, other: &Tail) -> bool
    ensures { result ≡ same_tail (said_of one.now) (said_by other.now) }
{
    one.generation == other.generation
        && (one.count == other.count && one.owner.as_slice() == other.owner)
}

/// Whether both are there and the same, or none is there.
fn is_same_state(one: &Option<OwnTail>, other: &Option<Tail>) -> bool
    ensures { result ≡ same_state (option_map said_of one.now) (option_map said_by other.now) }
{
    match (one, other) {
        (None, None) => true,
        (Some(one), Some(other)) => is_same_tail(one, other),
        _ => false,
    }
}

/// A tail of its own.
fn own_tail(alloc: Global, generation: u64, count: u64, owner: &[u8]) -> Result<OwnTail, AllocError>
    ensures { IfOk result
        (λ tail. said_of tail ≡ record { generation = generation; count = count; owner = owner.now }) }
{
    Ok(OwnTail {
        generation,
        count,
        owner: Vec::from_slice(alloc, owner)?,
    })
}

/// Whether the tail is the one that a request names.
fn names_it(tail: &Option<OwnTail>, request: &Request) -> bool
    ensures { result ≡ is_as (option_map said_of tail.now) (compared (asked_by request.now)) }
{
    match request {
        Request::Take { seen, .. } => is_same_state(tail, seen),
        Request::Put { tail: named, .. }
        | Request::Fresh { tail: named, .. }
        | Request::Place { tail: named, .. }
        | Request::DropOlder { tail: named } => is_same_state(tail, &Some(*named)),
        Request::Ask | Request::Read { .. } => false,
    }
}

/// The text of a tail.
fn own_text(alloc: Global, generation: u64, count: u64, owner: &[u8]) -> Result<Vec<u8>, AllocError>
    ensures text { IfOk result (λ text.
        text.items ≡ spelled (record { generation = generation; count = count; owner = owner.now })) }
    ensures fits { Fits (record { generation = generation; count = count; owner = owner.now }) }
{
    let said = Tail {
        generation,
        count,
        owner,
    };
    let mut text = Vec::new(alloc);
    append_tail(&mut text, &said)?;
    Ok(text)
}

/// What tells a tail, if there is one.
fn state_text(alloc: Global, tail: &Option<OwnTail>) -> Result<Answer, AllocError>
    ensures { IfOk result (Tells (answer_of_state (option_map said_of tail.now))) }
{
    match tail {
        None => Ok(Answer::Value(None)),
        Some(own) => Ok(Answer::Value(Some(own_text(
            alloc,
            own.generation,
            own.count,
            &own.owner,
        )?))),
    }
}

/// What a piece is after one change more.
fn found_after<'a>(
    found: Option<&'a [u8]>,
    change: &'a Change,
    generation: u64,
    number: u64,
) -> Option<&'a [u8]>
    ensures { (piece : ℕ → ℕ → Option (List ℕ)) → seen_in found.entry ≡ piece generation number
        → seen_in result ≡ changed piece change.now generation number }
{
    match change {
        Change::Piece(other, at, bytes) => {
            if generation == *other && number == *at {
                Some(bytes)
            } else {
                found
            }
        }
        Change::Dropped(below) => { if generation < *below { None } else { found } }
    }
}

/// A piece, if it is there.
fn found_in(changes: &[Change], generation: u64, number: u64) -> Option<&[u8]>
    ensures { seen_in result ≡ pieces_of changes.now generation number }
{
    let mut found = None;
    for change in changes {
        found = found_after(found, change, generation, number);
    }
    found
}

/// The bytes of a piece, if it is there.
fn piece_text(
    alloc: Global,
    changes: &[Change],
    generation: u64,
    number: u64,
) -> Result<Answer, AllocError>
    ensures { IfOk result (Tells (PieceIs (pieces_of changes.now generation number))) }
{
    match found_in(changes, generation, number) {
        None => Ok(Answer::Value(None)),
        Some(bytes) => Ok(Answer::Value(Some(Vec::from_slice(alloc, bytes)?))),
    }
}

/// One change more.
fn push(changes: &mut Vec<Change>, change: Change) -> Result<(), Lost>
    ensures done { OnOk result (pieces_of changes.new.items ≡ changed (pieces_of changes.old.items) change) }
    ensures stays { OnErr result (changes.new.items ≡ changes.old.items) }
{
    match changes.push(change) {
        Ok(()) => Ok(()),
        Err(_) => Err(Lost),
    }
}

/// A piece has these bytes.
fn push_piece(
    alloc: Global,
    changes: &mut Vec<Change>,
    generation: u64,
    number: u64,
    bytes: &[u8],
) -> Result<(), Lost>
    ensures done { OnOk result
        (pieces_of changes.new.items ≡ with_piece generation number bytes.now (pieces_of changes.old.items)) }
    ensures stays { OnErr result (changes.new.items ≡ changes.old.items) }
{
    match Vec::from_slice(alloc, bytes) {
        Ok(own) => push(changes, Change::Piece(generation, number, own)),
        Err(_) => Err(Lost),
    }
}

/// The tail is another one.
fn set_tail(
    alloc: Global,
    tail: &mut Option<OwnTail>,
    generation: u64,
    count: u64,
    owner: &[u8],
) -> Result<(), Lost>
    ensures done { OnOk result (option_map said_of tail.new
        ≡ Some (record { generation = generation; count = count; owner = owner.now })) }
    ensures stays { OnErr result (tail.new ≡ tail.old) }
{
    match own_tail(alloc, generation, count, owner) {
        Ok(own) => {
            *tail = Some(own);
            Ok(())
        }
        Err(_) => Err(Lost),
    }
}

impl PlainEngine {
    /// One that holds nothing, draws this key each time, and does with each request what it is told; with those behind
    /// them it does what it is asked.
    pub fn new(alloc: Global, key: [u8; KEY_BYTES], fates: Vec<Fate>, patience: usize) -> Self
        ensures tail { result.tail ≡ None }
        ensures changes { result.changes.items ≡ [] }
    {
        PlainEngine {
            alloc,
            key,
            tail: None,
            changes: Vec::new(alloc),
            fates,
            asked: 0,
            patience,
        }
    }

    /// The next piece is put, and the tail has it.
    fn put_next(&mut self, tail: &Tail, bytes: &[u8]) -> Result<(), Lost>
        requires { tail.now.count + 1 < 2 ^ 64 }
        ensures done { OnOk result (engine_of self.new.tail self.new.changes.items
            ≡ effect (Put (said_by tail.now) bytes.now) (engine_of self.old.tail self.old.changes.items)) }
        ensures stays { OnErr result (engine_of self.new.tail self.new.changes.items
            ≡ engine_of self.old.tail self.old.changes.items) }
    {
        let Ok(next) = own_tail(self.alloc, tail.generation, tail.count + 1, tail.owner) else {
            return Err(Lost);
        };
        match push_piece(
            self.alloc,
            &mut self.changes,
            tail.generation,
            tail.count,
            bytes,
        ) {
            Ok(()) => {
                self.tail = Some(next);
                Ok(())
            }
            Err(lost) => Err(lost),
        }
    }

    /// What a request makes of the engine whose tail is the one that it names.
    fn carry_out(&mut self, request: &Request) -> Result<(), Lost>
        requires { HasRoom request.now }
        ensures done { OnOk result (engine_of self.new.tail self.new.changes.items
            ≡ effect (asked_by request.now) (engine_of self.old.tail self.old.changes.items)) }
        ensures stays { OnErr result (engine_of self.new.tail self.new.changes.items
            ≡ engine_of self.old.tail self.old.changes.items) }
    {
        match request {
            Request::Take { seen, owner } => self.take(seen, owner),
            Request::Put { tail, bytes } => self.put_next(tail, bytes),
            Request::Fresh {
                generation,
                number,
                bytes,
                ..
            } => push_piece(self.alloc, &mut self.changes, *generation, *number, bytes),
            Request::Place {
                tail,
                generation,
                count,
            } => set_tail(self.alloc, &mut self.tail, *generation, *count, tail.owner),
            Request::DropOlder { tail } => push(
                &mut self.changes,
                Change::Dropped(tail.generation),
            ),
            Request::Ask | Request::Read { .. } => Ok(()),
        }
    }

    /// The log is this owner's.
    fn take(&mut self, seen: &Option<Tail>, owner: &[u8]) -> Result<(), Lost>
        ensures done { OnOk result (engine_of self.new.tail self.new.changes.items
            ≡ effect (Take (option_map said_by seen.now) owner.now) (engine_of self.old.tail self.old.changes.items)) }
        ensures stays { OnErr result (engine_of self.new.tail self.new.changes.items
            ≡ engine_of self.old.tail self.old.changes.items) }
    {
        match seen {
            None => set_tail(self.alloc, &mut self.tail, 1, 0, owner),
            Some(tail) => set_tail(
                self.alloc,
                &mut self.tail,
                tail.generation,
                tail.count,
                owner,
            ),
        }
    }

    /// What a request is answered.
    fn answer(&self, request: &Request) -> Result<Answer, Lost>
        ensures { IfOk result
            (Tells (answer_of (engine_of self.now.tail self.now.changes.items) (asked_by request.now))) }
    {
        let told = match request {
            Request::Ask => state_text(self.alloc, &self.tail),
            Request::Read { generation, number } => {
                piece_text(self.alloc, &self.changes, *generation, *number)
            }
            _ => {
                if names_it(&self.tail, request) {
                    Ok(Answer::Done)
                } else {
                    state_text(self.alloc, &self.tail)
                }
            }
        };
        match told {
            Ok(answer) => Ok(answer),
            Err(_) => Err(Lost),
        }
    }

    /// A request is done, and answered.
    fn do_once(&mut self, request: &Request) -> Result<Answer, Lost>
        requires { HasRoom request.now }
        ensures done { OnOk result (engine_of self.new.tail self.new.changes.items
            ≡ after (engine_of self.old.tail self.old.changes.items) (asked_by request.now)) }
        ensures told { IfOk result
            (Tells (answer_of (engine_of self.old.tail self.old.changes.items) (asked_by request.now))) }
        ensures stays { OnErr result (engine_of self.new.tail self.new.changes.items
            ≡ engine_of self.old.tail self.old.changes.items) }
    {
        let answer = match self.answer(request) {
            Ok(answer) => answer,
            Err(lost) => return Err(lost),
        };
        if names_it(&self.tail, request) {
            match self.carry_out(request) {
                Ok(()) => {}
                Err(lost) => return Err(lost),
            }
        }
        Ok(answer)
    }

    /// What becomes of the next request.
    fn next_fate(&mut self) -> Fate
        ensures { engine_of self.new.tail self.new.changes.items ≡ engine_of self.old.tail self.old.changes.items }
    {
        let fate = match self.fates.get(self.asked) {
            Some(fate) => *fate,
            None => Fate::Answered,
        };
        self.asked = self.asked.saturating_add(1);
        fate
    }
}

impl Exchange for PlainEngine {
    ghost use Rattle.etcd_log.specs.Plain.{engine_of};

    ghost engine = { λ p. Some (engine_of p.tail p.changes.items) };

    fn ask(&mut self, request: &Request) -> Result<Answer, Lost> {
        match self.next_fate() {
            Fate::Answered => self.do_once(request),
            Fate::LostBefore => Err(Lost),
            Fate::LostBehind => {
                let _ = self.do_once(request);
                Err(Lost)
            }
            Fate::Twice => {
                let answer = match self.do_once(request) {
                    Ok(answer) => answer,
                    Err(lost) => return Err(lost),
                };
                let _ = self.do_once(request);
                Ok(answer)
            }
        }
    }

    fn may_ask_again(&mut self) -> bool {
        if self.patience == 0 {
            return false;
        }
        self.patience -= 1;
        true
    }

    fn draw_key(&self) -> Result<[u8; KEY_BYTES], Failed> {
        Ok(self.key)
    }
}
