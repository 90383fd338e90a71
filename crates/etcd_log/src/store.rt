//! A log in an engine as the storage of a journal.

ghost use Rattle.std.specs.Prelude.{◌≡◌, true, IfOk, IfSome};
ghost use Rattle.etcd_log.specs.Logged.{HasTail, text_in};

use crate::deciding::Undone;
use crate::exchange::Exchange;
use crate::pieces::{put_all, put_in_place};
use crate::questions::confirm;
use crate::taking::{read, take};
use devices::Failed;
use etcd_text::Tail;
use journal::KEY_BYTES;
use journal_file::{Storage, Unplaced};
use std::alloc::Global;
use std::marker::Model;

/// A log in an engine, whose tail says that it is this owner's. A generation of pieces takes the place of the one in
/// use once all of them were answered.
///
/// Once it is not known what became of a request nothing is asked any more: it is gone, for good. Its text is read by
/// who takes the log then.
#[derive(Drop)]
pub struct EtcdStore<X: Exchange + Drop> {
    exchange: X,
    owner: Vec<u8>,
    generation: u64,
    count: u64,
    /// The latest generation that pieces were put into.
    latest: u64,
    /// How many bytes the text has, at most.
    size: u64,
    kept: u64,
    failed: bool,
    gone: bool,
    undone: Option<Undone>,
    /// How often the engine told that the tail is this owner's.
    answers: u64,
}

impl<X: Exchange + Drop> Model for EtcdStore<X> {
    ghost use Rattle.etcd_log.specs.Logged.{IsLogged, Logged, text_in};

    ghost Value = { Logged };

    ghost view = { λ s. record { text = text_in (X.engine s.exchange); kept = s.kept; failed = s.failed } };

    ghost invariant = { λ s. IsLogged (record {
      engine = X.engine s.exchange;
      tail = record { generation = s.generation; count = s.count; owner = s.owner.items };
      latest = s.latest;
      size = s.size;
      failed = s.failed;
      gone = s.gone;
    }) };
}

impl<X: Exchange + Drop> EtcdStore<X> {
    /// The log in this engine, whose tail is this owner's. Nothing is appended before a journal takes the place.
    pub fn new(exchange: X, owner: Vec<u8>, generation: u64, count: u64) -> Self
        requires { HasTail (X.engine exchange)
            (record { generation = generation; count = count; owner = owner.items }) }
        ensures text { result.text ≡ text_in (X.engine exchange) }
        ensures failed { result.failed ≡ true }
    {
        EtcdStore {
            exchange,
            owner,
            generation,
            count,
            latest: generation,
            size: 0,
            kept: 0,
            failed: true,
            gone: false,
            undone: None,
            answers: 0,
        }
    }

    /// Takes the log in this engine for an owner whose name was drawn for this alone: from here on nobody who had it
    /// before changes it. Nothing is appended before a journal takes the place.
    pub fn take(exchange: X, owner: Vec<u8>) -> Result<Self, Undone>
        ensures { IfOk result (λ log. log.failed ≡ true) }
    {
        let mut exchange = exchange;
        let (generation, count) = match take(&mut exchange, &owner) {
            Ok(at) => at,
            Err(undone) => return Err(undone),
        };
        Ok(EtcdStore::new(exchange, owner, generation, count))
    }

    /// The text of the log. It is refused where a piece is not there (Missing), as where the log is another owner's by
    /// now, where no answer comes (NoEngine, BadAnswer), and for want of memory (NoMemory). The log stays as it is.
    pub fn read(&mut self, alloc: Global) -> Result<Vec<u8>, Undone>
        ensures read { IfOk result (λ text. IfSome self.new.text (λ known. known ≡ text.items)) }
        ensures text { self.new.text ≡ self.old.text }
        ensures kept { self.new.kept ≡ self.old.kept }
        ensures failed { self.new.failed ≡ self.old.failed }
    {
        if self.gone {
            return Err(Undone::TakenOver);
        }
        read(alloc, &mut self.exchange, self.generation, self.count)
    }

    /// What takes requests to the engine, alone.
    pub fn into_exchange(self) -> X
        ensures { text_in (X.engine result) ≡ self.text }
    {
        self.exchange
    }

    /// Why nothing is asked any more, if it is so.
    pub fn undone(&self) -> Option<Undone> {
        self.undone
    }
}

impl<X: Exchange + Drop> Storage for EtcdStore<X> {
    ghost appended = { λ s. s.text };

    ghost kept = { λ s. s.kept };

    ghost failed = { λ s. s.failed };

    fn append(&mut self, bytes: &[u8]) -> Result<(), Failed> {
        let Some(size) = self.size.checked_add(bytes.len() as u64) else {
            self.failed = true;
            return Err(Failed);
        };
        let tail = Tail {
            generation: self.generation,
            count: self.count,
            owner: &self.owner,
        };
        match put_all(&mut self.exchange, &tail, bytes) {
            Ok(count) => {
                self.count = count;
                self.size = size;
                self.answers = self.answers.wrapping_add(1);
                Ok(())
            }
            Err(undone) => {
                self.failed = true;
                self.gone = true;
                self.undone = Some(undone);
                Err(Failed)
            }
        }
    }

    fn keep(&mut self) -> Result<(), Failed> {
        // What was answered is kept already.
        self.kept = self.size;
        Ok(())
    }

    fn has_failed(&self) -> bool {
        self.failed
    }

    fn replace(&mut self, bytes: &[u8]) -> Result<(), Unplaced> {
        if self.gone || self.latest == u64::MAX {
            self.failed = true;
            return Err(Unplaced::Unknown);
        }
        self.latest += 1;
        let tail = Tail {
            generation: self.generation,
            count: self.count,
            owner: &self.owner,
        };
        match put_in_place(&mut self.exchange, &tail, self.latest, bytes) {
            Ok(count) => {
                self.generation = self.latest;
                self.count = count;
                self.size = bytes.len() as u64;
                self.kept = self.size;
                self.failed = false;
                self.answers = self.answers.wrapping_add(1);
                Ok(())
            }
            Err(undone) => {
                self.failed = true;
                self.gone = true;
                self.undone = Some(undone);
                Err(Unplaced::Unknown)
            }
        }
    }

    fn answers(&self) -> u64 {
        self.answers
    }

    fn confirm(&mut self) -> Result<(), Failed> {
        let tail = Tail {
            generation: self.generation,
            count: self.count,
            owner: &self.owner,
        };
        match confirm(&mut self.exchange, &tail) {
            Ok(()) => {
                self.answers = self.answers.wrapping_add(1);
                Ok(())
            }
            Err(undone) => {
                self.failed = true;
                self.gone = true;
                self.undone = Some(undone);
                Err(Failed)
            }
        }
    }

    fn draw_key(&self) -> Result<[u8; KEY_BYTES], Failed> {
        self.exchange.draw_key()
    }
}
