//! A journal in a storage.

ghost use Rattle.std.specs.Prelude.{◌≡◌, ◌≢◌, [], Err, true, false, IfOk, IfErr, OnOk, OnErr};

use crate::numbers::apply;
use crate::storage::{Storage, Unplaced};
use journal::{KEY_BYTES, Writer};
use persist::Change;
use std::alloc::Global;
use std::marker::Model;
use words::Refusal;

/// The most bytes of a journal to which a frame is appended.
pub const MAX_SIZE: u64 = 0x8000_0000_0000_0000;

/// Why a journal does not go on as its words and no batch.
#[derive(Clone, Copy, Debug, PartialEq, Eq)]
pub enum Uncompacted {
    /// There was no memory for it. All stays.
    NoMemory,
    /// It could not be written beside the journal, which stays as it is.
    WriteFailed,
    /// It may have taken the place of the journal or not. Nothing is appended to either.
    Unknown,
}

/// Words that are changed by batches, and the storage at whose place the journal of these stands.
#[derive(Drop)]
pub struct Journal<S: Storage + Drop> {
    words: Vec<u64>,
    writer: Writer,
    size: u64,
    kept: u64,
    storage: S,
}

impl<S: Storage + Drop> Model for Journal<S> {
    ghost use Rattle.journal_file.specs.OnDevice.{IsSomeJournal, OnDevice};

    ghost Value = { OnDevice };

    ghost view = { λ j. record {
      words = j.words.items;
      end = j.writer;
      size = j.size;
      kept = j.kept;
      appended = S.appended j.storage;
      lasting = S.kept j.storage;
      failed = S.failed j.storage;
    } };

    ghost invariant = { λ j. IsSomeJournal (record {
      words = j.words.items;
      end = j.writer;
      size = j.size;
      kept = j.kept;
      appended = S.appended j.storage;
      lasting = S.kept j.storage;
      failed = S.failed j.storage;
    }) };
}

impl<S: Storage + Drop> Journal<S> {
    ghost use Rattle.persist.specs.Noted.{applied};
    ghost use Rattle.journal.specs.Frame.{batch_of};
    ghost use Rattle.journal_file.specs.OnDevice.{HasMore, HasNoMore, IsOf, IsSomeJournal, KeepsAll};
    ghost use Rattle.journal_file.specs.OnDevice.{MayRefuseAppend, MayRefuseBegin};

    /// A journal of these words and no batch, which is kept: it takes the place of what stands in the storage. It is
    /// refused where there is no word, or there are more than 8,388,608 (BadCount), then where memory is (NoMemory), and
    /// where the storage fails (WriteFailed). Then the storage is let go, and what stood there may have its place or not.
    pub fn begin(
        alloc: Global,
        storage: S,
        key: &[u8; KEY_BYTES],
        words: Vec<u64>,
    ) -> Result<Self, Refusal>
        ensures journal { IfOk result (IsOf key.now words.items [] 0) }
        ensures going { IfOk result (λ j. j.failed ≡ false) }
        ensures errors { IfErr result (MayRefuseBegin words.items) }
    {
        let (head, writer) = Writer::begin(alloc, key, &words)?;
        let mut storage = storage;
        if storage.replace(&head).is_err() {
            return Err(Refusal::WriteFailed);
        }
        let size = head.len() as u64;
        Ok(Journal {
            words,
            writer,
            size,
            kept: size,
            storage,
        })
    }

    /// The words after all batches that were appended.
    pub fn words(&self) -> &[u64]
        ensures words { result.now ≡ self.now.words }
        ensures journal { IsSomeJournal self.now }
    {
        &self.words
    }

    /// How many bytes the journal has.
    pub fn size(&self) -> u64
        ensures { result ≡ self.now.size }
    {
        self.size
    }

    /// How many of its bytes were there when all were last kept.
    pub fn kept(&self) -> u64
        ensures { result ≡ self.now.kept }
    {
        self.kept
    }

    /// Whether the storage has failed. Then nothing is appended any more, unless the journal is compacted.
    pub fn has_failed(&self) -> bool
        ensures { result ≡ self.now.failed }
    {
        self.storage.has_failed()
    }

    /// The storage.
    pub fn storage(&self) -> &S
        ensures appended { S.appended result.now ≡ self.now.appended }
        ensures kept { S.kept result.now ≡ self.now.lasting }
        ensures failed { S.failed result.now ≡ self.now.failed }
    {
        &self.storage
    }

    /// The storage alone.
    pub fn into_storage(self) -> S
        ensures appended { S.appended result ≡ self.appended }
        ensures kept { S.kept result ≡ self.lasting }
    {
        self.storage
    }

    /// Appends a batch, as one frame, and then makes its changes in the words. It is refused where the storage has
    /// failed before (WriteFailed), where the journal has more than [`MAX_SIZE`] bytes (NoRoom), where there is no
    /// change or there are more than 16,777,216 (BadCount), where one is of a word that is not there (NoWord), and
    /// where memory is refused (NoMemory). Then all stays. Where the storage fails now (WriteFailed), it may have a part
    /// of the frame, or all of it, and the words stay.
    pub fn append(&mut self, alloc: Global, changes: &[Change]) -> Result<(), Refusal>
        ensures journal { OnOk result (HasMore (batch_of self.old.kept changes.now) self.old self.new) }
        ensures words { OnOk result (self.new.words ≡ applied changes.now self.old.words) }
        ensures going { OnOk result (self.new.failed ≡ false) }
        ensures same { OnErr result (self.new.words ≡ self.old.words) }
        ensures no_more { OnErr result (HasNoMore self.old self.new) }
        ensures kept { self.new.kept ≡ self.old.kept }
        ensures over { self.old.failed ≡ true → (self.new ≡ self.old) × (result ≡ Err Refusal.WriteFailed) }
        ensures errors { IfErr result (MayRefuseAppend self.old changes.now self.new) }
    {
        if self.storage.has_failed() {
            return Err(Refusal::WriteFailed);
        }
        if self.size > MAX_SIZE {
            return Err(Refusal::NoRoom);
        }
        let mut frame = Vec::new(alloc);
        if let Err(refusal) = self.writer.frame(&mut frame, self.kept, changes) {
            return Err(refusal);
        }
        if self.storage.append(&frame).is_err() {
            return Err(Refusal::WriteFailed);
        }
        self.size += frame.len() as u64;
        apply(&mut self.words, changes);
        Ok(())
    }

    /// Keeps all batches that were appended. It is refused where the storage fails, or has failed before (WriteFailed).
    pub fn keep(&mut self) -> Result<(), Refusal>
        ensures journal { OnOk result (KeepsAll self.old self.new) }
        ensures kept { OnOk result (self.new.kept ≡ self.old.size) }
        ensures going { OnOk result (self.new.failed ≡ false) }
        ensures no_more { OnErr result (HasNoMore self.old self.new) }
        ensures words { self.new.words ≡ self.old.words }
        ensures size { self.new.size ≡ self.old.size }
        ensures appended { self.new.appended ≡ self.old.appended }
        ensures over { self.old.failed ≡ true → (self.new ≡ self.old) × (result ≡ Err Refusal.WriteFailed) }
        ensures errors { IfErr result (λ e. (e ≡ Refusal.WriteFailed) × (self.new.failed ≡ true)) }
    {
        if self.has_failed() {
            return Err(Refusal::WriteFailed);
        }
        if self.storage.keep().is_err() {
            return Err(Refusal::WriteFailed);
        }
        self.kept = self.size;
        Ok(())
    }

    /// Asks the storage whether the place is still this one's. It is refused where it is not, or has failed before
    /// (WriteFailed).
    pub fn confirm(&mut self) -> Result<(), Refusal>
        ensures same { OnOk result (self.new ≡ self.old) }
        ensures no_more { OnErr result (HasNoMore self.old self.new) }
        ensures words { self.new.words ≡ self.old.words }
        ensures errors { IfErr result (λ e. (e ≡ Refusal.WriteFailed) × (self.new.failed ≡ true)) }
    {
        if self.has_failed() {
            return Err(Refusal::WriteFailed);
        }
        if self.storage.confirm().is_err() {
            return Err(Refusal::WriteFailed);
        }
        Ok(())
    }

    /// Goes on as a journal of its words and no batch, which takes the place of this one, also where the storage had
    /// failed. Where that is refused, this one stays as it is; but where it is not known which one has the place, the
    /// storage has failed, and both have all batches that were appended.
    pub fn compact(&mut self, alloc: Global, key: &[u8; KEY_BYTES]) -> Result<(), Uncompacted>
        ensures journal { OnOk result (IsOf key.now self.old.words [] 0 self.new) }
        ensures going { OnOk result (self.new.failed ≡ false) }
        ensures words { self.new.words ≡ self.old.words }
        ensures no_more { OnErr result (HasNoMore self.old self.new) }
        ensures same { IfErr result (λ e. e ≢ Uncompacted.Unknown → self.new ≡ self.old) }
        ensures over { result ≡ Err Uncompacted.Unknown → self.new.failed ≡ true }
    {
        // A journal has words, and not too many.
        let Ok((head, writer)) = Writer::begin(alloc, key, &self.words) else {
            return Err(Uncompacted::NoMemory);
        };
        match self.storage.replace(&head) {
            Ok(()) => {}
            Err(Unplaced::Stays) => return Err(Uncompacted::WriteFailed),
            Err(Unplaced::Unknown) => return Err(Uncompacted::Unknown),
        }
        self.writer = writer;
        self.size = head.len() as u64;
        self.kept = self.size;
        Ok(())
    }
}
