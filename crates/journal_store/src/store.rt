//! A journal's file as the storage of a journal.

ghost use Rattle.std.specs.Prelude.{◌≡◌, ◌≤◌, IfOk, OnOk, false, length, option_map};
ghost use Rattle.journal_store.specs.Folder.{IsWithin, LeavesPlace};
ghost use Rattle.journal_store.specs.Stored.{IsFreshWith, IsLonger};

use crate::fault::Fault;
use crate::folder::{FileName, Folder};
use crate::found::{Found, found_in};
use devices::Failed;
use journal::KEY_BYTES;
use journal_file::{Storage, Unplaced};
use std::alloc::Global;
use std::marker::Model;
use words::Refusal;

/// How far a file is made longer than what was written at most, each time that this has come to its end. A sync within
/// it has no new length to keep, which would cost another write of the disk.
const AHEAD: u64 = 1 << 20;

/// A journal's file, which no other program uses as long as this is there. It is as long as what was written, and then
/// has zeros, up to [`AHEAD`] of them, which are no frame of a journal. Another file takes its place once that is
/// written, kept and given its name.
#[derive(Drop)]
pub struct Store<D: Folder + Drop> {
    folder: D,
    /// How many bytes were written to the file, at most.
    written: u64,
    /// How long the file was made.
    room: u64,
    failed: bool,
}

impl<D: Folder + Drop> Model for Store<D> {
    ghost use Rattle.journal_store.specs.Stored.{IsStored, Stored};

    ghost Value = { Stored };

    ghost view = { λ s. record { files = D.files s.folder; written = s.written; failed = s.failed } };

    ghost invariant = { λ s. IsStored (record { files = D.files s.folder; written = s.written; failed = s.failed }) };
}

/// How long a file is made that has so many bytes. A short one is made twice as long, so that a low limit of file sizes is
/// not met at once.
fn room_for(end: u64) -> u64
    ensures { end ≤ result }
{
    end.saturating_add(end.min(AHEAD))
}

/// Makes the journal's file longer, which was made so long, where that does not reach to this end. It answers how far it
/// does then. Where that is refused it grows as it is written.
fn make_room<D: Folder>(folder: &mut D, room: u64, end: u64) -> u64
    requires { IsWithin FileName.Journal end (D.files folder.old) }
    ensures { IsLonger (D.files folder.old) (D.files folder.new) }
{
    if end <= room {
        return room;
    }
    let room = room_for(end);
    let _ = folder.lengthen(FileName::Journal, room);
    room
}

/// Writes a fresh file of these bytes, which is kept, and answers how long it was made.
fn write_fresh<D: Folder>(folder: &mut D, bytes: &[u8]) -> Result<u64, Failed>
    ensures whole { OnOk result (IsFreshWith bytes.now (D.files folder.new)) }
    ensures place { LeavesPlace (D.files folder.old) (D.files folder.new) }
{
    folder.create()?;
    let room = room_for(bytes.len() as u64);
    // Where that is refused the file grows as it is written.
    let _ = folder.lengthen(FileName::Fresh, room);
    folder.write(FileName::Fresh, bytes)?;
    folder.sync(FileName::Fresh)?;
    Ok(room)
}

impl<D: Folder + Drop> Store<D> {
    ghost use Rattle.journal_store.specs.Found.{IsFoundThere};

    /// The storage of the journal in this folder. Nothing is appended before a journal takes the place.
    pub fn new(folder: D) -> Self
        ensures files { result.files ≡ D.files folder }
    {
        Store {
            folder,
            written: 0,
            room: 0,
            failed: true,
        }
    }

    /// The folder.
    pub fn folder(&self) -> &D
        ensures { D.files result.now ≡ self.now.files }
    {
        &self.folder
    }

    /// The folder alone.
    pub fn into_folder(self) -> D
        ensures { D.files result ≡ self.files }
    {
        self.folder
    }

    /// What the file has; nothing, where there is no such file. It is refused where the file cannot be read
    /// (ReadFailed), where it is no journal (as [`journal::read`] says), where bytes that were kept once are damaged
    /// (BadSum), and for want of memory (NoMemory). The file stays as it is.
    pub fn find(&self, alloc: Global) -> Result<Option<Found>, Fault>
        ensures { IfOk result (IsFoundThere self.now.files) }
    {
        match self.folder.read()? {
            Some(bytes) => Ok(Some(found_in(alloc, &bytes)?)),
            None => Ok(None),
        }
    }

    /// Keeps the file under another name too, as [`Folder::keep_torn`] does.
    pub fn keep_torn(&self) -> Result<(), Refusal> {
        self.folder.keep_torn()
    }
}

impl<D: Folder + Drop> Storage for Store<D> {
    ghost use Rattle.journal_store.specs.Stored.{kept_in, text_in};

    ghost appended = { λ s. text_in s.files };

    ghost kept = { λ s. kept_in s.files };

    ghost failed = { λ s. s.failed };

    fn append(&mut self, bytes: &[u8]) -> Result<(), Failed> {
        let Some(end) = self.written.checked_add(bytes.len() as u64) else {
            self.failed = true;
            return Err(Failed);
        };
        self.room = make_room(&mut self.folder, self.room, end);
        self.written = end;
        let written = self.folder.write(FileName::Journal, bytes);
        if written.is_err() {
            self.failed = true;
        }
        written
    }

    fn keep(&mut self) -> Result<(), Failed> {
        let kept = self.folder.sync(FileName::Journal);
        if kept.is_err() {
            self.failed = true;
        }
        kept
    }

    fn has_failed(&self) -> bool {
        self.failed
    }

    fn replace(&mut self, bytes: &[u8]) -> Result<(), Unplaced> {
        let Ok(room) = write_fresh(&mut self.folder, bytes) else {
            return Err(Unplaced::Stays);
        };
        if self.folder.rename().is_err() || self.folder.sync_names().is_err() {
            self.failed = true;
            return Err(Unplaced::Unknown);
        }
        self.written = bytes.len() as u64;
        self.room = room;
        self.failed = false;
        Ok(())
    }

    fn answers(&self) -> u64 {
        0
    }

    fn confirm(&mut self) -> Result<(), Failed> {
        // Nobody else takes the place of a file whose lock is held.
        Ok(())
    }

    fn draw_key(&self) -> Result<[u8; KEY_BYTES], Failed> {
        self.folder.draw_key()
    }
}
