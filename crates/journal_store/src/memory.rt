//! Files in memory, which are known, and whose calls fail where they are told to.

ghost use Rattle.std.specs.Prelude.{◌≡◌, ◌≤◌, [], None, Some, false, length, option_map, IfOk, IfSome, OnErr, OnOk};
ghost use Rattle.journal_store.specs.Folder.{File, bytes_of, lengthened, synced, written};
ghost use Rattle.journal_store.specs.Stops.{cut_to, stopped};

use crate::folder::{FileName, Folder};
use devices::Failed;
use journal::KEY_BYTES;
use std::alloc::{AllocError, Global};
use std::marker::Model;
use words::Refusal;

/// A file in memory.
#[derive(Drop)]
struct MemoryFile {
    text: Vec<u8>,
    room: usize,
    kept: usize,
}

impl Model for MemoryFile {
    ghost use Rattle.journal_store.specs.Folder.{File};

    ghost Value = { File };

    ghost view = { λ f. record { text = f.text.items; room = f.room; kept = f.kept } };
}

impl MemoryFile {
    /// An empty one.
    fn new(alloc: Global) -> Self
        ensures { result ≡ record { text = []; room = 0; kept = 0 } }
    {
        MemoryFile {
            text: Vec::new(alloc),
            room: 0,
            kept: 0,
        }
    }

    /// Writes behind what was written, in place of zeros.
    fn write(&mut self, bytes: &[u8]) -> Result<(), AllocError>
        ensures all { OnOk result (self.new ≡ written bytes.now self.old) }
        ensures stays { OnErr result (self.new ≡ self.old) }
    {
        self.text.extend_from_slice(bytes)?;
        self.room = self.room.saturating_sub(bytes.len());
        Ok(())
    }

    /// Has so many bytes, by zeros behind what was written.
    fn lengthen(&mut self, size: usize)
        ensures { self.new ≡ lengthened size self.old }
    {
        self.room = size.saturating_sub(self.text.len());
    }

    /// Keeps what was written.
    fn sync(&mut self)
        ensures { self.new ≡ synced self.old }
    {
        self.kept = self.text.len();
    }

    /// Keeps so many bytes of what was written, and at least those that are kept.
    fn cut(&mut self, left: usize)
        ensures { self.new ≡ cut_to left self.old }
    {
        self.text.truncate(left.max(self.kept));
    }

    /// All its bytes.
    fn bytes(&self, alloc: Global) -> Result<Vec<u8>, AllocError>
        ensures { IfOk result (λ bytes. bytes.items ≡ bytes_of self.now) }
    {
        let mut bytes = Vec::new(alloc);
        let zeros = vec![in alloc; 0; self.room]?;
        bytes.extend_from_slice(&self.text)?;
        bytes.extend_from_slice(&zeros)?;
        Ok(bytes)
    }
}

/// Writes to the file, if there is one.
fn write_to(file: &mut Option<MemoryFile>, bytes: &[u8]) -> Result<(), Failed>
    ensures all { OnOk result (file.new ≡ option_map (written bytes.now) file.old) }
    ensures stays { OnErr result (file.new ≡ file.old) }
{
    let Some(file) = file else {
        return Err(Failed);
    };
    match file.write(bytes) {
        Ok(()) => Ok(()),
        Err(_) => Err(Failed),
    }
}

/// Makes the file longer, if there is one.
fn lengthen_to(file: &mut Option<MemoryFile>, size: usize)
    ensures { file.new ≡ option_map (lengthened size) file.old }
{
    if let Some(file) = file {
        file.lengthen(size);
    }
}

/// Keeps what was written to the file, if there is one.
fn sync_to(file: &mut Option<MemoryFile>)
    ensures { file.new ≡ option_map synced file.old }
{
    if let Some(file) = file {
        file.sync();
    }
}

/// Which calls of a folder in memory fail.
#[derive(Clone, Copy, Debug, PartialEq, Eq)]
pub struct Failing {
    /// How many calls are answered first.
    pub after: usize,
    /// How many calls fail then. The others are answered.
    pub calls: usize,
    /// How many bytes a write takes that fails.
    pub part: usize,
}

impl Failing {
    /// Whether this call fails, which is one more now.
    fn fails_now(&mut self) -> bool {
        if self.after > 0 {
            self.after -= 1;
            return false;
        }
        let fails = self.calls > 0;
        self.calls = self.calls.saturating_sub(1);
        fails
    }
}

/// A journal's file and the one beside it, in memory. A call also fails where memory is refused.
#[derive(Drop)]
pub struct MemoryFolder {
    alloc: Global,
    key: [u8; KEY_BYTES],
    journal: Option<MemoryFile>,
    fresh: Option<MemoryFile>,
    named: bool,
    failing: Failing,
}

impl MemoryFolder {
    /// One without files, that draws this key each time.
    pub fn new(alloc: Global, key: [u8; KEY_BYTES], failing: Failing) -> Self
        ensures journal { result.journal ≡ None }
        ensures fresh { result.fresh ≡ None }
    {
        MemoryFolder {
            alloc,
            key,
            journal: None,
            fresh: None,
            named: false,
            failing,
        }
    }

    /// What was written to the journal's file, if there is one.
    pub fn text(&self) -> Option<&[u8]>
        ensures { IfSome result (λ text. option_map (λ f. f.text) self.now.journal ≡ Some text.now) }
    {
        match &self.journal {
            Some(file) => Some(&file.text),
            None => None,
        }
    }

    /// How many of these bytes are kept.
    pub fn kept(&self) -> usize {
        match &self.journal {
            Some(file) => file.kept,
            None => 0,
        }
    }

    /// A stop of the machine. It leaves so many bytes of what was written to the journal's file, from the front on, and
    /// at least those that were kept. Of the file beside it nothing is left.
    pub fn stop(&mut self, left: usize)
        ensures journal { self.new.journal ≡ option_map (cut_to left) self.old.journal }
        ensures fresh { self.new.fresh ≡ None }
    {
        if let Some(file) = &mut self.journal {
            file.cut(left);
        }
        self.fresh = None;
    }
}

impl Folder for MemoryFolder {
    ghost files = { λ m. Some (record { place = record { file = m.journal; named = m.named }; fresh = m.fresh }) };

    fn create(&mut self) -> Result<(), Failed> {
        if self.failing.fails_now() {
            return Err(Failed);
        }
        self.fresh = Some(MemoryFile::new(self.alloc));
        Ok(())
    }

    fn write(&mut self, name: FileName, bytes: &[u8]) -> Result<(), Failed> {
        let fails = self.failing.fails_now();
        let taken = if fails {
            self.failing.part.min(bytes.len())
        } else {
            bytes.len()
        };
        let (front, _) = bytes.split_at(taken);
        match name {
            FileName::Journal => write_to(&mut self.journal, front)?,
            FileName::Fresh => write_to(&mut self.fresh, front)?,
        }
        if fails { Err(Failed) } else { Ok(()) }
    }

    fn lengthen(&mut self, name: FileName, size: u64) -> Result<(), Failed> {
        if self.failing.fails_now() {
            return Err(Failed);
        }
        match name {
            FileName::Journal => lengthen_to(&mut self.journal, size as usize),
            FileName::Fresh => lengthen_to(&mut self.fresh, size as usize),
        }
        Ok(())
    }

    fn sync(&mut self, name: FileName) -> Result<(), Failed> {
        if self.failing.fails_now() {
            return Err(Failed);
        }
        match name {
            FileName::Journal => sync_to(&mut self.journal),
            FileName::Fresh => sync_to(&mut self.fresh),
        }
        Ok(())
    }

    fn rename(&mut self) -> Result<(), Failed> {
        if self.failing.fails_now() {
            return Err(Failed);
        }
        self.journal = self.fresh.take();
        self.named = false;
        Ok(())
    }

    fn sync_names(&mut self) -> Result<(), Failed> {
        if self.failing.fails_now() {
            return Err(Failed);
        }
        self.named = true;
        Ok(())
    }

    fn read(&self) -> Result<Option<Vec<u8>>, Refusal> {
        let Some(file) = &self.journal else {
            return Ok(None);
        };
        match file.bytes(self.alloc) {
            Ok(bytes) => Ok(Some(bytes)),
            Err(_) => Err(Refusal::NoMemory),
        }
    }

    fn keep_torn(&self) -> Result<(), Refusal> {
        Ok(())
    }

    fn draw_key(&self) -> Result<[u8; KEY_BYTES], Failed> {
        Ok(self.key)
    }
}
