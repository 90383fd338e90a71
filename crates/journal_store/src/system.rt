//! Files of the system. No contract says what is in them.

ghost use Rattle.std.specs.Prelude.{None};

use crate::fault::Fault;
use crate::folder::{FileName, Folder};
use devices::{CountedWriter, Failed, write_all};
use journal::{Fault as Unread, KEY_BYTES};
use std::fs::{self, File, OpenOptions};
use std::io::{self, ErrorKind, Read};
use std::path::Path;
use std::random::RandomSource;
use words::Refusal;

/// How many bytes tell that a file is no journal.
const FIRST_BYTES: u64 = 8;

/// A journal's file, which no other program uses as long as this is there. Beside `FILE` are `FILE.lock`, which says so,
/// `FILE.new`, which is written before it takes the place of `FILE`, and `FILE.torn`, the last one that ended in the
/// middle of a frame.
#[derive(Drop)]
pub struct SystemFolder<'a> {
    rt: &'a HostRuntime,
    path: &'a str,
    fresh_path: String,
    journal: Option<File>,
    fresh: Option<File>,
    _lock: File,
}

/// A path with this behind its name.
fn beside(rt: &HostRuntime, path: &str, suffix: &str) -> Result<String, Refusal> {
    match format!(in rt.alloc(); "{path}.{suffix}") {
        Ok(beside) => Ok(beside),
        Err(_) => Err(Refusal::NoMemory),
    }
}

/// The file of this path, locked until it is closed, which a kill does, too. It stands beside the journal and is never
/// renamed or removed: a journal is replaced by another file, whose lock would be another one. It is refused where
/// another program holds the lock (InUse), and where there can be no such file (WriteFailed).
fn locked(rt: &HostRuntime, path: &str) -> Result<File, Fault> {
    let opened = OpenOptions::new()
        .read(true)
        .write(true)
        .create(true)
        .open(rt, path);
    let Ok(file) = opened else {
        return Err(Fault::Refused(Refusal::WriteFailed));
    };
    match file.try_lock() {
        Ok(()) => Ok(file),
        Err(error) => Err(why_not(&io::Error::from(error))),
    }
}

/// What a fault of the lock is.
fn why_not(error: &io::Error) -> Fault {
    match error.kind() {
        ErrorKind::WouldBlock => Fault::InUse,
        _ => Fault::Refused(Refusal::WriteFailed),
    }
}

/// Whether these may be the first bytes of a journal.
fn begins_journal(rt: &HostRuntime, bytes: &[u8]) -> bool {
    !matches!(
        journal::read(rt.alloc(), bytes),
        Err(Unread::Refused(Refusal::BadMagic))
    )
}

/// All bytes of the file; or the first ones, where these begin no journal, so that a file that never ends is read no
/// further.
fn read_whole(rt: &HostRuntime, path: &str) -> io::Result<Vec<u8>> {
    let file = File::open(rt, path)?;
    let mut bytes = Vec::new(rt.alloc());
    let mut first = file.take(FIRST_BYTES);
    first.read_to_end(&mut bytes)?;
    if begins_journal(rt, &bytes) {
        first.into_inner().read_to_end(&mut bytes)?;
    }
    Ok(bytes)
}

impl<'a> SystemFolder<'a> {
    /// The folder of this path, for this program alone. It is refused where another program uses it (InUse), where there
    /// can be no `FILE.lock` (WriteFailed), and for want of memory (NoMemory).
    pub fn open(rt: &'a HostRuntime, path: &'a str) -> Result<Self, Fault> {
        let lock = locked(rt, &beside(rt, path, "lock")?)?;
        Ok(SystemFolder {
            rt,
            path,
            fresh_path: beside(rt, path, "new")?,
            journal: None,
            fresh: None,
            _lock: lock,
        })
    }

    /// The file of this name, where it was made here.
    fn file(&self, name: FileName) -> Result<&File, Failed> {
        let file = match name {
            FileName::Journal => &self.journal,
            FileName::Fresh => &self.fresh,
        };
        match file {
            Some(file) => Ok(file),
            None => Err(Failed),
        }
    }
}

/// The answer of the system, but for its reason.
fn answered(answer: io::Result<()>) -> Result<(), Failed> {
    match answer {
        Ok(()) => Ok(()),
        Err(_) => Err(Failed),
    }
}

/// What is in the files is not known: that the calls of the system do what [`Folder`] says of them is a premise.
impl Folder for SystemFolder<'_> {
    ghost files = { λ _. None };

    fn create(&mut self) -> Result<(), Failed> {
        match File::create(self.rt, &self.fresh_path) {
            Ok(file) => {
                self.fresh = Some(file);
                Ok(())
            }
            Err(_) => Err(Failed),
        }
    }

    fn write(&mut self, name: FileName, bytes: &[u8]) -> Result<(), Failed> {
        let mut writer = CountedWriter::new(self.file(name)?);
        write_all(&mut writer, bytes)
    }

    fn lengthen(&mut self, name: FileName, size: u64) -> Result<(), Failed> {
        answered(self.file(name)?.set_len(size))
    }

    fn sync(&mut self, name: FileName) -> Result<(), Failed> {
        answered(self.file(name)?.sync_data())
    }

    fn rename(&mut self) -> Result<(), Failed> {
        answered(fs::rename(self.rt, &self.fresh_path, self.path))?;
        self.journal = self.fresh.take();
        Ok(())
    }

    fn sync_names(&mut self) -> Result<(), Failed> {
        let folder = match Path::new(self.path).parent() {
            Some(parent) if !parent.as_str().is_empty() => parent.as_str(),
            _ => ".",
        };
        match File::open(self.rt, folder) {
            Ok(folder) => answered(folder.sync_all()),
            Err(_) => Err(Failed),
        }
    }

    fn read(&self) -> Result<Option<Vec<u8>>, Refusal> {
        match read_whole(self.rt, self.path) {
            Ok(bytes) => Ok(Some(bytes)),
            Err(error) => match error.kind() {
                ErrorKind::NotFound => Ok(None),
                ErrorKind::OutOfMemory => Err(Refusal::NoMemory),
                _ => Err(Refusal::ReadFailed),
            },
        }
    }

    fn keep_torn(&self) -> Result<(), Refusal> {
        let torn = beside(self.rt, self.path, "torn")?;
        // There may be none yet.
        let _ = fs::remove_file(self.rt, &torn);
        match fs::hard_link(self.rt, self.path, &torn) {
            Ok(()) => Ok(()),
            Err(_) => Err(Refusal::WriteFailed),
        }
    }

    fn draw_key(&self) -> Result<[u8; KEY_BYTES], Failed> {
        let mut key = [0; KEY_BYTES];
        match self.rt.fill_bytes(&mut key) {
            Ok(()) => Ok(key),
            Err(_) => Err(Failed),
        }
    }
}
