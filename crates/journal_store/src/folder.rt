//! The calls of a file system by which a journal is kept.

ghost use Rattle.std.specs.Prelude.{◌≡◌, Option, option_map, IfOk, OnErr, OnOk};
ghost use Rattle.journal_store.specs.Folder.{Files, IsReadThere, IsWithin, LeavesPlace, WritesPart, changed, created};
ghost use Rattle.journal_store.specs.Folder.{MayRename, lengthened, names_kept, renamed, synced, written};

use devices::Failed;
use journal::KEY_BYTES;
use words::Refusal;

/// The names of a journal's files.
#[derive(Clone, Copy, Debug, PartialEq, Eq)]
pub enum FileName {
    /// The journal's own.
    Journal,
    /// That of the file beside it which is to take its place.
    Fresh,
}

/// A journal's file and the one beside it, which nobody else writes. A file is written from its end on, through what was
/// opened when it was made, whatever its name is by then.
pub trait Folder {
    /// The files, where they are known.
    ghost files: { Self → Option Files };

    /// Makes an empty file of the fresh one's name, in place of any other.
    fn create(&mut self) -> Result<(), Failed>
        ensures made { OnOk result (files self.new ≡ option_map created (files self.old)) }
        ensures place { OnErr result (LeavesPlace (files self.old) (files self.new)) };

    /// Writes these bytes behind what was written. Where it fails, it has written a beginning of them.
    fn write(&mut self, name: FileName, bytes: &[u8]) -> Result<(), Failed>
        ensures all { OnOk result (files self.new ≡ option_map (changed name (written bytes.now)) (files self.old)) }
        ensures part { OnErr result (WritesPart name bytes.now (files self.old) (files self.new)) };

    /// Makes the file so long, by zeros behind what was written.
    fn lengthen(&mut self, name: FileName, size: u64) -> Result<(), Failed>
        requires { IsWithin name size (files self.old) }
        ensures made { OnOk result (files self.new ≡ option_map (changed name (lengthened size)) (files self.old)) }
        ensures stays { OnErr result (files self.new ≡ files self.old) };

    /// Keeps what was written to the file.
    fn sync(&mut self, name: FileName) -> Result<(), Failed>
        ensures kept { OnOk result (files self.new ≡ option_map (changed name synced) (files self.old)) }
        ensures stays { OnErr result (files self.new ≡ files self.old) };

    /// Gives the journal's name to the fresh file. Where that fails, it may have been given.
    fn rename(&mut self) -> Result<(), Failed>
        ensures renamed { OnOk result (files self.new ≡ option_map renamed (files self.old)) }
        ensures either { OnErr result (MayRename (files self.old) (files self.new)) };

    /// Keeps the names as they are.
    fn sync_names(&mut self) -> Result<(), Failed>
        ensures kept { OnOk result (files self.new ≡ option_map names_kept (files self.old)) }
        ensures stays { OnErr result (files self.new ≡ files self.old) };

    /// The bytes of the journal's file; nothing, where there is none. Of one that begins no journal it may be the first
    /// bytes alone. It is refused where the file is there and cannot be read (ReadFailed), and for want of memory
    /// (NoMemory).
    fn read(&self) -> Result<Option<Vec<u8>>, Refusal>
        ensures { IfOk result (λ read. IsReadThere (files self.now) (option_map (λ bytes. bytes.items) read)) };

    /// Gives the journal's file another name too, for one that ended in the middle of a frame, in place of the last such
    /// one. It is refused where that fails (WriteFailed), and for want of memory (NoMemory).
    fn keep_torn(&self) -> Result<(), Refusal>;

    /// A key that was just drawn.
    fn draw_key(&self) -> Result<[u8; KEY_BYTES], Failed>;
}
