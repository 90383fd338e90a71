//! What holds of every journal's file.

ghost use Rattle.std.specs.Prelude.{ℕ};
ghost use Rattle.journal_store.specs.Folder.{Files};
ghost use Rattle.journal_store.specs.Stops.{IsCutOff};

/// What a stop leaves of the files, as it is of those in memory, is at the place of their storage a beginning of what
/// stood there, which has all that the storage says is kept.
pub fn stops_leave_a_beginning_there()
    ensures { (fs : Files) (left : ℕ) → IsCutOff fs left }
{}
