//! What holds of every journal in a storage.

ghost use Rattle.journal_file.specs.OnDevice.{IsSoOfEach, IsSoOfFailed, IsSoOfRunning};
ghost use Rattle.journal_file.specs.Restart.{EachKillHas, EachKillMayHaveMore, EachStopHas, IsReadWhole};

/// What stands at the place of a storage that has not failed is read as the journal's words, and nothing is cut off.
pub fn running_journals_are_read()
    ensures { IsSoOfRunning IsReadWhole }
{}

/// A restart: what is left of a journal is read as the words after a beginning of its batches, which has all that were
/// there when all was last kept. `stopped` is for whatever a stop may leave; `killed` for what is left of the bytes at
/// the place, from the front on, where that has all that was kept; and `failed` for those of a storage that has failed.
/// Then it may be the frame of one batch more, whose append was answered by an error; or a journal of the same words
/// that was to take the place.
pub fn restarts_have_what_was_kept()
    ensures stopped { IsSoOfEach EachStopHas }
    ensures killed { IsSoOfRunning EachKillHas }
    ensures failed { IsSoOfFailed EachKillMayHaveMore }
{}
