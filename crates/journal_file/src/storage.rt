//! The place where a journal stands.

ghost use Rattle.std.specs.Prelude.{◌≡◌, ℕ, List, Option, Bool, Err, true, false, OnOk, OnErr, is_err};
ghost use Rattle.std.specs.Io.KnownBytes.{append_known};
ghost use Rattle.journal_file.specs.Appended.{AppendsPart, HasEither, HasJust, IsAllKept};

use devices::Failed;
use journal::KEY_BYTES;

/// Why other bytes did not take the place.
#[derive(Clone, Copy, Debug, PartialEq, Eq)]
pub enum Unplaced {
    /// What stood there stands there still, and is used as before.
    Stays,
    /// They may have taken it or not.
    Unknown,
}

/// A place where one journal stands. Bytes are put behind those that stand there, and other ones take the place of all of
/// them. Once that failed, nothing is put behind what stands there: what a failed append took is not known, and what a
/// failed sync covered may be gone. Other bytes may take the place then.
pub trait Storage {
    /// What stands there, where it is known. Zeros may follow.
    ghost appended: { Self → Option (List ℕ) };

    /// How many bytes of it, from the first one on, no stop of the machine takes away.
    ghost kept: { Self → ℕ };

    /// Whether it has failed, or no bytes have taken the place yet.
    ghost failed: { Self → Bool };

    /// Appends the bytes to what stands there. Where it fails, it has appended a beginning of them.
    fn append(&mut self, bytes: &[u8]) -> Result<(), Failed>
        requires { failed self.old ≡ false }
        ensures all { OnOk result (appended self.new ≡ append_known (appended self.old) bytes.now) }
        ensures part { OnErr result (AppendsPart (appended self.old) (appended self.new) bytes.now) }
        ensures kept { kept self.new ≡ kept self.old }
        ensures failed { failed self.new ≡ is_err result };

    /// Keeps all that stands there, so that no stop of the machine takes it away.
    fn keep(&mut self) -> Result<(), Failed>
        requires { failed self.old ≡ false }
        ensures bytes { appended self.new ≡ appended self.old }
        ensures all { OnOk result (IsAllKept (appended self.new) (kept self.new)) }
        ensures stays { OnErr result (kept self.new ≡ kept self.old) }
        ensures failed { failed self.new ≡ is_err result };

    /// Whether it has failed, or no bytes have taken the place yet.
    fn has_failed(&self) -> bool
        ensures { result ≡ failed self.now };

    /// These bytes take the place of all that stands there, for good, and are kept.
    fn replace(&mut self, bytes: &[u8]) -> Result<(), Unplaced>
        ensures all { OnOk result (HasJust (appended self.new) (kept self.new) bytes.now) }
        ensures going { OnOk result (failed self.new ≡ false) }
        ensures bytes { result ≡ Err Unplaced.Stays → appended self.new ≡ appended self.old }
        ensures kept { result ≡ Err Unplaced.Stays → kept self.new ≡ kept self.old }
        ensures failed { result ≡ Err Unplaced.Stays → failed self.new ≡ failed self.old }
        // What stands there is one of two, each with what of it is kept.
        ensures either { result ≡ Err Unplaced.Unknown
            → HasEither (appended self.old) (kept self.old) (appended self.new) (kept self.new) bytes.now }
        ensures over { result ≡ Err Unplaced.Unknown → failed self.new ≡ true };

    /// How often the place told that it is still this one's, by an append, by other bytes that took it or by a
    /// confirmation. A place that nobody else can take tells nothing.
    fn answers(&self) -> u64;

    /// Asks the place whether it is still this one's. Where it is another's by now, or does not tell, this fails.
    fn confirm(&mut self) -> Result<(), Failed>
        requires { failed self.old ≡ false }
        ensures bytes { appended self.new ≡ appended self.old }
        ensures kept { kept self.new ≡ kept self.old }
        ensures failed { failed self.new ≡ is_err result };

    /// A key that was just drawn, for the journal that is to take the place next.
    fn draw_key(&self) -> Result<[u8; KEY_BYTES], Failed>;
}
