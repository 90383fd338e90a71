//! A journal's head, and its frames, as bytes.

ghost use Rattle.std.specs.Prelude.{◌≡◌, ◌^◌, ◌≤◌, ◌++◌, ◌↔◌, ◌<◌, [], All, length, take, IsTrue, IfOk, IfErr, OnOk, OnErr};
ghost use Rattle.std.specs.List.{flat_map};
ghost use Rattle.journal.specs.Frame.{batch_of, change_bytes, frame_of, frame_sum, front_of};
ghost use Rattle.journal.specs.Journal.{AreOfWords, head_front, head_of};

use crate::checksum::checksum;
use crate::format::{FIRST_BYTES, KEY_BYTES, MAX_CHANGES, SUM_BYTES};
use persist::{Change, HEADER_BYTES, MAX_WORDS, NUMBER_BYTES};
use std::alloc::{AllocError, Global};
use std::marker::Model;
use words::Refusal;

/// A head but for its sum.
fn front_of_head(alloc: Global, key: &[u8; KEY_BYTES], base: &[u64]) -> Result<Vec<u8>, AllocError>
    requires { length base.now ≤ MAX_WORDS }
    ensures { IfOk result (λ front. front.items ≡ head_front key.now base.now) }
{
    let size = HEADER_BYTES + NUMBER_BYTES * base.len() + KEY_BYTES + SUM_BYTES;
    let mut front = Vec::with_capacity(alloc, size)?;
    front.extend_from_slice(&FIRST_BYTES)?;
    front.extend_from_slice(&(base.len() as u64).to_le_bytes())?;
    for word in base {
        front.extend_from_slice(&word.to_le_bytes())?;
    }
    front.extend_from_slice(key)?;
    Ok(front)
}

/// Appends a change. Where memory is refused, a part of it may be appended.
fn append_change(out: &mut Vec<u8>, change: &Change) -> Result<(), AllocError>
    requires { change.now.word < 2 ^ 32 }
    ensures ok { OnOk result (out.new.items ≡ out.old.items ++ change_bytes change.now) }
    // A fact of the argument's type, which a caller has from here alone.
    ensures value { OnOk result (change.now.new < 2 ^ 64) }
    ensures begins { take (length out.old.items) out.new.items ≡ out.old.items }
{
    out.extend_from_slice(&(change.word as u32).to_le_bytes())?;
    out.extend_from_slice(&change.new.to_le_bytes())
}

/// Appends changes, one behind the other. Where memory is refused, a part of them may be appended.
fn append_changes(out: &mut Vec<u8>, changes: &[Change]) -> Result<(), AllocError>
    requires { AreOfWords (2 ^ 32) changes.now }
    ensures ok { OnOk result (out.new.items ≡ out.old.items ++ flat_map change_bytes changes.now) }
    // A fact of the argument's type, which a caller has from here alone.
    ensures values { OnOk result (All (λ change. change.new < 2 ^ 64) changes.now) }
    ensures begins { take (length out.old.items) out.new.items ≡ out.old.items }
{
    for change in changes {
        append_change(out, change)?;
    }
    Ok(())
}

/// Appends a frame but for its sum. Where memory is refused, a part of it may be appended.
fn append_front(
    out: &mut Vec<u8>,
    before: &[u8; SUM_BYTES],
    kept: u64,
    changes: &[Change],
) -> Result<(), AllocError>
    requires few { length changes.now ≤ MAX_CHANGES }
    requires within { AreOfWords (2 ^ 32) changes.now }
    ensures ok { OnOk result (out.new.items
        ≡ out.old.items ++ front_of before.now (batch_of kept changes.now)) }
    ensures values { OnOk result (All (λ change. change.new < 2 ^ 64) changes.now) }
    ensures begins { take (length out.old.items) out.new.items ≡ out.old.items }
{
    out.extend_from_slice(before)?;
    out.extend_from_slice(&kept.to_le_bytes())?;
    out.extend_from_slice(&(changes.len() as u32).to_le_bytes())?;
    append_changes(out, changes)
}

/// Appends a frame. It answers its sum. Where memory is refused, a part of it may be appended.
fn append_frame(
    out: &mut Vec<u8>,
    key: &[u8; KEY_BYTES],
    before: &[u8; SUM_BYTES],
    kept: u64,
    changes: &[Change],
) -> Result<[u8; SUM_BYTES], AllocError>
    requires few { length changes.now ≤ MAX_CHANGES }
    requires within { AreOfWords (2 ^ 32) changes.now }
    ensures ok { OnOk result (out.new.items ≡ out.old.items
        ++ frame_of key.now before.now (batch_of kept changes.now)) }
    ensures sum { IfOk result (λ sum. sum
        ≡ frame_sum key.now before.now (batch_of kept changes.now)) }
    ensures values { OnOk result (All (λ change. change.new < 2 ^ 64) changes.now) }
    ensures begins { take (length out.old.items) out.new.items ≡ out.old.items }
{
    let start = out.len();
    append_front(out, before, kept, changes)?;
    let sum = checksum(key, &out[start..]);
    out.extend_from_slice(&sum)?;
    Ok(sum)
}

/// Whether all changes are of one of so many words.
fn all_of_words(size: usize, changes: &[Change]) -> bool
    ensures { IsTrue result ↔ AreOfWords size changes.now }
{
    changes.iter().all(|change| change.word < size)
}

/// Where a journal goes on: its key, the sum of its last frame or of its head, and how many words it is of.
#[derive(Drop)]
pub struct Writer {
    key: [u8; KEY_BYTES],
    sum: [u8; SUM_BYTES],
    size: usize,
}

impl Model for Writer {
    ghost use Rattle.std.specs.Prelude.{◌≤◌};
    ghost use Rattle.journal.specs.Journal.{End};
    ghost use Rattle.persist.specs.declared.memory.TheConstants.{MAX_WORDS};

    ghost Value = { End };

    ghost view = { λ w. record { key = w.key; sum = w.sum; size = w.size } };

    ghost invariant = { λ w. w.size ≤ MAX_WORDS };
}

impl Writer {
    ghost use Rattle.journal.specs.Frame.{IsBatchIn};
    ghost use Rattle.journal.specs.Journal.{MayRefuseBase, MayRefuseFrame, end_behind, end_of, frame_behind};
    ghost use Rattle.persist.specs.Image.{AreWords};

    /// The head of a journal of these words, as bytes, and where it goes on. It is refused where there is no word, or
    /// there are more than 8,388,608 (BadCount), and then where memory is (NoMemory). The key is to be drawn anew for
    /// each journal: then no bytes that clients choose are a frame of it.
    pub fn begin(
        alloc: Global,
        key: &[u8; KEY_BYTES],
        base: &[u64],
    ) -> Result<(Vec<u8>, Self), Refusal>
        ensures head { IfOk result (λ begun. begun.0.items ≡ head_of key.now base.now) }
        ensures end { IfOk result (λ begun. begun.1 ≡ end_of key.now base.now []) }
        ensures words { IfOk result (λ begun. AreWords base.now) }
        ensures errors { IfErr result (MayRefuseBase base.now) }
    {
        if base.is_empty() || base.len() > MAX_WORDS {
            return Err(Refusal::BadCount);
        }
        let Ok(mut head) = front_of_head(alloc, key, base) else {
            return Err(Refusal::NoMemory);
        };
        let sum = checksum(key, &head);
        if head.extend_from_slice(&sum).is_err() {
            return Err(Refusal::NoMemory);
        }
        let writer = Writer {
            key: *key,
            sum,
            size: base.len(),
        };
        Ok((head, writer))
    }

    /// Appends the frame of these changes, the first made first. `kept` is how many bytes of the file are kept by now.
    /// It is refused where there is no change, or there are more than [`MAX_CHANGES`] (BadCount), where one is of a
    /// word that is not there (NoWord), and where memory is refused (NoMemory). Then the bytes are as they were.
    pub fn frame(&mut self, out: &mut Vec<u8>, kept: u64, changes: &[Change]) -> Result<(), Refusal>
        ensures ok { OnOk result (out.new.items ≡ out.old.items ++ frame_behind self.old (batch_of kept changes.now)) }
        ensures goes_on { OnOk result (self.new ≡ end_behind self.old (batch_of kept changes.now)) }
        ensures batch { OnOk result (IsBatchIn self.old.size (batch_of kept changes.now)) }
        ensures err { OnErr result (out.new.items ≡ out.old.items) }
        ensures stays { OnErr result (self.new ≡ self.old) }
        ensures errors { IfErr result (MayRefuseFrame self.old.size changes.now) }
    {
        if changes.is_empty() || changes.len() > MAX_CHANGES {
            return Err(Refusal::BadCount);
        }
        if !all_of_words(self.size, changes) {
            return Err(Refusal::NoWord);
        }
        let start = out.len();
        let Ok(sum) = append_frame(out, &self.key, &self.sum, kept, changes) else {
            out.truncate(start);
            return Err(Refusal::NoMemory);
        };
        self.sum = sum;
        Ok(())
    }
}
