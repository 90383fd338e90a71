//! Words after the frames of a journal.

ghost use Rattle.std.specs.Prelude.{◌≡◌, ◌<◌, length, All};
ghost use Rattle.journal.specs.Reading.{replay, values_set, word_in};

use crate::format::{CHANGE_BYTES, KEY_BYTES, SUM_BYTES};
use crate::frame::{next_frame, word_and_value};

/// Makes the changes, the first one first.
fn set_values(words: &mut [u64], changes: &[[u8; CHANGE_BYTES]])
    requires { All (λ change. word_in change < length words.old) changes.now }
    ensures { words.new ≡ values_set words.old changes.now }
{
    for change in changes {
        let (word, value) = word_and_value(change);
        words[word] = value;
    }
}

/// Makes the changes of all whole frames that the bytes go on with from a frame, or a head, of this sum. It answers how
/// many bytes follow the last of them.
pub(crate) fn replay_frames(
    key: &[u8; KEY_BYTES],
    sum: &[u8; SUM_BYTES],
    words: &mut [u64],
    bytes: &[u8],
) -> usize
    ensures words { let after = replay key.now sum.now words.old bytes.now in words.new ≡ after.words }
    ensures cut { let after = replay key.now sum.now words.old bytes.now in result ≡ length after.tail }
{
    let mut before = *sum;
    let mut rest = bytes;
    while let Some(frame) = next_frame(key, &before, words.len(), rest) {
        set_values(words, frame.changes);
        before = *frame.sum;
        rest = frame.rest;
    }
    rest.len()
}
