//! A journal, written out: the one of docs/JOURNAL.md.

use journal::{Fault, KEY_BYTES, Writer, hides_kept_frame, read};
use persist::Change;
use std::alloc::Global;
use std::test::Fail;
use words::Refusal;

/// The key of its sums.
const KEY: [u8; KEY_BYTES] = [1, 2, 3, 4, 5, 6, 7, 8];

/// Where its head ends, and its first frame.
const HEAD_END: usize = 48;

const FIRST_END: usize = 88;

/// It begins on the words 5 and 0. Then word 1 becomes 7, and with the second frame word 0 becomes 6 and word 1 is 0.
const JOURNAL: [u8; 140] = [
    0x50, 0x51, 0x4a, 0x31, 0x50, 0x51, 0x57, 0x32, 0x02, 0x00, 0x00, 0x00, 0x00, 0x00, 0x00, 0x00,
    0x05, 0x00, 0x00, 0x00, 0x00, 0x00, 0x00, 0x00, 0x00, 0x00, 0x00, 0x00, 0x00, 0x00, 0x00, 0x00,
    0x01, 0x02, 0x03, 0x04, 0x05, 0x06, 0x07, 0x08, 0x1b, 0x2b, 0xc9, 0xb9, 0x09, 0x54, 0xbd, 0x02,
    0x1b, 0x2b, 0xc9, 0xb9, 0x09, 0x54, 0xbd, 0x02, 0x30, 0x00, 0x00, 0x00, 0x00, 0x00, 0x00, 0x00,
    0x01, 0x00, 0x00, 0x00, 0x01, 0x00, 0x00, 0x00, 0x07, 0x00, 0x00, 0x00, 0x00, 0x00, 0x00, 0x00,
    0xd1, 0xef, 0x6a, 0xe4, 0x42, 0x72, 0xd4, 0x9f, 0xd1, 0xef, 0x6a, 0xe4, 0x42, 0x72, 0xd4, 0x9f,
    0x58, 0x00, 0x00, 0x00, 0x00, 0x00, 0x00, 0x00, 0x02, 0x00, 0x00, 0x00, 0x00, 0x00, 0x00, 0x00,
    0x06, 0x00, 0x00, 0x00, 0x00, 0x00, 0x00, 0x00, 0x01, 0x00, 0x00, 0x00, 0x00, 0x00, 0x00, 0x00,
    0x00, 0x00, 0x00, 0x00, 0xe0, 0xbf, 0x5d, 0x5e, 0xbd, 0x33, 0x1f, 0x32,
];

fn change(word: usize, old: u64, new: u64) -> Change {
    Change { word, old, new }
}

/// Adds the two frames, and says whether the head and the first one end where they are to.
fn add_frames(bytes: &mut Vec<u8>, writer: &mut Writer) -> Result<bool, Refusal> {
    let head = bytes.len() == HEAD_END;
    writer.frame(bytes, HEAD_END as u64, &[change(1, 0, 7)])?;
    let first = bytes.len() == FIRST_END;
    writer.frame(bytes, FIRST_END as u64, &[change(0, 5, 6), change(1, 7, 0)])?;
    Ok(head && first)
}

#[test]
fn a_writer_writes_it(rt: HostRuntime) -> Result<(), Fail> {
    let (mut bytes, mut writer) = Writer::begin(rt.alloc(), &KEY, &[5, 0])?;
    let are_right = add_frames(&mut bytes, &mut writer);
    assert_eq!(rt; are_right, Ok(true));
    assert_eq!(rt; bytes.as_slice(), JOURNAL.as_slice());
    Ok(())
}

/// Whether these bytes are read as a journal that ends on these words, with so many bytes cut off.
fn is_read_as(alloc: Global, bytes: &[u8], words: &[u64], cut: usize) -> Result<bool, Fault> {
    let reading = read(alloc, bytes)?;
    Ok(reading.key == KEY && reading.words.as_slice() == words && reading.cut == cut)
}

#[test]
fn it_is_read(rt: HostRuntime) -> Result<(), Fail> {
    for (bytes, words, cut) in [
        (JOURNAL.as_slice(), [6, 0], 0),
        (&JOURNAL[..FIRST_END + 1], [5, 7], 1),
        (&JOURNAL[..HEAD_END], [5, 0], 0),
    ] {
        let is_read = is_read_as(rt.alloc(), bytes, &words, cut)?;
        assert!(rt; is_read, "{words:?}");
    }
    Ok(())
}

#[test]
fn a_damaged_head_is_refused(rt: HostRuntime) -> Result<(), Fail> {
    for (at, fault) in [
        (0, Fault::Refused(Refusal::BadMagic)),
        (7, Fault::Refused(Refusal::BadMagic)),
        (8, Fault::BadSum),
        (11, Fault::Refused(Refusal::BadCount)),
        (10, Fault::Refused(Refusal::Truncated)),
        (16, Fault::BadSum),
        (32, Fault::BadSum),
        (47, Fault::BadSum),
    ] {
        let mut bytes = JOURNAL;
        bytes[at % 140] ^= 1;
        assert_eq!(rt; read(rt.alloc(), &bytes).err(), Some(fault));
    }
    Ok(())
}

/// Whether these bytes are read up to there, and what is cut off hides a kept frame or does not.
fn is_cut_at(alloc: Global, bytes: &[u8], end: usize, hides: bool) -> Result<bool, Fault> {
    let reading = read(alloc, bytes)?;
    let is_cut = reading.cut == bytes.len().saturating_sub(end);
    Ok(is_cut && hides_kept_frame(&KEY, bytes, end) == hides)
}

#[test]
fn damage_before_a_kept_frame_is_no_torn_tail(rt: HostRuntime) -> Result<(), Fail> {
    // The first frame was kept when the second was written; the second may be torn.
    for (at, end, hides) in [
        (60, HEAD_END, true),
        (87, HEAD_END, true),
        (100, FIRST_END, false),
    ] {
        let mut bytes = JOURNAL;
        bytes[at % 140] ^= 1;
        let is_cut = is_cut_at(rt.alloc(), &bytes, end, hides)?;
        assert!(rt; is_cut, "{at}");
    }
    Ok(())
}
