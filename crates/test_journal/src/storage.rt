//! Journals in a storage whose calls fail at each call of a story, behind each of some bytes of a write; and one of the
//! system's files.

use crate::story::Moment;
use journal::{Fault, KEY_BYTES, read};
use journal_file::{Journal, Storage};
use journal_store::{Failing, Fault as StoreFault, MemoryFolder, Store, SystemFolder};
use persist::Change;
use std::alloc::Global;
use std::fs;
use std::process::Abort;
use std::test::Fail;
use words::Refusal;

const KEY: [u8; KEY_BYTES] = *b"a key 42";

/// How many batches a story has.
const ROUNDS: u64 = 6;

/// How many calls its folder gets, if none fails: six for the head, one for each batch, one each second batch, and two
/// that make room.
const CALLS: usize = 17;

/// How many of them the head takes.
const HEAD_CALLS: usize = 6;

/// How many bytes a failing write takes. A frame of two changes has 52.
const PARTS: [usize; 6] = [0, 1, 20, 51, 52, 1_000];

/// How many bytes a frame of two changes has.
const FRAME: usize = 52;

/// No call fails.
const NONE: Failing = Failing {
    after: 0,
    calls: 0,
    part: 0,
};

/// A journal in memory.
type Kept = Journal<Store<MemoryFolder>>;

/// The words of each story.
fn first_words(alloc: Global) -> Result<Vec<u64>, Fail> {
    let mut words = Vec::new(alloc);
    words.extend_from_slice(&[5, 0, 9])?;
    Ok(words)
}

/// The changes of a round.
fn changes(round: u64) -> [Change; 2] {
    let word = (round % 3) as usize;
    [
        Change {
            word,
            old: 0,
            new: round.wrapping_mul(1_000_003),
        },
        Change {
            word: 2 - word.min(2),
            old: 0,
            new: round,
        },
    ]
}

/// A journal, what it was after the head and after each batch, and how many of these moments were there when all was
/// last kept. Where its storage failed at an append, a moment more is what that batch would have made.
#[derive(Drop)]
struct Told {
    journal: Kept,
    moments: Vec<Moment>,
    kept: usize,
    tried: Option<Moment>,
}

/// What the journal is by now.
fn moment(journal: &Kept, alloc: Global) -> Result<Moment, Fail> {
    let mut words = Vec::new(alloc);
    words.extend_from_slice(journal.words())?;
    Ok(Moment {
        end: journal.size() as usize,
        kept: journal.kept() as usize,
        words,
    })
}

/// What the next batch would make of it.
fn next_moment(last: Moment, batch: &[Change]) -> Moment {
    let mut last = last;
    for change in batch {
        if let Some(word) = last.words.get_mut(change.word) {
            *word = change.new;
        }
    }
    last.end = last.end.saturating_add(FRAME);
    last
}

/// Appends the batch of a round, and each second time keeps all.
fn tell_round(told: &mut Told, alloc: Global, round: u64) -> Result<(), Fail> {
    let batch = changes(round);
    let before = moment(&told.journal, alloc)?;
    if told.journal.append(alloc, &batch).is_err() {
        told.tried = Some(next_moment(before, &batch));
        return Ok(());
    }
    told.moments.push(moment(&told.journal, alloc)?)?;
    if round % 2 == 1 && told.journal.keep().is_ok() {
        told.kept = told.moments.len();
    }
    Ok(())
}

/// The story where so many calls fail, as far as it gets. None where not even the head is kept.
fn tell(alloc: Global, failing: Failing) -> Result<Option<Told>, Fail> {
    let storage = Store::new(MemoryFolder::new(alloc, KEY, failing));
    let key = storage.draw_key()?;
    let journal = match Journal::begin(alloc, storage, &key, first_words(alloc)?) {
        Ok(journal) => journal,
        Err(Refusal::WriteFailed) => return Ok(None),
        Err(refusal) => return Err(refusal.into()),
    };
    let mut moments = Vec::new(alloc);
    moments.push(moment(&journal, alloc)?)?;
    let mut told = Told {
        journal,
        moments,
        kept: 1,
        tried: None,
    };
    for round in 0..ROUNDS {
        if !told.journal.has_failed() {
            tell_round(&mut told, alloc, round)?;
        }
    }
    Ok(Some(told))
}

/// What stands at the place of a journal.
fn text(journal: &Kept) -> &[u8] {
    match journal.storage().folder().text() {
        Some(text) => text,
        None => &[],
    }
}

/// How much of it is kept.
fn kept(journal: &Kept) -> usize {
    journal.storage().folder().kept()
}

/// The last moment that ends there or before, if it is one of those that count.
fn last_moment(told: &Told, end: usize, least: usize) -> Option<&Moment> {
    if let Some(tried) = &told.tried {
        if tried.end <= end {
            return Some(tried);
        }
    }
    let ended = told
        .moments
        .iter()
        .filter(|moment| moment.end <= end)
        .count();
    if ended < least {
        return None;
    }
    told.moments.get(ended.checked_sub(1)?)
}

/// Whether these bytes are read as the last moment that ends there or before, and this is one of those that count.
fn is_read_as_a_moment(
    alloc: Global,
    told: &Told,
    bytes: &[u8],
    least: usize,
) -> Result<bool, Fail> {
    let Some(last) = last_moment(told, bytes.len(), least) else {
        return Ok(false);
    };
    Ok(read(alloc, bytes)?.words.as_slice() == last.words.as_slice())
}

/// Whether whatever a kill leaves is read as a moment that was kept, or a later one. So is what a disk leaves that loses
/// what it said it kept, down to the head, but then as any moment.
fn each_cut_is_read(alloc: Global, told: &Told) -> Result<bool, Fail> {
    let bytes = text(&told.journal);
    let kept = kept(&told.journal);
    let head = told.moments.first().map_or(0, |moment| moment.end);
    for n in head..=bytes.len() {
        let least = if n < kept { 1 } else { told.kept };
        let left = bytes.get(..n).ok_or("past the end")?;
        if !is_read_as_a_moment(alloc, told, left, least)? {
            return Ok(false);
        }
    }
    Ok(true)
}

/// Whether a failed storage is left alone, and its journal keeps its words.
fn is_left_alone(alloc: Global, told: &mut Told) -> Result<bool, Fail> {
    let len = text(&told.journal).len();
    let had = kept(&told.journal);
    let appended = told.journal.append(alloc, &changes(7));
    let again = told.journal.keep();
    let last = told.moments.last().ok_or("no moment")?;
    Ok(
        appended == Err(Refusal::WriteFailed)
            && again == Err(Refusal::WriteFailed)
            && text(&told.journal).len() == len
            && kept(&told.journal) == had
            && told.journal.words() == last.words.as_slice(),
    )
}

/// Whether these bytes are read as these words, with nothing cut off.
fn is_read_as(alloc: Global, bytes: &[u8], words: &[u64]) -> Result<bool, Fault> {
    let reading = read(alloc, bytes)?;
    Ok(reading.words.as_slice() == words && reading.cut == 0)
}

/// Whether a journal has its words, goes on, and keeps all.
fn goes_on(alloc: Global, journal: &mut Kept) -> Result<bool, Fail> {
    let is_begun = is_read_as(alloc, text(journal), journal.words())?;
    journal.append(alloc, &changes(7))?;
    journal.keep()?;
    let is_on = is_read_as(alloc, text(journal), journal.words())?;
    Ok(
        is_begun
            && is_on
            && journal.kept() as usize == kept(journal)
            && journal.kept() == journal.size(),
    )
}

/// Whether it goes on once it is compacted.
fn goes_on_anew(alloc: Global, told: &mut Told) -> Result<bool, Fail> {
    if told.journal.compact(alloc, b"newer 44").is_err() {
        return Ok(false);
    }
    let is_short = text(&told.journal).len() == told.moments.first().map_or(0, |head| head.end);
    Ok(goes_on(alloc, &mut told.journal)? && is_short)
}

/// A story is judged, of which each call from here on failed.
fn judge_failed<R: Abort + AllocGlobal>(
    rt: &R,
    told: &mut Told,
    calls: usize,
    part: usize,
) -> Result<(), Fail> {
    assert!(rt; told.journal.has_failed(), "{calls} {part}");
    let is_read = each_cut_is_read(rt.alloc(), told)?;
    assert!(rt; is_read, "cut {calls} {part}");
    let is_left = is_left_alone(rt.alloc(), told)?;
    assert!(rt; is_left, "left alone {calls} {part}");
    Ok(())
}

#[test]
fn a_storage_fails_anywhere(rt: HostRuntime) -> Result<(), Fail> {
    for after in 0..CALLS {
        for part in PARTS {
            let failing = Failing {
                after,
                calls: usize::MAX,
                part,
            };
            match tell(rt.alloc(), failing)? {
                Some(mut told) => judge_failed(&rt, &mut told, after, part)?,
                None => assert!(rt; after < HEAD_CALLS, "{after} {part}"),
            }
        }
    }
    Ok(())
}

/// A story is judged, of which one call failed.
fn judge_once<R: Abort + AllocGlobal>(rt: &R, told: &mut Told, after: usize) -> Result<(), Fail> {
    let is_read = each_cut_is_read(rt.alloc(), told)?;
    assert!(rt; is_read, "cut {after}");
    let is_on = goes_on_anew(rt.alloc(), told)?;
    assert!(rt; is_on, "anew {after}");
    Ok(())
}

#[test]
fn a_storage_that_failed_once_goes_on_anew(rt: HostRuntime) -> Result<(), Fail> {
    for after in 0..CALLS {
        let failing = Failing {
            after,
            calls: 1,
            part: 20,
        };
        match tell(rt.alloc(), failing)? {
            Some(mut told) => judge_once(&rt, &mut told, after)?,
            None => assert!(rt; after < HEAD_CALLS, "{after}"),
        }
    }
    Ok(())
}

/// A whole story is judged, of which a compaction failed at this call, and the next one did not.
fn judge_compaction<R: Abort + AllocGlobal>(rt: &R, after: usize) -> Result<(), Fail> {
    let failing = Failing {
        after: after.saturating_add(CALLS),
        calls: 1,
        part: 20,
    };
    let mut told = tell(rt.alloc(), failing)?.ok_or("no journal")?;
    let refused = told.journal.compact(rt.alloc(), b"newer 43").is_err();
    // Where a file is not made longer, all goes on.
    assert_eq!(rt; refused, after != 1, "{after}");
    let is_there = is_read_as(rt.alloc(), text(&told.journal), told.journal.words())?;
    assert!(rt; is_there, "{after}");
    let is_on = goes_on_anew(rt.alloc(), &mut told)?;
    assert!(rt; is_on, "anew {after}");
    Ok(())
}

#[test]
fn a_compaction_fails_anywhere(rt: HostRuntime) -> Result<(), Fail> {
    for after in 0..HEAD_CALLS {
        judge_compaction(&rt, after)?;
    }
    Ok(())
}

/// Whether the next life finds a moment of the story after a stop that leaves so many bytes, and those that were kept.
fn is_found(alloc: Global, left: usize) -> Result<bool, Fail> {
    let told = tell(alloc, NONE)?.ok_or("no journal")?;
    let Told {
        journal,
        moments,
        ..
    } = told;
    let mut folder = journal.into_storage().into_folder();
    folder.stop(left);
    let end = left.max(folder.kept());
    let found = Store::new(folder).find(alloc)?.ok_or("no file")?;
    let last = moments.iter().filter(|moment| moment.end <= end).last();
    Ok(last.is_some_and(|moment| moment.words.as_slice() == found.words.as_slice()))
}

#[test]
fn the_next_life_finds_a_moment(rt: HostRuntime) -> Result<(), Fail> {
    for left in [0, 56, 57, 107, 160, 299, 315, 316, 317, 367, 368, 1_000] {
        let is_there = is_found(rt.alloc(), left)?;
        assert!(rt; is_there, "{left}");
    }
    Ok(())
}

/// A story whose storage does not fail is judged.
fn judge_whole<R: Abort + AllocGlobal>(rt: &R, told: &mut Told) -> Result<(), Fail> {
    assert!(rt; !told.journal.has_failed());
    assert_eq!(rt; told.moments.len(), 7);
    assert_eq!(rt; told.kept, 7);
    let is_read = each_cut_is_read(rt.alloc(), told)?;
    assert!(rt; is_read, "cut");
    let is_on = goes_on_anew(rt.alloc(), told)?;
    assert!(rt; is_on, "anew");
    Ok(())
}

#[test]
fn a_storage_that_does_not_fail_has_all(rt: HostRuntime) -> Result<(), Fail> {
    let mut told = tell(rt.alloc(), NONE)?.ok_or("no journal")?;
    judge_whole(&rt, &mut told)
}

/// Appends that are refused are judged, and one that is not.
fn judge_refused<R: Abort + AllocGlobal>(rt: &R, journal: &mut Kept) -> Result<(), Fail> {
    let size = journal.size();
    let out = Change {
        word: 3,
        old: 0,
        new: 1,
    };
    assert_eq!(rt; journal.append(rt.alloc(), &[]), Err(Refusal::BadCount));
    assert_eq!(rt; journal.append(rt.alloc(), &[out]), Err(Refusal::NoWord));
    assert_eq!(rt; journal.size(), size);
    assert_eq!(rt; text(journal).len() as u64, size);
    journal.append(rt.alloc(), &changes(1))?;
    Ok(())
}

#[test]
fn what_is_refused_changes_nothing(rt: HostRuntime) -> Result<(), Fail> {
    let mut told = tell(rt.alloc(), NONE)?.ok_or("no journal")?;
    judge_refused(&rt, &mut told.journal)
}

#[test]
fn no_journal_begins_on_no_words(rt: HostRuntime) -> Result<(), Fail> {
    let storage = Store::new(MemoryFolder::new(rt.alloc(), KEY, NONE));
    let none = Journal::begin(rt.alloc(), storage, &KEY, Vec::new(rt.alloc()));
    assert!(rt; matches!(none, Err(Refusal::BadCount)));
    Ok(())
}

/// A journal in a file of the system.
type Filed<'a> = Journal<Store<SystemFolder<'a>>>;

/// Appends the batches of all rounds, and each second time keeps all.
fn append_rounds(alloc: Global, journal: &mut Filed<'_>) -> Result<(), Refusal> {
    for round in 0..ROUNDS {
        journal.append(alloc, &changes(round))?;
        if round % 2 == 1 {
            journal.keep()?;
        }
    }
    Ok(())
}

/// The story in the file of this name.
fn tell_in_file<'a>(rt: &'a HostRuntime, path: &'a str) -> Result<Filed<'a>, Fail> {
    let words = first_words(rt.alloc())?;
    let storage = Store::new(SystemFolder::open(rt, path)?);
    let mut journal = Journal::begin(rt.alloc(), storage, &KEY, words)?;
    append_rounds(rt.alloc(), &mut journal)?;
    Ok(journal)
}

/// Whether the file of this name has these bytes, and zeros behind them. It is gone then.
fn has_with_zeros(rt: &HostRuntime, path: &str, appended: &[u8]) -> Result<bool, Fail> {
    let bytes = fs::read(rt, path)?;
    let room = bytes.strip_prefix(appended);
    fs::remove_file(rt, path)?;
    Ok(room.is_some_and(|room| room.iter().all(|byte| *byte == 0)))
}

/// Whether a journal in a file and one in memory say the same of themselves.
fn are_alike(filed: &Filed<'_>, journal: &Kept) -> bool {
    filed.words() == journal.words()
        && filed.size() == journal.size()
        && filed.kept() == journal.kept()
}

/// Whether the file of a journal is found as its words.
fn finds_its_words(alloc: Global, filed: &Filed<'_>) -> Result<bool, Fail> {
    let found = filed.storage().find(alloc)?.ok_or("no file")?;
    Ok(found.torn == 0 && found.words.as_slice() == filed.words())
}

#[test]
fn a_file_has_the_same_bytes_and_zeros(rt: HostRuntime) -> Result<(), Fail> {
    let path = "journal.test";
    let told = tell(rt.alloc(), NONE)?.ok_or("no journal")?;
    let filed = tell_in_file(&rt, path)?;
    let is_there = finds_its_words(rt.alloc(), &filed)?;
    assert!(rt; is_there, "found");
    let is_same = has_with_zeros(&rt, path, text(&told.journal))?;
    fs::remove_file(&rt, "journal.test.lock")?;
    assert!(rt; is_same, "bytes");
    assert!(rt; are_alike(&filed, &told.journal), "counts");
    Ok(())
}

#[test]
fn a_second_one_is_kept_out_of_a_file(rt: HostRuntime) -> Result<(), Fail> {
    let path = "locked.test";
    let first = SystemFolder::open(&rt, path)?;
    let second = SystemFolder::open(&rt, path);
    assert!(rt; matches!(second, Err(StoreFault::InUse)), "two");
    drop(first);
    let third = SystemFolder::open(&rt, path);
    fs::remove_file(&rt, "locked.test.lock")?;
    assert!(rt; third.is_ok(), "one");
    Ok(())
}
