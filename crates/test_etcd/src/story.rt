//! A journal in an engine whose answers are lost, one of them at each request: the next owner reads what was answered.

use etcd_log::{EtcdStore, Fate, PlainEngine};
use journal::read;
use journal_file::Journal;
use persist::Change;
use std::alloc::Global;
use std::test::Fail;

const KEY: [u8; 8] = [1, 2, 3, 4, 5, 6, 7, 8];

/// How many requests the first owner makes where nothing is lost: two that take the log, three that put the journal in
/// place, one for each batch, and three that compact it.
const OWN_REQUESTS: usize = 11;

/// How many of them come before a journal is in place.
const FIRST_REQUESTS: usize = 4;

/// How many both make.
const REQUESTS: usize = 14;

/// An engine that does this with one request.
fn engine(alloc: Global, at: usize, fate: Fate, patience: usize) -> Result<PlainEngine, Fail> {
    let mut fates = Vec::new(alloc);
    for _ in 0..at {
        fates.push(Fate::Answered)?;
    }
    fates.push(fate)?;
    Ok(PlainEngine::new(alloc, KEY, fates, patience))
}

/// An owner's name.
fn owner(alloc: Global, name: &str) -> Result<Vec<u8>, Fail> {
    Ok(Vec::from_slice(alloc, name.as_bytes())?)
}

/// The words that the next owner reads.
fn words_there(alloc: Global, engine: PlainEngine) -> Result<Vec<u64>, Fail> {
    let Ok(mut log) = EtcdStore::take(engine, owner(alloc, "h2:7070/90b1d2f3aa5c4e67")?) else {
        return Err(Fail::from("not taken"));
    };
    let Ok(text) = log.read(alloc) else {
        return Err(Fail::from("not read"));
    };
    Ok(read(alloc, &text)?.words)
}

/// Appends three batches and compacts behind the second. What was answered is there for the next owner, and one batch
/// more at most. It answers how many were answered, and the words that are there.
fn story(alloc: Global, engine: PlainEngine) -> Result<(u64, Vec<u64>), Fail> {
    let Ok(log) = EtcdStore::take(engine, owner(alloc, "h1:7070/5f0c9a1e22d47b38")?) else {
        return Err(Fail::from("not taken"));
    };
    let Ok(mut journal) = Journal::begin(alloc, log, &KEY, vec![in alloc; 0u64; 4]?) else {
        return Err(Fail::from("not begun"));
    };
    let mut answered = 0;
    for batch in 1..4u64 {
        if batch == 3 && journal.compact(alloc, &KEY).is_err() {
            break;
        }
        let change = Change {
            word: 1,
            old: batch - 1,
            new: batch,
        };
        if journal.append(alloc, &[change]).is_err() {
            break;
        }
        answered = batch;
    }
    let words = words_there(alloc, journal.into_storage().into_exchange())?;
    Ok((answered, words))
}

#[test]
fn what_was_answered_is_there(rt: HostRuntime) -> Result<(), Fail> {
    let alloc = rt.alloc();
    for at in 0..REQUESTS {
        for fate in [Fate::LostBefore, Fate::LostBehind, Fate::Twice] {
            let (answered, words) = story(alloc, engine(alloc, at, fate, 4)?)?;
            assert_eq!(rt; answered, 3);
            assert_eq!(rt; words.as_slice(), [0, 3, 0, 0].as_slice());
        }
    }
    Ok(())
}

#[test]
fn who_gives_up_leaves_what_was_answered(rt: HostRuntime) -> Result<(), Fail> {
    let alloc = rt.alloc();
    for at in FIRST_REQUESTS..OWN_REQUESTS {
        for fate in [Fate::LostBefore, Fate::LostBehind] {
            let (answered, words) = story(alloc, engine(alloc, at, fate, 0)?)?;
            let there = words.get(1).copied().unwrap_or(9);
            assert!(rt;
                answered <= there && there.saturating_sub(answered) <= 1,
                "{at}: {answered}, {there}"
            );
        }
    }
    Ok(())
}
