//! Drawn journals, and the words that each beginning of one leaves. tests/journaling.py draws the same ones.

use journal::{KEY_BYTES, Writer};
use persist::Change;
use rand_core::Rng;
use rand_pcg::Pcg32;
use std::alloc::Global;
use std::test::Fail;

/// The words after the whole frames up to this place, and how many bytes were kept when the next one was written.
#[derive(Drop)]
pub struct Moment {
    pub end: usize,
    pub kept: usize,
    pub words: Vec<u64>,
}

/// A journal, and its moments, the one after its head first.
#[derive(Drop)]
pub struct Story {
    pub key: [u8; KEY_BYTES],
    pub bytes: Vec<u8>,
    pub moments: Vec<Moment>,
}

/// A change of one of the words, which has its new value then.
fn make_change(rng: &mut Pcg32, words: &mut [u64]) -> Change {
    let word = rng.next_u32() as usize % words.len().max(1);
    let new = rng.next_u64();
    let mut old = 0;
    if let Some(place) = words.get_mut(word) {
        old = *place;
        *place = new;
    }
    Change { word, old, new }
}

/// A batch of changes, which the words have then.
fn make_batch(alloc: Global, rng: &mut Pcg32, words: &mut [u64]) -> Result<Vec<Change>, Fail> {
    let mut batch = Vec::new(alloc);
    for _ in 0..1 + rng.next_u32() % 3 {
        batch.push(make_change(rng, words))?;
    }
    Ok(batch)
}

/// The words on which a journal begins.
fn base_words(alloc: Global, rng: &mut Pcg32) -> Result<Vec<u64>, Fail> {
    let mut words = Vec::new(alloc);
    for _ in 0..1 + rng.next_u32() % 5 {
        words.push(rng.next_u64())?;
    }
    Ok(words)
}

impl Story {
    /// What the journal is by now is a moment.
    fn add_moment(&mut self, alloc: Global, kept: usize, words: &[u64]) -> Result<(), Fail> {
        let words = Vec::from_slice(alloc, words)?;
        self.moments.push(Moment {
            end: self.bytes.len(),
            kept,
            words,
        })?;
        Ok(())
    }
}

/// Adds up to four batches, some of which are kept at once.
fn draw_batches(
    alloc: Global,
    rng: &mut Pcg32,
    words: &mut Vec<u64>,
    writer: &mut Writer,
    story: &mut Story,
) -> Result<(), Fail> {
    let mut kept = story.bytes.len();
    story.add_moment(alloc, kept, words.as_slice())?;
    for _ in 0..rng.next_u32() % 5 {
        let batch = make_batch(alloc, rng, words)?;
        writer.frame(&mut story.bytes, kept as u64, &batch)?;
        if rng.next_u32() % 2 == 0 {
            kept = story.bytes.len();
        }
        story.add_moment(alloc, kept, words.as_slice())?;
    }
    Ok(())
}

/// The journal of this seed: up to five words, and up to four batches, some of which were kept at once.
pub fn draw(alloc: Global, seed: u64) -> Result<Story, Fail> {
    let mut rng = Pcg32::new(seed, 0);
    let key = rng.next_u64().to_le_bytes();
    let mut words = base_words(alloc, &mut rng)?;
    let (bytes, mut writer) = Writer::begin(alloc, &key, &words)?;
    let mut story = Story {
        key,
        bytes,
        moments: Vec::new(alloc),
    };
    draw_batches(alloc, &mut rng, &mut words, &mut writer, &mut story)?;
    Ok(story)
}
