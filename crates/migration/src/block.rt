//! The block of a queue of items, from the words of one of the form of values.

ghost use Rattle.std.specs.Prelude.{◌≡◌, ◌++◌, OnOk};
ghost use Rattle.std.specs.Int.{w32, to_le_bytes};
ghost use Rattle.words.specs.declared.call.Kind.TheVariants.{Durable};
ghost use Rattle.arena.specs.Place.{IsNode, IsPlace, IsRecord};
ghost use Rattle.arena.specs.declared.form.Form.TheVariants.{OfValues};
ghost use Rattle.arena.specs.declared.place.Place.TheVariants.{Cell, Item};
ghost use Rattle.sound_words.specs.Kept.{kept_of};
ghost use Rattle.sound_words.specs.Order.{IsSurveyOf};
ghost use Rattle.sound_words.specs.Sound.{AreSoundWordsIn, IsSoundIn};
ghost use Rattle.migration.specs.Migrated.{migrated};
ghost use Rattle.migration.specs.Words.{words_migrated, word_migrated};

use arena::{Form, GOT_CELL, Layout, Part, Place, block_size, item_part};
use persist::KeptWords;
use sound_words::{KeptQueue, Survey, surveyed};
use std::alloc::AllocError;
use words::{NodeId, Token, Value};

/// The item of a value's four bytes, the low one first.
fn item_of(value: u32) -> Value
    ensures { result ≡ to_le_bytes w32 value }
{
    let Ok(item) = Value::make(&value.to_le_bytes()) else {
        // An item has room for them.
        unreachable!();
    };
    item
}

/// What a part of a node's message becomes.
fn part_of<W: KeptWords>(queue: &KeptQueue<'_, W>, survey: &Survey, node: NodeId, part: Part) -> u64
    requires values { queue.now.form ≡ OfValues }
    requires sound { IsSoundIn OfValues queue.now.shape (kept_of queue.now) }
    requires survey { IsSurveyOf queue.now.form queue.now.shape queue.now.words survey.now.place survey.now.claimed }
    requires node { IsNode queue.now.shape node.0 }
    ensures { result ≡ migrated queue.now.shape (kept_of queue.now) (Item node part) }
{
    if survey.place[node.0 as usize] == 0 {
        return 0;
    }
    let value = queue.kept_at(Place::Item(node, Part::First));
    item_part(item_of(value as u32), part)
}

/// What a cell becomes.
fn cell_of<W: KeptWords>(queue: &KeptQueue<'_, W>, survey: &Survey, cell: Token) -> u64
    requires values { queue.now.form ≡ OfValues }
    requires survey { IsSurveyOf queue.now.form queue.now.shape queue.now.words survey.now.place survey.now.claimed }
    requires durable { queue.now.shape.kind ≡ Durable }
    requires cell { IsRecord queue.now.shape cell.0 }
    ensures { result ≡ migrated queue.now.shape (kept_of queue.now) (Cell cell) }
{
    let answer = queue.kept_at(Place::Cell(cell));
    if answer < GOT_CELL {
        return answer;
    }
    survey.claimed[cell.0 as usize] as u64 + GOT_CELL
}

/// What the word of a place becomes.
fn word_of<W: KeptWords>(queue: &KeptQueue<'_, W>, survey: &Survey, place: Place) -> u64
    requires values { queue.now.form ≡ OfValues }
    requires sound { IsSoundIn OfValues queue.now.shape (kept_of queue.now) }
    requires survey { IsSurveyOf queue.now.form queue.now.shape queue.now.words survey.now.place survey.now.claimed }
    requires place { IsPlace queue.now.shape place }
    ensures { result ≡ migrated queue.now.shape (kept_of queue.now) place }
{
    match place {
        Place::Item(node, part) => part_of(queue, survey, node, part),
        Place::Cell(cell) => cell_of(queue, survey, cell),
        other => queue.kept_at(other),
    }
}

/// What a word of the block becomes, or 0 past the queue's.
fn word_at<W: KeptWords>(
    layout: &Layout,
    queue: &KeptQueue<'_, W>,
    survey: &Survey,
    word: usize,
) -> u64
    requires values { queue.now.form ≡ OfValues }
    requires shape { queue.now.shape ≡ layout.now }
    requires sound { IsSoundIn OfValues queue.now.shape (kept_of queue.now) }
    requires survey { IsSurveyOf queue.now.form queue.now.shape queue.now.words survey.now.place survey.now.claimed }
    ensures { result ≡ word_migrated layout.now (kept_of queue.now) word }
{
    match layout.what_is(word) {
        Some(place) => word_of(queue, survey, place),
        None => 0,
    }
}

/// Adds the words of a queue's block. They are as many as a block of the form of items has.
pub(crate) fn add_block<W: KeptWords>(
    layout: &Layout,
    block: &W,
    words: &mut Vec<u64>,
) -> Result<(), AllocError>
    requires sound { AreSoundWordsIn OfValues layout.now (W.kept_words block.now) }
    ensures { OnOk result (words.new.items ≡ words.old.items ++ words_migrated layout.now (W.kept_words block.now)) }
{
    let Ok(survey) = surveyed(Form::OfValues, layout, block) else {
        // The words obey the rules.
        unreachable!();
    };
    let queue = KeptQueue::of_values(layout, block);
    for word in 0..block_size(layout.clients(), layout.records()) {
        words.push(word_at(layout, &queue, &survey, word))?;
    }
    Ok(())
}
