//! Whether kept words are those of a broker.

ghost use Rattle.std.specs.Prelude.{◌≡◌, ◌↔◌, ℕ, ◌+◌, ◌<◌, ◌≤◌, length, slice_index, IsTrue, IsOk, IfOk, IfErr, IfNone, IfSome};
ghost use Rattle.arena.specs.Broker.{broker_size_in, broker_word, IsBrokerPlace};
ghost use Rattle.directory.specs.Queue.{queue_in, slot_in, directory_of};
ghost use Rattle.directory.specs.Directory.{IsDirectory};
ghost use Rattle.directory.specs.Sound.{counts_in, HeadIsSoundIn, IsBlockZeroIn, SlotIsSoundIn, AreBrokerWords, AreBrokerWordsIn, IsBrokerDamaged, IsBrokerDamagedIn};

use crate::queue::{Queue, queue_of};
use crate::slots::Directory;
use arena::{
    BLOCKS_FROM, BrokerLayout, BrokerPlace, CLOSED_GATE, Form, HEAD_WORDS, OPEN_GATE, SLOTS, SlotId,
};
use persist::KeptWords;
use words::{MAX_CLIENTS, MAX_RECORDS, Refusal, Rule};

/// What the kept words of a broker say.
#[derive(Clone, Copy)]
pub struct KeptBroker {
    pub layout: BrokerLayout,
    pub directory: Directory,
}

/// The layout that the head tells of, if it is sound.
fn kept_layout<W: KeptWords>(form: Form, words: &W) -> Option<BrokerLayout>
    ensures none { IfNone result (¬ HeadIsSoundIn form (W.kept_words words.now)) }
    ensures sound { IfSome result (λ layout. HeadIsSoundIn form (W.kept_words words.now)) }
    ensures layout { IfSome result (λ layout. layout ≡ counts_in (W.kept_words words.now)) }
{
    let count = words.size();
    if count < HEAD_WORDS {
        return None;
    }
    let clients = words.kept(0);
    let records = words.kept(1);
    if clients > MAX_CLIENTS as u64 || records > MAX_RECORDS as u64 {
        return None;
    }
    let Ok(layout) = BrokerLayout::make(clients as u32, records as u32) else {
        return None;
    };
    if layout.size_in(form) == count {
        Some(layout)
    } else {
        None
    }
}

/// The kept word of a place of the head or the directory, which both forms have.
fn kept_at<W: KeptWords>(layout: &BrokerLayout, words: &W, place: BrokerPlace) -> u64
    requires place { IsBrokerPlace layout.now place }
    requires below { broker_word layout.now place < BLOCKS_FROM }
    requires room { BLOCKS_FROM ≤ length (W.kept_words words.now) }
    ensures { result ≡ slice_index (W.kept_words words.now) (broker_word layout.now place) }
{
    words.kept(layout.word(place))
}

/// The queue that the words of a slot tell of, if they tell of one.
fn queue_in<W: KeptWords>(layout: &BrokerLayout, words: &W, slot: SlotId) -> Option<Queue>
    requires slot { slot.0 < SLOTS }
    requires room { BLOCKS_FROM ≤ length (W.kept_words words.now) }
    ensures { result ≡ queue_in (W.kept_words words.now) slot.0 }
{
    let first = kept_at(layout, words, BrokerPlace::FirstName(slot));
    let second = kept_at(layout, words, BrokerPlace::SecondName(slot));
    let kind = kept_at(layout, words, BrokerPlace::QueueKind(slot));
    queue_of(first, second, kind)
}

/// What a slot has.
fn slot_in<W: KeptWords>(layout: &BrokerLayout, words: &W, slot: SlotId) -> Option<Queue>
    requires slot { slot.0 < SLOTS }
    requires room { BLOCKS_FROM ≤ length (W.kept_words words.now) }
    ensures { result ≡ slot_in (W.kept_words words.now) slot.0 }
{
    if kept_at(layout, words, BrokerPlace::Gate(slot)) == OPEN_GATE {
        queue_in(layout, words, slot)
    } else {
        None
    }
}

/// Whether each word of a slot's block is 0.
fn is_block_zero<W: KeptWords>(form: Form, layout: &BrokerLayout, words: &W, slot: SlotId) -> bool
    requires slot { slot.0 < SLOTS }
    requires room { broker_size_in form layout.now ≤ length (W.kept_words words.now) }
    ensures { IsTrue result ↔ IsBlockZeroIn form layout.now (W.kept_words words.now) slot.0 }
{
    let from = layout.block_in(form, slot);
    for word in 0..layout.block_size_in(form) {
        if words.kept(from + word) != 0 {
            return false;
        }
    }
    true
}

/// Whether a slot is closed with nothing in its block, or open with a name and a kind.
fn is_slot_sound<W: KeptWords>(form: Form, layout: &BrokerLayout, words: &W, slot: SlotId) -> bool
    requires slot { slot.0 < SLOTS }
    requires room { broker_size_in form layout.now ≤ length (W.kept_words words.now) }
    ensures { IsTrue result ↔ SlotIsSoundIn form layout.now (W.kept_words words.now) slot.0 }
{
    match kept_at(layout, words, BrokerPlace::Gate(slot)) {
        // A creation takes for granted that its block is all zero: a link that stood there would be in its queue.
        CLOSED_GATE => is_block_zero(form, layout, words, slot),
        OPEN_GATE => queue_in(layout, words, slot).is_some(),
        _ => false,
    }
}

/// Whether so it is of each slot.
fn are_slots_sound<W: KeptWords>(form: Form, layout: &BrokerLayout, words: &W) -> bool
    requires { broker_size_in form layout.now ≤ length (W.kept_words words.now) }
    ensures { IsTrue result
        ↔ ((slot : ℕ) → slot < SLOTS → SlotIsSoundIn form layout.now (W.kept_words words.now) slot) }
{
    for slot in 0..SLOTS {
        if !is_slot_sound(form, layout, words, SlotId(slot as u8)) {
            return false;
        }
    }
    true
}

/// The directory, if no two slots have queues of one name.
fn kept_directory<W: KeptWords>(layout: &BrokerLayout, words: &W) -> Option<Directory>
    requires { BLOCKS_FROM ≤ length (W.kept_words words.now) }
    ensures none { IfNone result (¬ IsDirectory (directory_of (W.kept_words words.now))) }
    ensures read { IfSome result (λ directory. directory ≡ directory_of (W.kept_words words.now)) }
    ensures sound { IfSome result (λ directory. IsDirectory directory) }
{
    let mut directory = Directory::new();
    for slot in 0..SLOTS {
        let slot = SlotId(slot as u8);
        let Some(queue) = slot_in(layout, words, slot) else {
            continue;
        };
        if directory.has(&queue.name) {
            return None;
        }
        directory.open(slot, queue);
    }
    Some(directory)
}

/// What kept words say, where they are those of a broker in this form: its head and its directory are sound. The words
/// of its open blocks are another matter. They are Damaged by the first rule that they break: Image, of the head, or
/// Directory.
pub fn sound_in<W: KeptWords>(form: Form, words: &W) -> Result<KeptBroker, Refusal>
    ensures ok { IsOk result ↔ AreBrokerWordsIn form (W.kept_words words.now) }
    ensures layout { IfOk result (λ kept. kept.layout ≡ counts_in (W.kept_words words.now)) }
    ensures directory { IfOk result (λ kept. kept.directory ≡ directory_of (W.kept_words words.now)) }
    ensures damaged { IfErr result (λ e. IsBrokerDamagedIn form (W.kept_words words.now) e) }
{
    let Some(layout) = kept_layout(form, words) else {
        return Err(Refusal::Damaged(Rule::Image));
    };
    if !are_slots_sound(form, &layout, words) {
        return Err(Refusal::Damaged(Rule::Directory));
    }
    let Some(directory) = kept_directory(&layout, words) else {
        return Err(Refusal::Damaged(Rule::Directory));
    };
    Ok(KeptBroker { layout, directory })
}

/// The same in the form that queues run in.
pub fn sound<W: KeptWords>(words: &W) -> Result<KeptBroker, Refusal>
    ensures ok { IsOk result ↔ AreBrokerWords (W.kept_words words.now) }
    ensures layout { IfOk result (λ kept. kept.layout ≡ counts_in (W.kept_words words.now)) }
    ensures directory { IfOk result (λ kept. kept.directory ≡ directory_of (W.kept_words words.now)) }
    ensures damaged { IfErr result (λ e. IsBrokerDamaged (W.kept_words words.now) e) }
{
    sound_in(Form::OfItems, words)
}
