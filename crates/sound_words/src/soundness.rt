//! Whether kept words are sound.

ghost use Rattle.std.specs.Prelude.{◌≡◌, ℕ, ◌≤◌, ◌<◌, ◌↔◌, length, slice_index, IsTrue, IsOk, IfErr, IfNone, IfOk};
ghost use Rattle.arena.specs.Broker.{block_size_in};
ghost use Rattle.arena.specs.Layout.{size_in};
ghost use Rattle.arena.specs.Shape.{greatest};
ghost use Rattle.sound_words.specs.Kept.{kept_of};
ghost use Rattle.sound_words.specs.Order.{IsSurvey, IsSurveyOf};
ghost use Rattle.sound_words.specs.Sound.{AreZeroFrom, SizeIsSoundIn, RecordsAreSoundIn};
ghost use Rattle.sound_words.specs.Sound.{AreSoundWords, AreSoundWordsIn, IsVerdictOn, IsDamaged, IsDamagedIn};

use crate::kept::KeptQueue;
use arena::{Form, Layout, block_size, block_size_of_values, size_of_values};
use persist::KeptWords;
use words::{Kind, MAX_RECORD_NUMBER, Refusal, Rule};

/// The most nodes of a queue, node 0 with them.
const MAX_NODES: usize = MAX_RECORD_NUMBER as usize + 1;

/// Whether the words from this one on are 0.
fn is_rest_zero<W: KeptWords>(words: &W, from: usize) -> bool
    ensures { IsTrue result ↔ AreZeroFrom from (W.kept_words words.now) }
{
    for word in from..words.size() {
        if words.kept(word) != 0 {
            return false;
        }
    }
    true
}

/// How many words a queue has in this form, and how many a broker's block.
fn sizes(form: Form, layout: &Layout) -> (usize, usize)
    ensures size { result.0 ≡ size_in form layout.now }
    ensures block { result.1 ≡ block_size_in form layout.now.clients layout.now.records }
    ensures few { greatest layout.now ≤ MAX_RECORD_NUMBER }
{
    let (clients, records) = (layout.clients(), layout.records());
    match form {
        Form::OfValues => (
            size_of_values(layout),
            block_size_of_values(clients, records),
        ),
        Form::OfItems => (layout.size(), block_size(clients, records)),
    }
}

/// Whether there are as many words as the layout has, or they are a broker's block with zeros past them.
fn is_size_sound<W: KeptWords>(form: Form, layout: &Layout, words: &W) -> bool
    ensures sound { IsTrue result ↔ SizeIsSoundIn form layout.now (W.kept_words words.now) }
    ensures few { greatest layout.now ≤ MAX_RECORD_NUMBER }
{
    let (size, block) = sizes(form, layout);
    let count = words.size();
    if count == size {
        return true;
    }
    if count != block || count < size {
        return false;
    }
    is_rest_zero(words, size)
}

impl<W: KeptWords> KeptQueue<'_, W> {
    /// The first broken rule of those on the chain and after, where those before it hold.
    fn broken_past_records(&self, place: &mut [u32], claimed: &mut [u32]) -> Option<Rule>
        requires count { SizeIsSoundIn self.now.form self.now.shape self.now.words }
        requires records { RecordsAreSoundIn self.now.form self.now.shape (kept_of self.now) }
        requires places { greatest self.now.shape < length place.old }
        requires no_place { (n : ℕ) → slice_index place.old n ≡ 0 }
        requires tokens { greatest self.now.shape < length claimed.old }
        requires no_token { (n : ℕ) → slice_index claimed.old n ≡ 0 }
        ensures broken { IsVerdictOn self.now.form self.now.shape self.now.words result }
        ensures survey { IfNone result
            (IsSurveyOf self.now.form self.now.shape self.now.words place.new claimed.new) }
    {
        // A link back would keep recovery walking for ever, and a link to an unused record would put a value into the
        // queue before its enqueue took effect: the two queues of bench/plain/every_image_byte.py.
        if !self.is_chain_sound(place) {
            return Some(Rule::Chain);
        }
        // Recovery takes the first node without a claim for the end of the claimed ones. A claim past it would be
        // lost, and the value given out twice; a token that claims two nodes would tell its caller of one of them.
        if !self.are_claims_sound(claimed) {
            return Some(Rule::Claims);
        }
        // Recovery walks on from the kept ends. A head past an unclaimed node would lose that node's value, and a
        // tail off the chain would have the next enqueue linked where no dequeue comes: `wrong_rule_first.edit`.
        if !self.are_ends_sound(place) {
            return Some(Rule::Ends);
        }
        match self.kind() {
            Kind::Durable => {
                // Recovery does not mend cells behind the head. One that is open there, or empty though it claims a
                // node, would tell its caller that nothing was got, and the value would be gone:
                // `empty_cell_of_a_claim.edit`.
                if !self.are_rows_sound(place, claimed) {
                    return Some(Rule::Rows);
                }
            }
            Kind::Log => {
                // Recovery tells by these words alone whether an announced call took effect:
                // `remove_word_ignored.edit`.
                if !self.are_entries_sound(place, claimed) {
                    return Some(Rule::Entries);
                }
            }
        }
        None
    }
}

/// The queue that these words are of, in this form.
fn queue_of<'a, W: KeptWords>(form: Form, layout: &'a Layout, words: &'a W) -> KeptQueue<'a, W>
    requires { size_in form layout.now ≤ length (W.kept_words words.now) }
    ensures { result ≡ record { form = form; shape = layout.now; words = W.kept_words words.now } }
{
    match form {
        Form::OfValues => KeptQueue::of_values(layout, words),
        Form::OfItems => KeptQueue::new(layout, words),
    }
}

/// Where each node stands on the chain, from 1, and which node each token claims; 0 where there is none. It is half a
/// megabyte.
#[derive(Drop)]
pub struct Survey {
    pub place: [u32; MAX_NODES],
    pub claimed: [u32; MAX_NODES],
}

/// The first broken rule.
fn first_broken<W: KeptWords>(
    form: Form,
    layout: &Layout,
    words: &W,
    survey: &mut Survey,
) -> Option<Rule>
    requires no_place { (n : ℕ) → slice_index survey.old.place n ≡ 0 }
    requires no_token { (n : ℕ) → slice_index survey.old.claimed n ≡ 0 }
    ensures broken { IsVerdictOn form layout.now (W.kept_words words.now) result }
    ensures survey { IfNone result (IsSurvey form layout.now (W.kept_words words.now) survey.new) }
{
    // With words missing, a place would have no word; with a word too many that is not 0, it is another layout's.
    if !is_size_sound(form, layout, words) {
        return Some(Rule::Size);
    }
    let queue = queue_of(form, layout, words);
    // A start trusts that its client's next record is all zero: a link or a claim that stood there would take effect
    // with the call.
    if !queue.are_records_sound() {
        return Some(Rule::Records);
    }
    queue.broken_past_records(&mut survey.place, &mut survey.claimed)
}

/// The survey of a queue whose kept words obey the rules of this form. The layout says the kind and the counts. It
/// takes no memory but on the stack, and its cost is linear in the words. Words that break a rule are Damaged, by the
/// first one.
pub fn surveyed<W: KeptWords>(form: Form, layout: &Layout, words: &W) -> Result<Survey, Refusal>
    ensures ok { IsOk result ↔ AreSoundWordsIn form layout.now (W.kept_words words.now) }
    ensures survey { IfOk result (λ found. IsSurvey form layout.now (W.kept_words words.now) found) }
    ensures damaged { IfErr result (λ e. IsDamagedIn form layout.now (W.kept_words words.now) e) }
{
    let mut survey = Survey {
        place: [0; MAX_NODES],
        claimed: [0; MAX_NODES],
    };
    match first_broken(form, layout, words, &mut survey) {
        None => Ok(survey),
        Some(rule) => Err(Refusal::Damaged(rule)),
    }
}

/// Whether kept words are those of a queue, in this form.
pub fn sound_in<W: KeptWords>(form: Form, layout: &Layout, words: &W) -> Result<(), Refusal>
    ensures ok { IsOk result ↔ AreSoundWordsIn form layout.now (W.kept_words words.now) }
    ensures damaged { IfErr result (λ e. IsDamagedIn form layout.now (W.kept_words words.now) e) }
{
    match surveyed(form, layout, words) {
        Ok(_) => Ok(()),
        Err(refusal) => Err(refusal),
    }
}

/// Whether kept words are those of a queue that recovery can begin with.
pub fn sound<W: KeptWords>(layout: &Layout, words: &W) -> Result<(), Refusal>
    ensures ok { IsOk result ↔ AreSoundWords layout.now (W.kept_words words.now) }
    ensures damaged { IfErr result (λ e. IsDamaged layout.now (W.kept_words words.now) e) }
{
    sound_in(Form::OfItems, layout, words)
}
