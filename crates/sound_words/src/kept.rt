//! A queue as its kept words have it.

ghost use Rattle.std.specs.Prelude.{◌≡◌, ◌≤◌, ◌↔◌, length, slice_index, IsTrue};
ghost use Rattle.arena.specs.Form.{running};
ghost use Rattle.arena.specs.Layout.{size_in, size_of};
ghost use Rattle.arena.specs.Limits.{AreCounts};
ghost use Rattle.arena.specs.Place.{IsNode, IsPlaceIn};
ghost use Rattle.arena.specs.Words.{part_at, HoldsIn, IsBlankItemIn};
ghost use Rattle.arena.specs.declared.form.Form.TheVariants.{OfItems, OfValues};
ghost use Rattle.arena.specs.declared.place.Part.TheVariants.{Length, First, Second, Third};
ghost use Rattle.arena.specs.Shape.{greatest};
ghost use Rattle.sound_words.specs.Kept.{kept_of};
ghost use Rattle.sound_words.specs.Sound.{IsIssued};

use arena::{Form, Layout, Part, Place, word_of_values};
use persist::KeptWords;
use std::marker::Model;
use words::{Client, Item, Kind, MAX_RECORD_NUMBER, NodeId};

/// Kept words that have room for a queue of this layout, to look at. It borrows them, and looking is no access. In the
/// form of values the layout says the kind and the counts alone.
#[derive(Drop)]
pub struct KeptQueue<'a, W: KeptWords> {
    form: Form,
    layout: &'a Layout,
    words: &'a W,
}

impl<'a, W: KeptWords> Model for KeptQueue<'a, W> {
    ghost use Rattle.std.specs.Prelude.{◌≤◌, length};
    ghost use Rattle.arena.specs.Layout.{size_in};
    ghost use Rattle.sound_words.specs.Kept.{Kept};

    ghost Value = { Kept };

    ghost view = { λ q. record {
      form = q.form;
      shape = q.layout.now;
      words = W.kept_words q.words.now;
    } };

    ghost invariant = { λ q. size_in q.form q.layout.now ≤ length (W.kept_words q.words.now) };
}

impl<'a, W: KeptWords> KeptQueue<'a, W> {
    /// The queue that these words are of.
    pub fn new(layout: &'a Layout, words: &'a W) -> Self
        requires { size_of layout.now ≤ length (W.kept_words words.now) }
        ensures { result ≡ record {
          form = running;
          shape = layout.now;
          words = W.kept_words words.now;
        } }
    {
        KeptQueue {
            form: Form::OfItems,
            layout,
            words,
        }
    }

    /// The queue that these words are of in the form of values.
    pub fn of_values(layout: &'a Layout, words: &'a W) -> Self
        requires { size_in OfValues layout.now ≤ length (W.kept_words words.now) }
        ensures { result ≡ record {
          form = OfValues;
          shape = layout.now;
          words = W.kept_words words.now;
        } }
    {
        KeptQueue {
            form: Form::OfValues,
            layout,
            words,
        }
    }

    pub(crate) fn form(&self) -> Form
        ensures { result ≡ self.now.form }
    {
        self.form
    }

    pub(crate) fn kind(&self) -> Kind
        ensures { result ≡ self.now.shape.kind }
    {
        self.layout.kind()
    }

    pub(crate) fn clients(&self) -> u32
        ensures value { result ≡ self.now.shape.clients }
        ensures counts { AreCounts self.now.shape.clients self.now.shape.records }
    {
        self.layout.clients()
    }

    pub(crate) fn records(&self) -> u32
        ensures value { result ≡ self.now.shape.records }
        ensures counts { AreCounts self.now.shape.clients self.now.shape.records }
    {
        self.layout.records()
    }

    /// The kept word of a place.
    pub fn kept_at(&self, place: Place) -> u64
        requires { IsPlaceIn self.now.form self.now.shape place }
        ensures value { result ≡ kept_of self.now place }
        ensures few { greatest self.now.shape ≤ MAX_RECORD_NUMBER }
    {
        let word = match self.form {
            Form::OfValues => word_of_values(self.layout, place),
            Form::OfItems => self.layout.word(place),
        };
        self.words.kept(word)
    }

    /// The kept words of a node's message: its length and three words.
    pub(crate) fn kept_parts(&self, node: NodeId) -> [u64; 4]
        requires items { self.now.form ≡ OfItems }
        requires node { IsNode self.now.shape node.0 }
        ensures len { slice_index result 0 ≡ part_at (kept_of self.now) node.0 Length }
        ensures first { slice_index result 1 ≡ part_at (kept_of self.now) node.0 First }
        ensures second { slice_index result 2 ≡ part_at (kept_of self.now) node.0 Second }
        ensures third { slice_index result 3 ≡ part_at (kept_of self.now) node.0 Third }
    {
        [
            self.kept_at(Place::Item(node, Part::Length)),
            self.kept_at(Place::Item(node, Part::First)),
            self.kept_at(Place::Item(node, Part::Second)),
            self.kept_at(Place::Item(node, Part::Third)),
        ]
    }

    /// The kept word of a node's value.
    pub(crate) fn kept_value_word(&self, node: NodeId) -> u64
        requires { IsNode self.now.shape node.0 }
        ensures { result ≡ part_at (kept_of self.now) node.0 First }
    {
        self.kept_at(Place::Item(node, Part::First))
    }

    /// Whether the words of a node's message are a message's.
    pub(crate) fn holds_item(&self, node: NodeId) -> bool
        requires { IsNode self.now.shape node.0 }
        ensures { IsTrue result ↔ HoldsIn self.now.form (kept_of self.now) node.0 }
    {
        match self.form {
            Form::OfValues => self.kept_value_word(node) <= u32::MAX as u64,
            Form::OfItems => Item::are_parts(self.kept_parts(node)),
        }
    }

    /// Whether each of them is 0.
    pub(crate) fn has_no_item(&self, node: NodeId) -> bool
        requires { IsNode self.now.shape node.0 }
        ensures { IsTrue result ↔ IsBlankItemIn self.now.form (kept_of self.now) node.0 }
    {
        match self.form {
            Form::OfValues => self.kept_value_word(node) == 0,
            Form::OfItems => self.kept_parts(node) == [0; 4],
        }
    }

    /// Whether a client used the record with this number.
    pub(crate) fn is_issued(&self, number: u64) -> bool
        ensures { IsTrue result ↔ IsIssued self.now.shape (kept_of self.now) number }
    {
        let records = self.records() as u64;
        if number == 0 || number > self.clients() as u64 * records {
            return false;
        }
        let owner = (number - 1) / records;
        let used = self.kept_at(Place::Bump(Client(owner as u8)));
        (number - 1) % records < used
    }
}
