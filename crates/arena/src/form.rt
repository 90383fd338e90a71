//! The two forms in which a message lies in the memory.

/// A value of one word, as images of the first form have it, or an item of a length and three words.
#[derive(Clone, Copy, Debug, PartialEq, Eq)]
pub enum Form {
    OfValues,
    OfItems,
}
