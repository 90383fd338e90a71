//! Acts, as data.

/// One act on a world: the environment keeps a word by its index.
pub type Act = protocol::Act<usize>;

/// How a list of acts went.
#[derive(Clone, Copy)]
pub struct Ran {
    /// How many acts were accepted.
    pub taken: u64,
    /// How many were refused, and passed over.
    pub refused: u64,
}
