//! Who is told how far a long run has come.

/// Is told how far a long run has come.
pub trait Watch {
    /// So many are done, of so many.
    fn note(&mut self, done: u64, of: u64);
}
