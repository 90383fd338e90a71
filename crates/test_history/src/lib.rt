//! What the checkers of histories answer of histories that are written out, and the life of one queue.
#![tactic(auto)]

#[cfg(test)]
mod rows;
#[cfg(test)]
mod worlds;
#[cfg(test)]
mod written;
