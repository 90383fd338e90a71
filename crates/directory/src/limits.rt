//! How many steps the creations and the recoveries of a directory take.

/// How many steps a creation takes.
pub const CREATION_STEPS: usize = 12;

/// How many steps a recovery takes at most: four for each of eight open slots.
pub const MAX_DIRECTORY_STEPS: usize = 32;

/// How many it takes at least: one for each of eight closed slots.
pub const MIN_DIRECTORY_STEPS: usize = 8;
