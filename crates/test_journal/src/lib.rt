//! A journal's bytes, written out, drawn journals that are cut off and changed at every byte, and journals in a storage
//! that fails at every call.
#![tactic(auto)]

#[cfg(test)]
mod drawn;
#[cfg(test)]
mod example;
#[cfg(test)]
mod storage;
#[cfg(test)]
mod story;
