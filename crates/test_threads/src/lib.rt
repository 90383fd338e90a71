//! Tests of a shared session, with clients in threads of their own.
#![tactic(auto)]

#[cfg(test)]
mod asking;
#[cfg(test)]
mod crashes;
#[cfg(test)]
mod creations;
#[cfg(test)]
mod crowd;
#[cfg(test)]
mod gates;
#[cfg(test)]
mod held;
#[cfg(test)]
mod lists;
#[cfg(test)]
mod seats;
#[cfg(test)]
mod staging;
#[cfg(test)]
mod taken;
