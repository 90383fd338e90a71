//! Tests of a broker that is served: over devices that are slow or fail, and by desks that share seats.
#![tactic(auto)]

#[cfg(test)]
mod breaking;
#[cfg(test)]
mod failing;
#[cfg(test)]
mod sharing;
#[cfg(test)]
mod slow;
#[cfg(test)]
mod story;
