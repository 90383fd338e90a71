//! Tests of the log in etcd, of what no clause says.
#![tactic(auto)]

#[cfg(test)]
mod story;
#[cfg(test)]
mod wire;
