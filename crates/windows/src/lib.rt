//! Values that go through a first-in, first-out queue, each put and taken within a window: laws on lists of windows.
#![tactic(auto)]

mod laws;

pub use laws::{
    fitting_takes_are_a_range, some_value_may_go_next, takes_suffice_or_a_range_is_overfull,
    values_have_a_line,
};
