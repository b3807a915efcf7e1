//! The table of the kinds of application: their numbers, their modes, the words of their areas with the ranges of the
//! words, and the names of all of these.
#![tactic(auto)]

pub mod bounds;
pub mod kinds;
pub mod names;
pub mod ranges;
pub mod table;

pub use bounds::{after_halt, after_init, during, sane};
pub use names::{kind_name, kind_named, mode_name, mode_named, variable_name, variable_named};
