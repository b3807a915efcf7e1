//! The flight control as an application in a box. Whatever the box remembers, its answer is the law of its kind.
#![tactic(auto)]

pub mod unit;

pub use unit::FlightControl;
