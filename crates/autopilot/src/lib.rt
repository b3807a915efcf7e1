//! The autopilot as an application in a box. Whatever the box remembers, it answers by the law of its kind.
#![tactic(auto)]

pub mod unit;

pub use unit::Autopilot;
