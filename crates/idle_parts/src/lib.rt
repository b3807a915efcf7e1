//! The idle parts of a specification, and their lines. An idle part is a rule, configuration, factor, bound, mode,
//! application, processor or demand that has no use in the specification.
#![tactic(auto)]

mod choices;
pub mod laws;
mod lines;
mod places;
mod texts;
mod wants;

pub use texts::make_idle;
