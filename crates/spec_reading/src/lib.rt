//! Reading of specification documents. `read_spec` returns the specification that the bytes encode, or the first broken
//! rule and the path where the rule is broken, exactly as the definition `spec_of` states. If the needs of the
//! applications have a cycle, the refusal contains a cycle.
#![tactic(auto)]

mod applications;
mod bounds;
mod choices;
mod configurations;
mod demands;
pub mod documents;
mod factors;
pub mod fault;
mod intervals;
mod members;
mod modes;
pub mod names;
mod needs;
mod numbered;
mod processors;
mod reading;
pub mod rule;
mod sets;
mod vocabulary;

pub use fault::{SpecError, SpecFault};
pub use reading::read_spec;
