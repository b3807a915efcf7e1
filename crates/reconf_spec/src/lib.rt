//! Specification documents, both ways. `read_spec` returns the specification that the bytes encode. `write_spec` returns
//! the canonical text of a specification, which is exactly the text that `spec_text` defines, and which is read back as the
//! same specification.
#![tactic(auto)]

mod demands;
mod items;
pub mod laws;
mod table;
mod texts;
mod values;
mod writing;

pub use spec_reading::{SpecError, SpecFault, read_spec, rule};
pub use writing::write_spec;
