//! The form `explain`, which prints why a specification or a script is refused, or the idle parts of an accepted
//! specification. The output of the form is the answer to the bytes of the files that the command's words name.
#![tactic(auto)]

mod explanations;
mod forms;
pub mod laws;
mod outsides;

pub use forms::{explain, explain_script};
