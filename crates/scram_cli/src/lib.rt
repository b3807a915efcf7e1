//! The command. Its answer is a function of its words and of the bytes of the files that the words name, with one
//! exception. If the needs of the applications have several cycles, the answer may contain any of the cycles.
#![tactic(auto)]

mod command;
mod forms;
pub mod laws;
mod pages;
mod program;

pub use command::scram;
pub use form_base::status;
pub use form_base::status::Status;
pub use program::run_program;
