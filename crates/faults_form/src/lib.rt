//! The form `faults`, which prints the family of fault scripts of a specification, one line for each script. The
//! family consists of the scripts with a given number of faults that keep to the failure assumption of the
//! specification. The output of the form is the answer to the command's words and to the bytes of the file that the
//! words name.
#![tactic(auto)]

pub mod counts;
mod forms;
mod lines;

pub use counts::{FaultCount, fault_count};
pub use forms::{FaultsQuestion, faults};
