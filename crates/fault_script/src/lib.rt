//! Fault scripts. A document is read as exactly the script that it encodes, which fits the specification, or it is
//! refused at the first rule that it breaks. A script is written as its canonical text, from which the same script is
//! read back. For each frame a script determines the factors' values and the processors that are up. They form the
//! environment by which the kernel chooses a configuration.
#![tactic(auto)]

pub mod assumption;
pub mod inputs;
pub mod laws;
mod lists;
mod order;
mod reading;
pub mod rule;
pub mod times;
mod version;
pub mod walks;
mod writing;

pub use assumption::{Outside, OutsideKind, within};
pub use inputs::Input;
pub use lists::find_value;
pub use reading::read_script;
pub use scram_doc::{DocError as ScriptError, DocFault as ScriptFault};
pub use times::{factors_at, halt_in, halt_of, restart_of, up_at};
pub use walks::{Walk, differs, up_set_at};
pub use writing::{new_value_name, write_script};
