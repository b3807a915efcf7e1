//! The parts that the forms of the command share: statuses, refusals, printing, and the loading of the files that the
//! command's words name. A form reads its files, builds its text and prints it.
#![tactic(auto)]

pub mod acceptance;
pub mod lines;
pub mod loads;
pub mod mission_files;
pub mod printing;
pub mod refusals;
pub mod specifications;
pub mod status;
pub mod trace_files;
