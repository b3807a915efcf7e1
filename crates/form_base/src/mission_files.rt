//! Missions in files: a specification, and a script for it. Each form that reads a script is built on this module.

pub mod documents;
mod lines;
pub mod missions;

pub use documents::ScriptDocument;
pub use lines::{make_outside_line, make_script_line};
pub use missions::{MissionFiles, make_mission, read_mission};
