//! The documents of a mission.

use coverage_check::Mission;
use std::alloc::Global;
use std::rt::HostRuntime;
use std::{fs, io};
use test_kit::{fill, mission_of_texts, split_word};

/// The texts of a specification and of a script.
#[derive(Drop)]
pub struct Documents {
    pub spec: String,
    pub script: String,
}

/// Reads the two files whose names are given, separated by a space.
pub fn read_documents(rt: &HostRuntime, names: &str) -> io::Result<Documents> {
    let (spec, script) = split_word(names);
    Ok(Documents {
        spec: fs::read_to_string(rt, spec)?,
        script: fs::read_to_string(rt, script)?,
    })
}

/// Reads the mission from the two files whose names are given, separated by a space.
pub fn read_mission(rt: &HostRuntime, names: &str) -> io::Result<Mission> {
    read_documents(rt, names)?.mission(rt.alloc(), 0)
}

impl Documents {
    /// Returns the mission of the two texts. The number `step` replaces the first `STEP` in the script, if the script
    /// has one.
    pub fn mission(&self, alloc: Global, step: u32) -> io::Result<Mission> {
        let script = fill(alloc, self.script.as_str(), "STEP", step)?;
        mission_of_texts(alloc, self.spec.as_str(), script.as_str())
    }
}
