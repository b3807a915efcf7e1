ghost use Rattle.std.specs.Prelude.{◌≡◌, ◌≤◌};
ghost use Rattle.serde_json.specs.View.{view};
ghost use Rattle.fault_script.specs.Versions.{halts_limit, member_count, version_of};

use scram_doc::field;
use serde_json::Value;

/// The versions of the script document. Only the second version has restarts.
#[derive(Clone, Copy)]
pub enum Version {
    First,
    Second,
}

/// Returns the version of a document: the second if its member `scram` is the number 2, else the first.
pub fn version_of(v: &Value) -> Version
    ensures { result ≡ version_of (view v.now) }
{
    match field(v, "scram") {
        Some(scram) => match scram.as_u64() {
            Some(2) => Version::Second,
            Some(_) | None => Version::First,
        },
        None => Version::First,
    }
}

impl Version {
    /// Returns the number of members of a script document of this version.
    pub fn member_count(self) -> usize
        ensures { result ≡ member_count self }
    {
        match self {
            Version::First => 4,
            Version::Second => 5,
        }
    }

    /// Returns the maximum number of halts in a script document of this version.
    pub fn halts_limit(self) -> usize
        ensures count { result ≡ halts_limit self }
        ensures most { result ≤ 16 }
    {
        match self {
            Version::First => 8,
            Version::Second => 16,
        }
    }
}
