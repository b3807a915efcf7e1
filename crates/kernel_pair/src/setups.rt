//! The setup of a pair.

use crate::events::UnitHalt;
use scram_types::{Script, Spec};

/// The specification and the script of a flight, and the halt of a unit, if there is one.
#[derive(Clone, Copy)]
pub(crate) struct Setup<'a> {
    pub(crate) spec: &'a Spec,
    pub(crate) script: &'a Script,
    pub(crate) halt: Option<UnitHalt>,
}
