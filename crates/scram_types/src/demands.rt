//! Demands on the choices that a table makes in some environments.

ghost use Rattle.std.specs.Prelude.{◌≡◌};

use crate::ids::AppId;
use crate::lists::List;
use crate::mode_lists::Modes;
use crate::names::Name;
use crate::specification::Want;

/// A demand on the choices in some environments. It applies if the environment has each value of `wants`, each
/// processor of `up` is up, and each processor of `down` is down. Then a choice from a configuration of `from` has to
/// be a configuration of `to` in which each application of `on` is on and each application of `off` is off. An empty
/// `from` or `to` means every configuration. The sets are kept as bits.
///
/// For each application, the entry of `on` is `None` if the application need not be on. Otherwise the entry is the
/// list of the modes that are allowed, and an empty list allows any mode.
pub struct Demand {
    pub name: Name,
    pub from: u16,
    pub wants: List<Want>,
    pub up: u8,
    pub down: u8,
    pub to: u16,
    pub on: [Option<Modes>; 8],
    pub off: u8,
}

// A derived drop is laid out in the proof of each function that drops the value, and this one is a call.
impl Drop for Demand {
    fn drop(self) {
        let Demand {
            name: _,
            from: _,
            wants: _,
            up: _,
            down: _,
            to: _,
            on: _,
            off: _,
        } = self;
    }
}

impl Demand {
    ghost use Rattle.scram_types.specs.Specification.{modes_on};

    /// Returns the modes that the demand allows for an application: the empty list if any mode will do, or `None` if
    /// the demand does not require the application to be on.
    pub fn modes_on(&self, app: AppId) -> Option<Modes>
        ensures { result ≡ modes_on self.now app.0 }
    {
        match self.on.get(usize::from(app.0)) {
            Some(modes) => *modes,
            None => None,
        }
    }
}
