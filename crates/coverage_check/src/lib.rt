//! The static check of a specification by the conditions A1 to A13. `accept` returns an accepted specification, for
//! which every reconfiguration is assured, or the first condition that does not hold and the first place where it is
//! broken. A mission is an accepted specification with a script that keeps to the specification's failure assumption.
#![tactic(auto)]

pub mod acceptance;
pub mod choosing;
mod demands;
pub mod form;
pub mod holding;
pub mod missions;
pub mod shown;
pub mod target_sets;
pub mod timing;

pub use acceptance::{AcceptError, Accepted, accept};
pub use form::refuse_states;
pub use missions::{Mission, NotWithin};
pub use shown::{Other, Shown};
pub use target_sets::targets;
pub use timing::{asked_bounds, greatest_bound, greatest_of, is_asked, least};
