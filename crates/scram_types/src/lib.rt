//! The plain types of SCRAM. Every `Spec` satisfies `IsSpec`, so other crates need not check an index, a limit or a
//! name again.
#![tactic(auto)]

pub mod bits;
pub mod demands;
pub mod ids;
pub mod limits;
pub mod lists;
pub mod lookups;
pub mod memory;
pub mod mode_lists;
pub mod names;
pub mod numbers;
pub mod orders;
pub mod ranges;
pub mod rows;
pub mod scripts;
pub mod specification;

pub use demands::Demand;
pub use ids::{AppId, ConfId, FactorId, KindId, Mode, ProcId};
pub use lists::List;
pub use memory::NoMemory;
pub use mode_lists::Modes;
pub use names::Name;
pub use orders::{Act, KMode, Order};
pub use ranges::Range;
pub use rows::{Area, Env, Flown, Goal, Image, Report, Row, World};
pub use scripts::{Change, HaltAt, RestartAt, Script};
pub use specification::{
    AppSpec, Bound, Choice, Conf, Factor, Invariant, ModeSpec, Place, Policy, Precondition, Proc,
    Spec, Want,
};
