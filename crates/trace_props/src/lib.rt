//! The properties of reconfigurations, for every accepted specification and every script within its assumption. Each
//! reconfiguration that is read off the rows ends within the given bound, in a target that the table chose during the
//! reconfiguration. The reconfiguration keeps its invariants throughout and meets the target's preconditions in the
//! row before its end. Its cause is a change of the environment, unless it begins in the last row. Once the
//! environment has held for the greatest bound, the running configuration satisfies the demands in each row in which
//! no application is lost. A finished trace is judged by the same properties.
#![tactic(auto)]

pub mod breaks;
mod causes;
mod comparing;
mod demanded;
pub mod judging;
mod kept;
pub mod missions;
mod targets;
pub mod traces;

pub use breaks::{Broken, Property};
pub use judging::props;
pub use traces::one_thread;
