//! The outcome of a configuration's choices over all environments in scope, computed with cubes of environments. A
//! cover contains the possible targets, and the first environments in which a requirement on the table is broken. The
//! crate also finds the first environments in which the table misses a demand, and the number of environments in
//! which each rule is the first that fits.
#![tactic(auto)]

pub mod answers;
pub mod covers;
mod cubes;
pub mod demands;
pub mod laws;
mod leasts;
mod regions;
pub mod shares;
mod sizes;
mod splits;

pub use answers::Cover;
pub use covers::cover;
pub use demands::misses;
pub use shares::{Share, first_rule, shares_of};
