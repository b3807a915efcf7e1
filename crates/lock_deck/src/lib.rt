//! A flight with a thread for each processor, and with the kernel on the caller's thread. The threads share a core
//! under a lock. Each change under the lock is one step of the core. Therefore the core's history is a schedule. The
//! resulting core is a core of the mission, and the flight of the core is over.
#![tactic(auto)]

pub mod lock_flights;
pub mod made;
pub mod members;
mod shared_cores;
mod steps;
mod turns;

pub use lock_flights::LockFlight;
pub use members::Member;
