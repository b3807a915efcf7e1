//! The choice table, and the configuration that it chooses in an environment. The crate also covers the
//! configurations that can run, the environments in scope, the demands on the table, and the numbers of environments.
#![tactic(auto)]

pub mod choices;
pub mod demands;
pub mod environments;
pub mod laws;
pub mod numbering;

pub use choices::{choose, has_rule, has_source, runnable};
pub use demands::{applies_from, applies_in, has_demand_in, is_met, meets_all};
pub use environments::in_scope;
pub use numbering::{NumberedEnv, env_of, next_in_scope, number_of, states};
