//! The cover of a configuration.

use scram_types::Env;

/// The outcome of a configuration's choices over all environments in scope.
#[derive(Clone, Copy, Debug)]
pub struct Cover {
    /// The set of possible targets: bit `j` is set if configuration `j` is chosen in some environment in scope.
    pub targets: u16,
    /// The first environment in scope, by number, in which no rule fits, or `None` if there is no such environment.
    pub unfit: Option<Env>,
    /// The first environment in scope, by number, in which the chosen target cannot run, or `None` if there is no
    /// such environment.
    pub not_runnable: Option<Env>,
    /// The first environment in scope, by number, in which the table chooses another target from the chosen target,
    /// or `None` if there is no such environment.
    pub unsettled: Option<Env>,
}
