//! The contents of a refusal.

use scram_types::{AppId, ConfId, Env, ProcId};

/// The reason why a specification is not accepted: the number of the first condition that does not hold, 1 to 13, and
/// the place where the condition is broken. `conf` and `env` are `None` if the condition is not broken at a
/// particular configuration or in a particular environment.
#[derive(Clone, Copy)]
pub struct Shown {
    pub condition: u8,
    pub conf: Option<ConfId>,
    pub env: Option<Env>,
    pub other: Other,
}

/// The further part of the place at which a condition is broken, besides the configuration and the environment.
#[derive(Clone, Copy)]
pub enum Other {
    Nothing,
    App(AppId),
    Proc(ProcId),
    Conf(ConfId),
    /// A number of environments, or a bound in frames.
    Count(u32),
    /// A target, and the minimum bound that suffices for the target, in frames.
    Least(ConfId, u32),
    /// The index of an invariant among the invariants, or of a precondition among the preconditions.
    Item(u32),
    /// The index of a demand among the demands.
    Demand(u32),
}

impl Shown {
    ghost use Rattle.std.specs.Prelude.{◌≡◌};
    ghost use Rattle.coverage_check.specs.Showing.{shown_at, shown_in, shown_nowhere};

    // Returns the refusal by a condition that is broken at no particular configuration.
    pub(crate) fn nowhere(condition: u8, other: Other) -> Shown
        ensures { result ≡ shown_nowhere condition other }
    {
        Shown {
            condition,
            conf: None,
            env: None,
            other,
        }
    }

    // Returns the refusal by a condition that is broken at configuration `c`.
    pub(crate) fn at(condition: u8, c: u8, other: Other) -> Shown
        ensures { result ≡ shown_at condition c other }
    {
        Shown {
            condition,
            conf: Some(ConfId(c)),
            env: None,
            other,
        }
    }

    // Returns the refusal by a condition that is broken at configuration `c` in an environment.
    pub(crate) fn within(condition: u8, c: u8, env: Env, other: Other) -> Shown
        ensures { result ≡ shown_in condition c env other }
    {
        Shown {
            condition,
            conf: Some(ConfId(c)),
            env: Some(env),
            other,
        }
    }
}
