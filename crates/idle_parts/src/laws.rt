//! The laws that state which rules, configurations and demands are shown as idle. The contract of each function is a
//! law.

ghost use Rattle.idle_parts.specs.Laws.{IdleConfsAreExact, IdleDemandsAreExact, IdleRulesAreExact};

/// States that a rule is shown as idle if and only if it is not the first that fits for any configuration in any
/// environment in scope.
pub fn idle_rules_are_exact()
    ensures { IdleRulesAreExact }
{}

/// States that a configuration is shown as idle if and only if it is neither the start nor a possible target of another
/// configuration.
pub fn idle_confs_are_exact()
    ensures { IdleConfsAreExact }
{}

/// States that a demand is shown as idle if and only if it applies to no environment in scope.
pub fn idle_demands_are_exact()
    ensures { IdleDemandsAreExact }
{}
