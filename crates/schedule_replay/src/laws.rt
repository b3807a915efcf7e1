//! Laws of schedules. Each function's contract is a law.

ghost use Rattle.std.specs.Prelude.{◌≡◌};
ghost use Rattle.schedule_replay.specs.Events.{HasEvents};
ghost use Rattle.schedule_replay.specs.Laws.{OneAnswer};
ghost use Rattle.schedule_replay.specs.LineRules.{LeastEventRuleIsReported};
ghost use Rattle.schedule_replay.specs.Turns.{TurnsLeadToTheEnd};

use event_core::Core;
use scram_types::Spec;

/// States that if a script fits its specification, the flight is over at the end of the round-robin schedule.
pub fn turns_lead_to_the_end()
    ensures { TurnsLeadToTheEnd }
{}

/// States that a line that breaks no rule is read, and that for any other line the broken rule with the lowest number
/// is reported. Each rule is stated on its own, without an order of tests.
pub fn least_rule_is_reported()
    ensures { LeastEventRuleIsReported }
{}

/// States that, apart from out of memory, a list of events has one answer. If the list is a whole schedule, the
/// answer is the one-thread trace. Otherwise it is the first event that is not the next of its actor, or the event
/// that would come next if the list ends too early.
pub fn a_list_has_one_answer()
    ensures { OneAnswer }
{}

/// States that the specification of a core has each event of the core's history, so that the history can be written
/// as text.
pub fn history_is_known(core: &Core, spec: &Spec)
    requires { core.now.spec ≡ spec.now }
    ensures { HasEvents spec.now core.now.history }
{
    // From the use of a field, the prover knows that the specification satisfies its invariant.
    let _ = &spec.procs;
    let _ = core.history();
}
