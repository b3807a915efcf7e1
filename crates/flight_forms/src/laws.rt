//! The laws of flights. The contract of each function is a law.

ghost use Rattle.flight_forms.specs.Assurance.{FlightsAreAssured};
ghost use Rattle.flight_forms.specs.Laws.{LinesAreRuns};

use trace_props::missions::reconfigurations_are_assured;

/// States that if `run`, `watch`, `replay`, `gen` or `fly` answers with status 0, the assurance of its form holds.
pub fn flights_are_assured()
    ensures { FlightsAreAssured }
{
    reconfigurations_are_assured();
}

/// States that, for an accepted specification, the outcome of a line of `flights` agrees with the answer of `run` to a
/// file with the same bytes. The outcome has the facts of the trace that `run` prints, or the refusal that `run`
/// prints.
pub fn lines_are_runs()
    ensures { LinesAreRuns }
{}
