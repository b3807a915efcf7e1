//! The laws of the form `flights`. The contract of each function is a law.

ghost use Rattle.flights_form.specs.Assurance.{SeriesAreAssured};

use trace_props::missions::reconfigurations_are_assured;

/// States that the assurance of the form follows from each answer of `flights` with status 0.
pub fn series_are_assured()
    ensures { SeriesAreAssured }
{
    reconfigurations_are_assured();
}
