//! Laws of summaries. Each function states a law by its contract.

ghost use Rattle.telemetry_tap.specs.Laws.{SummariesComeBack, SummariesGoOn, SummariesTellRows};

use frame_model::laws::beginnings_are_read;

/// States that the summary of a mission after `m` frames equals the summary computed from the first `m` rows of its
/// trace.
pub fn summaries_tell_rows()
    ensures { SummariesTellRows }
{
    beginnings_are_read();
}

/// States that the number of reconfigurations that have begun never decreases, and rises by at most 1 with each
/// frame.
pub fn summaries_go_on()
    ensures { SummariesGoOn }
{
    beginnings_are_read();
}

/// States that encoding and decoding are inverse, for each summary whose parts fit the word and for each word of 48
/// bits.
pub fn summaries_come_back()
    ensures { SummariesComeBack }
{}
