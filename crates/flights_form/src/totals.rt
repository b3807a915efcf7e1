//! The totals of all flights.

ghost use Rattle.std.specs.Prelude.{◌≡◌, ◌<◌, ◌≤◌, ◌+◌, ◌-◌, ◌^◌, [], if◌then◌else◌};
ghost use Rattle.flights_form.specs.Totals.{gap_in_flight, greater_in_flight, is_refused, lesser_in_flight, margin_in_flight, totals_of, with_outcome};

use crate::outcomes::Outcome;

/// The minimum margin of all flights, in frames, and the first flight that has this margin.
#[derive(Clone, Copy)]
pub struct FlightMargin {
    pub frames: i64,
    pub flight: u32,
}

/// The longest gap of all flights, in frames, and the first flight that has a gap of this length.
#[derive(Clone, Copy)]
pub struct FlightGap {
    pub frames: u32,
    pub flight: u32,
}

/// The totals of some lines: the numbers of lines and of refused lines, the minimum margin and the longest gap.
#[derive(Clone, Copy)]
pub struct Totals {
    pub lines: u32,
    pub refused: u32,
    pub margin: Option<FlightMargin>,
    pub gap: Option<FlightGap>,
}

impl Totals {
    /// Returns the totals before the first line.
    pub fn new() -> Totals
        ensures { result ≡ totals_of [] }
    {
        Totals {
            lines: 0,
            refused: 0,
            margin: None,
            gap: None,
        }
    }

    /// Returns these totals with the outcome of the next line included.
    pub fn with(&self, outcome: &Outcome) -> Totals
        requires lines { self.now.lines < 2 ^ 32 - 1 }
        requires refused { self.now.refused ≤ self.now.lines }
        ensures { result ≡ with_outcome self.now outcome.now }
    {
        Totals {
            lines: self.lines + 1,
            refused: self.refused + count_refused(outcome),
            margin: lesser_in_flight(self.margin, margin_in_flight(self.lines, outcome)),
            gap: greater_in_flight(self.gap, gap_in_flight(self.lines, outcome)),
        }
    }
}

fn count_refused(outcome: &Outcome) -> u32
    ensures value { result ≡ (if is_refused outcome.now then 1 else 0) }
    ensures few { result ≤ 1 }
{
    match outcome {
        Outcome::Flown(_) => 0,
        Outcome::Refused(_) => 1,
    }
}

fn margin_in_flight(k: u32, outcome: &Outcome) -> Option<FlightMargin>
    ensures { result ≡ margin_in_flight k outcome.now }
{
    match outcome {
        Outcome::Flown(facts) => match facts.margin {
            Some(margin) => Some(FlightMargin {
                frames: margin.frames,
                flight: k,
            }),
            None => None,
        },
        Outcome::Refused(_) => None,
    }
}

fn lesser_in_flight(
    margin: Option<FlightMargin>,
    later: Option<FlightMargin>,
) -> Option<FlightMargin>
    ensures { result ≡ lesser_in_flight margin later }
{
    match (margin, later) {
        (None, None) => None,
        (None, Some(later)) => Some(later),
        (Some(margin), None) => Some(margin),
        (Some(margin), Some(later)) => if later.frames < margin.frames {
            Some(later)
        } else {
            Some(margin)
        },
    }
}

fn gap_in_flight(k: u32, outcome: &Outcome) -> Option<FlightGap>
    ensures { result ≡ gap_in_flight k outcome.now }
{
    match outcome {
        Outcome::Flown(facts) => match facts.gap {
            Some(gap) => Some(FlightGap {
                frames: gap.gap.frames,
                flight: k,
            }),
            None => None,
        },
        Outcome::Refused(_) => None,
    }
}

fn greater_in_flight(gap: Option<FlightGap>, later: Option<FlightGap>) -> Option<FlightGap>
    ensures { result ≡ greater_in_flight gap later }
{
    match (gap, later) {
        (None, None) => None,
        (None, Some(later)) => Some(later),
        (Some(gap), None) => Some(gap),
        (Some(gap), Some(later)) => if gap.frames < later.frames {
            Some(later)
        } else {
            Some(gap)
        },
    }
}
