//! The views of seats at the table, the rule that every step keeps, and the steps. No value of these types is
//! created.

use atomic_table::{Play, Split, TableRule};
use coverage_check::Mission;

/// The view of a seat: the mission, whether the view is the writer's, the number of rows that the seat has published
/// or seen, and the number of its loads.
pub struct TapView {
    pub mission: Option<Mission>,
    pub writes: bool,
    pub seen: u64,
    pub loads: u64,
}

/// The rule of the table. Exactly one view is the writer's, and the word encodes the summary of the rows that the
/// writer has published. No reader has seen more rows than the writer has published.
pub struct TapRule;

impl TableRule<(), TapView, Mission> for TapRule {
    ghost use Rattle.telemetry_tap.specs.Rule.{IsTapState, writer_view};

    ghost holds = { IsTapState };

    ghost first = { writer_view };
}

/// A store by the writer, which publishes the summary after one more row.
pub struct PublishesRow;

impl Play<(), TapView> for PublishesRow {
    ghost use Rattle.telemetry_tap.specs.Rule.{publishes_row};

    ghost then = { publishes_row };
}

/// A load by a reader.
pub struct ReadsSummary;

impl Play<(), TapView> for ReadsSummary {
    ghost use Rattle.telemetry_tap.specs.Rule.{reads_summary};

    ghost then = { reads_summary };
}

/// A split of the writer's seat, which adds the seat of a new reader. The reader has seen all rows that the writer
/// has published.
pub struct GivesReader;

impl Split<TapView> for GivesReader {
    ghost use Rattle.telemetry_tap.specs.Rule.{reader_view};

    ghost left = { λ v. v };

    ghost right = { reader_view };
}
