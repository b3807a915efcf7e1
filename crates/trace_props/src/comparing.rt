//! The reports, compared with the reconfigurations that are read off the rows (SP1).

ghost use Rattle.std.specs.Prelude.{◌≡◌};
ghost use Rattle.trace_props.specs.Judging.{compare, difference, is_same_report, is_same_target};

use scram_types::{ConfId, Report};

/// The agreement of the reports with the reconfigurations that have been read so far.
#[derive(Clone, Copy)]
pub(crate) enum Agreement {
    /// Each reconfiguration that has been read equals the report at its index. The field is the number of these
    /// reconfigurations.
    Alike(usize),
    /// A reconfiguration that has been read differs from the report at its index, or there is no such report. The
    /// field is the smaller begin of the two, or the begin of the reconfiguration if there is no such report.
    Apart(u32),
}

// Returns the agreement after the reconfiguration `read`, the next one, is compared with the report at its index. A
// difference that was found before remains.
pub(crate) fn compare(told: &[Report], so_far: Agreement, read: Report) -> Agreement
    ensures { result ≡ compare told.now so_far read }
{
    match so_far {
        Agreement::Alike(place) => match told.get(place) {
            Some(one) => {
                if is_same_report(*one, read) {
                    Agreement::Alike(place + 1)
                } else {
                    Agreement::Apart(one.begin.min(read.begin))
                }
            }
            None => Agreement::Apart(read.begin),
        },
        Agreement::Apart(frame) => Agreement::Apart(frame),
    }
}

// Returns the frame in which SP1 is broken once all reconfigurations are read, or `None` if SP1 is kept. Any further
// report breaks SP1.
pub(crate) fn difference(told: &[Report], so_far: Agreement) -> Option<u32>
    ensures { result ≡ difference told.now so_far }
{
    match so_far {
        Agreement::Alike(place) => match told.get(place) {
            Some(one) => Some(one.begin),
            None => None,
        },
        Agreement::Apart(frame) => Some(frame),
    }
}

fn is_same_report(one: Report, other: Report) -> bool
    ensures { result ≡ is_same_report one other }
{
    one.from.0 == other.from.0
        && is_same_target(one.to, other.to)
        && one.begin == other.begin
        && one.end == other.end
}

fn is_same_target(one: Option<ConfId>, other: Option<ConfId>) -> bool
    ensures { result ≡ is_same_target one other }
{
    match (one, other) {
        (Some(one), Some(other)) => one.0 == other.0,
        (None, None) => true,
        (Some(_), None) => false,
        (None, Some(_)) => false,
    }
}
