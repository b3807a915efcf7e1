//! The judgement of a finished trace by the six properties.

ghost use Rattle.std.specs.Prelude.{◌≡◌, ◌<◌, ◌^◌, ◌↔◌, IfErr, IsOk, length};
ghost use Rattle.trace_props.specs.Breaks.{HoldsWhereUnbroken, IsFirstBreak};
ghost use Rattle.trace_props.specs.Judging.{broken_in, conclusion, first_break, first_in_reports, judge};
ghost use Rattle.trace_props.specs.Properties.{HoldsAll};

use crate::breaks::{Broken, Property, broken_at, earlier};
use crate::causes::causeless_at;
use crate::comparing::{Agreement, compare, difference};
use crate::demanded::unsatisfied_at;
use crate::kept::unkept_at;
use crate::targets::{late_at, unchosen_at};
use frame_model::{Reading, close, read_row};
use scram_types::{Report, Row, Spec};

/// Judges rows and their reports by SP1 to SP6. The first of the rows is the row of frame 0. The specification need not
/// be accepted.
///
/// # Errors
///
/// Returns the first break: the first frame in which a property is broken, and the broken property with the smallest
/// number there. SP1 is broken in the smaller begin at the first index at which the reports differ from the
/// reconfigurations that are read off the rows. SP2 is broken in the end of a reconfiguration, and SP3 in the end or
/// the last row. SP4 is broken in a row, SP5 in the begin, and SP6 in a calm row.
pub fn props(spec: &Spec, rows: &[Row], told: &[Report]) -> Result<(), Broken>
    requires { length rows.now < 2 ^ 32 }
    ensures holds { IsOk result ↔ HoldsAll spec.now rows.now told.now }
    ensures broken { IfErr result (λ broken. IsFirstBreak spec.now rows.now told.now broken.property broken.frame) }
{
    match first_break(spec, rows, told) {
        Some(broken) => Err(broken),
        None => Ok(()),
    }
}

/// States that SP1 to SP6 hold if and only if none of them is broken in any frame.
pub fn holds_where_unbroken()
    ensures { HoldsWhereUnbroken }
{}

/// The judgement of the reconfigurations that have been read so far.
#[derive(Clone, Copy)]
pub(crate) struct Judgement {
    /// The agreement of the reports with the reconfigurations that have been read.
    pub agreement: Agreement,
    /// The first break of SP2 to SP5, or `None` if there is none.
    pub broken: Option<Broken>,
    /// The reconfiguration that was read last, or `None` if none has been read.
    pub before: Option<Report>,
}

fn first_break(spec: &Spec, rows: &[Row], told: &[Report]) -> Option<Broken>
    requires { length rows.now < 2 ^ 32 }
    ensures { result ≡ first_break spec.now rows.now told.now }
{
    earlier(
        first_in_reports(spec, rows, told),
        broken_at(Property::Sp6, unsatisfied_at(spec, rows)),
    )
}

// Returns the first break of SP1 to SP5, or `None` if all five hold.
fn first_in_reports(spec: &Spec, rows: &[Row], told: &[Report]) -> Option<Broken>
    requires { length rows.now < 2 ^ 32 }
    ensures { result ≡ first_in_reports spec.now rows.now told.now }
{
    let mut judgement = Judgement {
        agreement: Agreement::Alike(0),
        broken: None,
        before: None,
    };
    let mut reading = Reading::Steady(spec.start);
    let mut frame = 0;
    for row in rows {
        let (next, report) = read_row(spec, reading, frame, &row.acts);
        judgement = judge(spec, rows, told, judgement, report);
        reading = next;
        frame += 1;
    }
    conclude(
        told,
        judge(spec, rows, told, judgement, close(reading, frame)),
    )
}

// Judges the reconfiguration that is read next, if there is one.
fn judge(
    spec: &Spec,
    rows: &[Row],
    told: &[Report],
    so_far: Judgement,
    read: Option<Report>,
) -> Judgement
    ensures { result ≡ judge spec.now rows.now told.now so_far read }
{
    match read {
        Some(read) => Judgement {
            agreement: compare(told, so_far.agreement, read),
            broken: earlier(so_far.broken, broken_in(spec, rows, so_far.before, read)),
            before: Some(read),
        },
        None => so_far,
    }
}

// Returns the first break of SP2 to SP5 by a reconfiguration, or `None` if the reconfiguration keeps them. `before`
// is the reconfiguration that was read just before.
fn broken_in(spec: &Spec, rows: &[Row], before: Option<Report>, read: Report) -> Option<Broken>
    ensures { result ≡ broken_in spec.now rows.now before read }
{
    let target = broken_at(Property::Sp2, unchosen_at(spec, rows, read));
    let time = broken_at(Property::Sp3, late_at(spec, read));
    let areas = broken_at(Property::Sp4, unkept_at(spec, rows, read));
    let cause = broken_at(Property::Sp5, causeless_at(spec, rows, before, read));
    earlier(earlier(target, time), earlier(areas, cause))
}

fn conclude(told: &[Report], judgement: Judgement) -> Option<Broken>
    ensures { result ≡ conclusion told.now judgement }
{
    earlier(
        broken_at(Property::Sp1, difference(told, judgement.agreement)),
        judgement.broken,
    )
}
