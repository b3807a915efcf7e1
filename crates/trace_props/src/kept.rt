//! The invariants for a reconfiguration's source and the preconditions of its target (SP4).

ghost use Rattle.std.specs.Prelude.{◌≡◌, ◌+◌, ◌-◌};
ghost use Rattle.scram_types.specs.Numbers.{word};
ghost use Rattle.choice_table.specs.Choices.{has_source};
ghost use Rattle.frame_model.specs.States.{area_at};
ghost use Rattle.trace_props.specs.Judging.{breaks_at, breaks_target_precondition, breaks_invariant, goes_to, breaks_precondition, lesser_frame, lies_in, unkept_at, unkept_from, unmet_at, unmet_in, first_within};

use choice_table::has_source;
use scram_types::{AppId, Area, ConfId, Invariant, Precondition, Report, Row, Spec};

// Returns the first frame in which SP4 is broken, or `None` if SP4 is kept. SP4 is broken in a row that breaks an
// invariant, and in the row before the end if that row does not meet a precondition of the target.
pub(crate) fn unkept_at(spec: &Spec, rows: &[Row], read: Report) -> Option<u32>
    ensures { result ≡ unkept_at spec.now rows.now read }
{
    let mut least = unmet_at(spec, rows, read);
    for inv in spec.invariants.items() {
        least = lesser_frame(least, unkept_from(rows, read, inv));
    }
    least
}

// Returns the first frame in which an invariant is broken, or `None` if the invariant is kept or is not for the source.
fn unkept_from(rows: &[Row], read: Report, inv: &Invariant) -> Option<u32>
    ensures { result ≡ unkept_from rows.now read inv.now }
{
    if has_source(inv.from, read.from) {
        first_breach(rows, read, inv)
    } else {
        None
    }
}

fn first_breach(rows: &[Row], read: Report, inv: &Invariant) -> Option<u32>
    ensures { result ≡ first_within (breaks_at rows.now inv.now) read.begin read.end }
{
    for frame in read.begin as usize..read.end as usize + 1 {
        if breaks_at(rows, inv, frame) {
            return Some(frame as u32);
        }
    }
    None
}

fn breaks_at(rows: &[Row], inv: &Invariant, frame: usize) -> bool
    ensures { result ≡ breaks_at rows.now inv.now frame }
{
    match rows.get(frame) {
        Some(row) => breaks_invariant(row, inv),
        None => false,
    }
}

fn breaks_invariant(row: &Row, inv: &Invariant) -> bool
    ensures { result ≡ breaks_invariant row.now inv.now }
{
    !lies_in(inv.least, inv.greatest, word_in(row, inv.app, inv.variable))
}

// Returns the frame before the end if its row exists and does not meet some precondition of the target, or `None`
// otherwise.
fn unmet_at(spec: &Spec, rows: &[Row], read: Report) -> Option<u32>
    ensures { result ≡ unmet_at spec.now rows.now read }
{
    let frame = read.end.checked_sub(1)?;
    let row = rows.get(frame as usize)?;
    if unmet_in(spec, row, read.to) {
        Some(frame)
    } else {
        None
    }
}

fn unmet_in(spec: &Spec, row: &Row, to: Option<ConfId>) -> bool
    ensures { result ≡ unmet_in spec.now row.now to }
{
    spec.preconditions
        .items()
        .iter()
        .any(|pre| breaks_target_precondition(row, to, pre))
}

fn breaks_target_precondition(row: &Row, to: Option<ConfId>, pre: &Precondition) -> bool
    ensures { result ≡ breaks_target_precondition row.now to pre.now }
{
    goes_to(to, pre.conf) && breaks_precondition(row, pre)
}

fn breaks_precondition(row: &Row, pre: &Precondition) -> bool
    ensures { result ≡ breaks_precondition row.now pre.now }
{
    !lies_in(pre.least, pre.greatest, word_in(row, pre.app, pre.variable))
}

fn goes_to(to: Option<ConfId>, conf: ConfId) -> bool
    ensures { result ≡ goes_to to conf }
{
    match to {
        Some(to) => to.0 == conf.0,
        None => false,
    }
}

// Returns a word of an application's area, or 0 if there is no such word.
fn word_in(row: &Row, app: AppId, variable: u8) -> i64
    ensures { result ≡ word (area_at row.now.areas app.0) variable }
{
    word_of(&area_of(row, app), usize::from(variable))
}

fn area_of(row: &Row, app: AppId) -> Area
    ensures { result ≡ area_at row.now.areas app.0 }
{
    match row.areas.get(usize::from(app.0)) {
        Some(area) => *area,
        None => [0; 8],
    }
}

#[tactic(auto, using(crate::proofs::Words::word_past), unfolding(scram_types::specs::Numbers::word))]
fn word_of(area: &Area, variable: usize) -> i64
    ensures { result ≡ word area.now variable }
{
    if variable < 8 { area[variable] } else { 0 }
}

fn lies_in(low: i64, high: i64, word: i64) -> bool
    ensures { result ≡ lies_in low high word }
{
    low <= word && word <= high
}

// Returns the smaller of two frames, the only one present, or `None` if both are absent.
fn lesser_frame(one: Option<u32>, other: Option<u32>) -> Option<u32>
    ensures { result ≡ lesser_frame one other }
{
    match (one, other) {
        (Some(one), Some(other)) => Some(one.min(other)),
        (Some(one), None) => Some(one),
        (None, other) => other,
    }
}
