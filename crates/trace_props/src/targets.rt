//! The choice of a reconfiguration's target, and its bound (SP2 and SP3).

ghost use Rattle.std.specs.Prelude.{◌≡◌, ◌+◌, ◌-◌};
ghost use Rattle.trace_props.specs.Breaks.{last_frame};
ghost use Rattle.trace_props.specs.Judging.{chooses, first_within, late_at, unchosen_at};
ghost use Rattle.trace_props.specs.Properties.{bound_on};

use choice_table::choose;
use scram_types::{ConfId, Report, Row, Spec};

// Returns the frame in which SP2 is broken, or `None` if SP2 is kept. SP2 is broken in the end of the reconfiguration
// if the table does not choose the target in the environment of any row of the reconfiguration.
pub(crate) fn unchosen_at(spec: &Spec, rows: &[Row], read: Report) -> Option<u32>
    ensures { result ≡ unchosen_at spec.now rows.now read }
{
    match read.to {
        Some(to) => match first_choice(spec, rows, read, to) {
            Some(_) => None,
            None => Some(read.end),
        },
        None => None,
    }
}

// Returns the first frame of a reconfiguration in whose environment the table chooses configuration `to`, or `None` if
// there is none.
fn first_choice(spec: &Spec, rows: &[Row], read: Report, to: ConfId) -> Option<usize>
    ensures { result ≡ first_within (chooses spec.now rows.now read.from to) read.begin read.end }
{
    for frame in read.begin as usize..read.end as usize + 1 {
        if chooses(spec, rows, read.from, to, frame) {
            return Some(frame);
        }
    }
    None
}

fn chooses(spec: &Spec, rows: &[Row], from: ConfId, to: ConfId, frame: usize) -> bool
    ensures { result ≡ chooses spec.now rows.now from to frame }
{
    match rows.get(frame) {
        Some(row) => choose(spec, from, &row.env).0 == to.0,
        None => false,
    }
}

// Returns the frame in which SP3 is broken, or `None` if SP3 is kept. SP3 is broken in the last frame of the
// reconfiguration if no bound is given or the reconfiguration took longer than the bound.
pub(crate) fn late_at(spec: &Spec, read: Report) -> Option<u32>
    ensures { result ≡ late_at spec.now read }
{
    match bound_on(spec, read) {
        Some(bound) => {
            if read.end.saturating_sub(read.begin) <= bound {
                None
            } else {
                Some(last_frame(read))
            }
        }
        None => Some(last_frame(read)),
    }
}

fn bound_on(spec: &Spec, read: Report) -> Option<u32>
    ensures { result ≡ bound_on spec.now read.from read.to }
{
    match read.to {
        Some(to) => spec.bound(read.from, to),
        None => spec.greatest_bound(read.from),
    }
}

fn last_frame(read: Report) -> u32
    ensures { result ≡ last_frame read }
{
    match read.to {
        Some(_) => read.end,
        None => read.end.saturating_sub(1),
    }
}
