//! The demands on the running configuration once the environment has held for the greatest bound (SP6).

ghost use Rattle.std.specs.Prelude.{◌≡◌, ◌<◌, ◌^◌, length, slice_get};
ghost use Rattle.trace_props.specs.Judging.{breaks_after, held_by, is_lost, is_unsatisfied, loses_some, unsatisfied_at, unsatisfied_in};
ghost use Rattle.trace_props.specs.Properties.{is_satisfied, satisfies};

use crate::causes::is_another_env;
use choice_table::{has_demand_in, meets_all};
use coverage_check::greatest_bound;
use frame_model::running;
use scram_types::lookups::env_in;
use scram_types::{Act, ConfId, Env, Row, Spec};

// Returns the frame of the first calm row that does not satisfy the demands, or `None` if there is none.
pub(crate) fn unsatisfied_at(spec: &Spec, rows: &[Row]) -> Option<u32>
    requires { length rows.now < 2 ^ 32 }
    ensures { result ≡ unsatisfied_at spec.now rows.now }
{
    let greatest = greatest_bound(spec);
    let mut since = 0;
    for frame in 0..rows.len() {
        since = held_by(rows, frame, since);
        if breaks_after(spec, rows, greatest, frame, since) {
            return Some(frame as u32);
        }
    }
    None
}

// Returns the frame since which the environment has been the same as in row `frame`. `since` is the corresponding
// frame for the preceding row.
fn held_by(rows: &[Row], frame: usize, since: usize) -> usize
    ensures { result ≡ held_by rows.now frame since }
{
    match frame.checked_sub(1) {
        Some(before) => {
            if is_another_env(env_in(rows, frame), env_in(rows, before)) {
                frame
            } else {
                since
            }
        }
        None => 0,
    }
}

fn breaks_after(spec: &Spec, rows: &[Row], frames: u32, frame: usize, since: usize) -> bool
    ensures { result ≡ breaks_after spec.now rows.now frames frame since }
{
    frames as usize <= frame.saturating_sub(since) && unsatisfied_in(spec, rows, frame)
}

fn unsatisfied_in(spec: &Spec, rows: &[Row], frame: usize) -> bool
    ensures { result ≡ unsatisfied_in spec.now (slice_get rows.now frame) }
{
    match rows.get(frame) {
        Some(row) => is_unsatisfied(spec, row),
        None => false,
    }
}

fn is_unsatisfied(spec: &Spec, row: &Row) -> bool
    ensures { result ≡ is_unsatisfied spec.now row.now }
{
    !loses_some(row) && !is_satisfied(spec, row)
}

fn loses_some(row: &Row) -> bool
    ensures { result ≡ loses_some row.now }
{
    row.acts.iter().any(|done| is_lost(*done))
}

fn is_lost(act: Act) -> bool
    ensures { result ≡ is_lost act }
{
    match act {
        Act::Lost => true,
        Act::Ran(_, _)
        | Act::Halting(_, _, _)
        | Act::Held
        | Act::Preparing(_, _, _)
        | Act::Initialising(_, _, _)
        | Act::Off => false,
    }
}

fn is_satisfied(spec: &Spec, row: &Row) -> bool
    ensures { result ≡ is_satisfied spec.now row.now }
{
    satisfies(spec, &row.env, running(spec, &row.acts))
}

// Returns `true` if the running configuration satisfies the demands in an environment. If no configuration runs,
// returns `true` if no demand matches the environment.
fn satisfies(spec: &Spec, env: &Env, running: Option<ConfId>) -> bool
    ensures { result ≡ satisfies spec.now env.now running }
{
    match running {
        Some(conf) => meets_all(spec, conf, env),
        None => !has_demand_in(spec, env),
    }
}
