//! The causes of reconfigurations: changes of the environment (SP5).

ghost use Rattle.std.specs.Prelude.{◌≡◌, ◌+◌, ◌-◌};
ghost use Rattle.trace_props.specs.Judging.{causeless_at, changes_in, first_within, follows, has_cause, is_another_env, settles};

use fault_script::differs;
use scram_types::lookups::{env_before, env_in};
use scram_types::{Env, Policy, Report, Row, Spec};

// Returns the begin of a reconfiguration if SP5 is broken in it, or `None` if SP5 is kept. SP5 is broken if the
// environment changed neither in the begin, nor in the next frame, nor, under `Settle`, during the reconfiguration
// just before. A begin in the last row is exempt.
pub(crate) fn causeless_at(
    spec: &Spec,
    rows: &[Row],
    before: Option<Report>,
    read: Report,
) -> Option<u32>
    ensures { result ≡ causeless_at spec.now rows.now before read }
{
    let next = read.begin as usize + 1;
    if next >= rows.len() || has_cause(spec, rows, before, read) {
        None
    } else {
        Some(read.begin)
    }
}

fn has_cause(spec: &Spec, rows: &[Row], before: Option<Report>, read: Report) -> bool
    ensures { result ≡ has_cause spec.now rows.now before read }
{
    let begin = read.begin as usize;
    changes_in(spec, rows, begin)
        || changes_in(spec, rows, begin + 1)
        || follows(spec, rows, before, read)
}

// Returns `true` if the policy is `Settle`, reconfiguration `before` ended in the row before the begin of `read`, and
// the environment changed during `before` after its begin.
fn follows(spec: &Spec, rows: &[Row], before: Option<Report>, read: Report) -> bool
    ensures { result ≡ follows spec.now rows.now before read }
{
    match before {
        Some(before) => {
            settles(spec.policy)
                && before.end as usize + 1 == read.begin as usize
                && first_change(spec, rows, before).is_some()
        }
        None => false,
    }
}

fn settles(policy: Policy) -> bool
    ensures { result ≡ settles policy }
{
    match policy {
        Policy::Settle => true,
        Policy::Retarget => false,
    }
}

// Returns the first row of a reconfiguration after its begin in which the environment changes, or `None` if there is
// none.
fn first_change(spec: &Spec, rows: &[Row], read: Report) -> Option<usize>
    ensures { result ≡ first_within (changes_in spec.now rows.now) (read.begin + 1) read.end }
{
    for frame in read.begin as usize + 1..read.end as usize + 1 {
        if changes_in(spec, rows, frame) {
            return Some(frame);
        }
    }
    None
}

// Returns `true` if row `frame` exists and its environment differs from the environment of the preceding row.
fn changes_in(spec: &Spec, rows: &[Row], frame: usize) -> bool
    ensures { result ≡ changes_in spec.now rows.now frame }
{
    is_another_env(env_in(rows, frame), env_before(spec, rows, frame))
}

pub(crate) fn is_another_env(env: Option<Env>, before: Option<Env>) -> bool
    ensures { result ≡ is_another_env env before }
{
    match (env, before) {
        (Some(env), Some(before)) => differs(&env, &before),
        (Some(_), None) => true,
        (None, _) => false,
    }
}
