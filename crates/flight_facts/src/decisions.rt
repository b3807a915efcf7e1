//! The decision of a reconfiguration: the row in which it is decided, and its cause.

ghost use Rattle.std.specs.Prelude.{◌≡◌, ◌≤◌, ◌+◌, ◌++◌, length, option_and_then};
ghost use Rattle.scram_types.specs.declared.limits.TheConstants.{MAX_LINE_BYTES};
ghost use Rattle.flight_facts.specs.Decisions.{cause_text, decided_in, differ, difference_or_dash, is_under_way, put_off_in};
ghost use Rattle.scram_types.specs.Lookups.{env_in, env_before};

use crate::differences::{add_difference, have_changed};
use scram_types::lookups::{env_before, env_in};
use scram_types::{Env, KMode, Report, Row, Spec};
use trace_text::lines::Line;

/// Returns the row in which the reconfiguration that begins in row `begin` is decided. This is row `begin` if a
/// reconfiguration is under way in that row. Otherwise an application was lost in row `begin`, and the deciding row
/// is the next row, which may not exist.
pub fn decided_in(rows: &[Row], begin: u32) -> usize
    ensures { result ≡ decided_in rows.now begin }
{
    let begin = begin as usize;
    match rows.get(begin) {
        Some(row) => if is_under_way(&row.mode) {
            begin
        } else {
            begin + 1
        },
        None => begin + 1,
    }
}

/// Returns `true` if two optional environments are both present and differ.
pub fn differ(spec: &Spec, before: Option<Env>, after: Option<Env>) -> bool
    ensures { result ≡ differ spec.now before after }
{
    match (before, after) {
        (Some(before), Some(after)) => have_changed(spec, &before, &after),
        (Some(_), None) => false,
        (None, Some(_)) => false,
        (None, None) => false,
    }
}

/// Appends the difference between two optional environments, or `-` if one is missing or they do not differ.
pub fn add_difference_or_dash(line: &mut Line, spec: &Spec, before: Option<Env>, after: Option<Env>)
    requires { length line.old + 348 ≤ MAX_LINE_BYTES }
    ensures text { line.new ≡ line.old ++ difference_or_dash spec.now before after }
    ensures short { length line.new ≤ length line.old + 348 }
{
    match (before, after) {
        (Some(before), Some(after)) => add_difference(line, spec, &before, &after),
        (Some(_), None) => line.text(b"-"),
        (None, Some(_)) => line.text(b"-"),
        (None, None) => line.text(b"-"),
    }
}

/// Appends the cause of a reconfiguration that begins in row `begin`: the change in the row in which the
/// reconfiguration is decided. If nothing changed there and the reconfiguration `earlier` ended in the preceding row,
/// the cause is the change since `earlier` was decided. Otherwise the text is `-`.
pub fn add_cause(line: &mut Line, spec: &Spec, rows: &[Row], earlier: Option<Report>, begin: u32)
    requires { length line.old + 348 ≤ MAX_LINE_BYTES }
    ensures text { line.new ≡ line.old ++ cause_text spec.now rows.now earlier begin }
    ensures short { length line.new ≤ length line.old + 348 }
{
    let decided = decided_in(rows, begin);
    let after = env_in(rows, decided);
    let before = env_before(spec, rows, decided);
    if differ(spec, before, after) {
        add_difference_or_dash(line, spec, before, after);
    } else {
        add_difference_or_dash(line, spec, put_off_env(rows, earlier, begin), after);
    }
}

fn is_under_way(mode: &KMode) -> bool
    ensures { result ≡ is_under_way mode.now }
{
    match mode {
        KMode::Stable(_) => false,
        KMode::Moving {
            from: _,
            halting: _,
            to: _,
            since: _,
        } => true,
    }
}

// Returns the environment in which the reconfiguration `earlier` was decided. Returns `None` if `earlier` is `None` or
// unfinished, did not end in the row preceding `begin`, or was decided in a row that does not exist.
fn put_off_env(rows: &[Row], earlier: Option<Report>, begin: u32) -> Option<Env>
    ensures { result ≡ option_and_then (env_in rows.now) (put_off_in rows.now earlier begin) }
{
    let earlier = earlier?;
    if earlier.to.is_some() && u64::from(earlier.end) + 1 == u64::from(begin) {
        env_in(rows, decided_in(rows, earlier.begin))
    } else {
        None
    }
}
