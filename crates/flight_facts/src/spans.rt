//! Lanes, each of which shows one part of every row of a flight, and spans of consecutive rows that look alike in a
//! lane.

ghost use Rattle.std.specs.Prelude.{◌≡◌, ◌<◌, ◌≤◌, ◌^◌, length, option_map};
ghost use Rattle.flight_facts.specs.Spans.{IsLane, alike_rows, are_alike, is_new, row_before, same_bit, same_conf, same_doing, same_proc, span_at, stable_conf};

use crate::acts::{act_word, mode_of_act, proc_of_act};
use scram_types::bits::has_bit;
use scram_types::{Act, ConfId, KMode, ProcId, Row};

/// The part of each row that a lane shows: the stable configuration, the value of a factor, whether a processor is up,
/// or the act of an application.
#[derive(Clone, Copy)]
pub enum Lane {
    Configuration,
    /// The factor of this number, below 6.
    Factor(u8),
    /// The processor of this number, below 8.
    Processor(u8),
    /// The application of this number, below 8.
    Application(u8),
}

/// Returns the length, in rows, of the span that begins with row `k` in a lane. The span has row `k` and the
/// consecutive rows after it that look like row `k` in the lane. Returns `None` if row `k` looks like the preceding
/// row or does not exist.
pub fn span_at(lane: Lane, rows: &[Row], k: usize) -> Option<u32>
    requires lane { IsLane lane }
    requires rows { length rows.now < 2 ^ 32 }
    ensures { result ≡ span_at lane rows.now k }
{
    match rows.get(k) {
        Some(row) => if is_new(lane, row_before(rows, k), row) {
            Some(alike_rows(lane, row, &rows[k + 1..]) + 1)
        } else {
            None
        },
        None => None,
    }
}

/// Returns the row preceding row `k`, or `None` if there is no such row.
pub fn row_before(rows: &[Row], k: usize) -> Option<&Row>
    ensures { option_map (λ row. row.now) result ≡ row_before rows.now k }
{
    if k == 0 { None } else { rows.get(k - 1) }
}

fn is_new(lane: Lane, before: Option<&Row>, row: &Row) -> bool
    requires lane { IsLane lane }
    ensures { result ≡ is_new lane (option_map (λ row. row.now) before.entry) row.now }
{
    match before {
        Some(before) => !are_alike(lane, before, row),
        None => true,
    }
}

// Returns the number of consecutive rows, from the first on, that look like `row` in a lane.
fn alike_rows(lane: Lane, row: &Row, rows: &[Row]) -> u32
    requires lane { IsLane lane }
    requires rows { length rows.now < 2 ^ 32 }
    ensures value { result ≡ alike_rows lane row.now rows.now }
    ensures most { result ≤ length rows.now }
{
    let mut count = 0;
    for next in rows {
        if !are_alike(lane, row, next) {
            return count;
        }
        count += 1;
    }
    count
}

fn are_alike(lane: Lane, row: &Row, other: &Row) -> bool
    requires lane { IsLane lane }
    ensures { result ≡ are_alike lane row.now other.now }
{
    match lane {
        Lane::Configuration => same_conf(stable_conf(&row.mode), stable_conf(&other.mode)),
        Lane::Factor(i) => {
            let i = usize::from(i);
            row.env.factors[i] == other.env.factors[i]
        }
        Lane::Processor(p) => same_bit(p, row.env.up, other.env.up),
        Lane::Application(a) => {
            let a = usize::from(a);
            same_doing(&row.acts[a], &other.acts[a])
        }
    }
}

/// Returns the stable configuration of a mode, or `None` if a reconfiguration is under way.
pub fn stable_conf(mode: &KMode) -> Option<ConfId>
    ensures { result ≡ stable_conf mode.now }
{
    match mode {
        KMode::Stable(conf) => Some(*conf),
        KMode::Moving {
            from: _,
            halting: _,
            to: _,
            since: _,
        } => None,
    }
}

fn same_conf(conf: Option<ConfId>, other: Option<ConfId>) -> bool
    ensures { result ≡ same_conf conf other }
{
    match (conf, other) {
        (None, None) => true,
        (None, Some(_)) => false,
        (Some(_), None) => false,
        (Some(conf), Some(other)) => conf.0 == other.0,
    }
}

fn same_bit(p: u8, set: u8, other: u8) -> bool
    ensures { result ≡ same_bit p set other }
{
    if has_bit(set, p) {
        has_bit(other, p)
    } else {
        !has_bit(other, p)
    }
}

fn same_doing(act: &Act, other: &Act) -> bool
    ensures { result ≡ same_doing act.now other.now }
{
    act_word(act).number() == act_word(other).number()
        && mode_of_act(act).0 == mode_of_act(other).0
        && same_proc(proc_of_act(act), proc_of_act(other))
}

fn same_proc(proc: Option<ProcId>, other: Option<ProcId>) -> bool
    ensures { result ≡ same_proc proc other }
{
    match (proc, other) {
        (None, None) => true,
        (None, Some(_)) => false,
        (Some(_), None) => false,
        (Some(proc), Some(other)) => proc.0 == other.0,
    }
}
