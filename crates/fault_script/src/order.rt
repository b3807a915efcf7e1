ghost use Rattle.std.specs.Prelude.{◌≡◌};
ghost use Rattle.std.specs.List.{list_any};
ghost use Rattle.fault_script.specs.Orders.{change_follows, comes_after, halt_after, halt_follows, halts_of, is_halt_before, is_restart_by, last_of, may_halt, restart_after, restart_follows};
ghost use Rattle.fault_script.specs.Times.{is_halt_of, is_restart_of};

use crate::version::Version;
use scram_types::{Change, HaltAt, ProcId, RestartAt};

fn comes_after(last_frame: u32, last_number: u8, frame: u32, number: u8) -> bool
    ensures { result ≡ comes_after last_frame last_number frame number }
{
    last_frame < frame || last_frame == frame && last_number < number
}

/// Returns `true` if a change comes after the preceding ones, by frame and then by the factor's number.
pub fn change_follows(before: &[Change], change: &Change) -> bool
    ensures { result ≡ change_follows before.now change.now }
{
    match before.last() {
        Some(last) => comes_after(last.frame, last.factor.0, change.frame, change.factor.0),
        None => true,
    }
}

fn halt_is_after(before: &[HaltAt], halt: &HaltAt) -> bool
    ensures { result ≡ halt_after (last_of before.now) halt.now }
{
    match before.last() {
        Some(last) => comes_after(last.frame, last.proc.0, halt.frame, halt.proc.0),
        None => true,
    }
}

fn has_halted(before: &[HaltAt], proc: ProcId) -> bool
    ensures { result ≡ list_any (is_halt_of proc.0) before.now }
{
    before.iter().any(|halt| halt.proc.0 == proc.0)
}

/// Returns `true` if a halt comes after the preceding ones, by frame and then by the processor's number. In the first
/// version the processor must not have halted before.
pub fn halt_follows(version: Version, before: &[HaltAt], halt: &HaltAt) -> bool
    ensures { result ≡ halt_follows version before.now halt.now }
{
    match version {
        Version::First => halt_is_after(before, halt) && !has_halted(before, halt.proc),
        Version::Second => halt_is_after(before, halt),
    }
}

fn restart_is_after(before: &[RestartAt], restart: &RestartAt) -> bool
    ensures { result ≡ restart_after (last_of before.now) restart.now }
{
    match before.last() {
        Some(last) => comes_after(last.frame, last.proc.0, restart.frame, restart.proc.0),
        None => true,
    }
}

fn has_restart(before: &[RestartAt], proc: ProcId) -> bool
    ensures { result ≡ list_any (is_restart_of proc.0) before.now }
{
    before.iter().any(|restart| restart.proc.0 == proc.0)
}

fn has_halted_before(halts: &[HaltAt], proc: ProcId, frame: u32) -> bool
    ensures { result ≡ list_any (is_halt_before proc.0 frame) halts.now }
{
    halts.iter().any(|halt| halt.proc.0 == proc.0 && u64::from(halt.frame) + 2 <= u64::from(frame))
}

/// Returns `true` if a restart comes after the preceding ones, by frame and then by the processor's number. The
/// restart must be the first of its processor, and two frames or more after a halt of the processor.
pub fn restart_follows(halts: &[HaltAt], before: &[RestartAt], restart: &RestartAt) -> bool
    ensures { result ≡ restart_follows halts.now before.now restart.now }
{
    restart_is_after(before, restart)
        && !has_restart(before, restart.proc)
        && has_halted_before(halts, restart.proc, restart.frame)
}

fn restarts_by(restarts: &[RestartAt], proc: ProcId, frame: u32) -> bool
    ensures { result ≡ list_any (is_restart_by proc.0 frame) restarts.now }
{
    restarts.iter().any(|restart| restart.proc.0 == proc.0 && restart.frame <= frame)
}

fn count_halts(halts: &[HaltAt], proc: ProcId) -> usize
    ensures { result ≡ halts_of proc.0 halts.now }
{
    let mut count = 0;
    for halt in halts {
        if halt.proc.0 == proc.0 {
            count += 1;
        }
    }
    count
}

/// Returns `true` if a halt is the first of its processor, or if it is the second and the processor restarts in the
/// frame of the halt or an earlier one.
pub fn may_halt(restarts: &[RestartAt], before: &[HaltAt], halt: &HaltAt) -> bool
    ensures { result ≡ may_halt restarts.now before.now halt.now }
{
    match count_halts(before, halt.proc) {
        0 => true,
        1 => restarts_by(restarts, halt.proc, halt.frame),
        _ => false,
    }
}
