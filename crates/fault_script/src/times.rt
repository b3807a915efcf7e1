//! Lookups in a script: the values of the factors, the halts and restarts of a processor, and whether a processor is
//! up.

ghost use Rattle.std.specs.Prelude.{◌≡◌};
ghost use Rattle.std.specs.List.{list_all};
ghost use Rattle.fault_script.specs.Times.{factors_at, halt_in, halt_of, is_over, is_up, restart_of, restarted, value_after};

use scram_types::{HaltAt, ProcId, Script};

/// Returns the values of the six factors in a frame, by number. The value of a factor is the value of its last change
/// up to the frame, or 0 if there is no such change.
pub fn factors_at(script: &Script, frame: u32) -> [u8; 6]
    ensures { result ≡ factors_at script.now frame }
{
    [
        value_at(script, 0, frame),
        value_at(script, 1, frame),
        value_at(script, 2, frame),
        value_at(script, 3, frame),
        value_at(script, 4, frame),
        value_at(script, 5, frame),
    ]
}

fn value_at(script: &Script, factor: u8, frame: u32) -> u8
    ensures { result ≡ value_after script.now.changes factor frame 0 }
{
    let mut value = 0;
    for change in script.changes.items() {
        if change.factor.0 == factor && change.frame <= frame {
            value = change.value;
        }
    }
    value
}

/// Returns the first halt of a processor, or `None` if the script has none.
pub fn halt_of(script: &Script, proc: ProcId) -> Option<HaltAt>
    ensures { result ≡ halt_of script.now proc.0 }
{
    for halt in script.halts.items() {
        if halt.proc.0 == proc.0 {
            return Some(*halt);
        }
    }
    None
}

/// Returns the halt of a processor in a frame, or `None` if the script has none.
pub fn halt_in(script: &Script, proc: ProcId, frame: u32) -> Option<HaltAt>
    ensures { result ≡ halt_in script.now proc.0 frame }
{
    for halt in script.halts.items() {
        if halt.proc.0 == proc.0 && halt.frame == frame {
            return Some(*halt);
        }
    }
    None
}

/// Returns the frame in which a processor restarts, or `None` if it never does.
pub fn restart_of(script: &Script, proc: ProcId) -> Option<u32>
    ensures { result ≡ restart_of script.now proc.0 }
{
    for restart in script.restarts.items() {
        if restart.proc.0 == proc.0 {
            return Some(restart.frame);
        }
    }
    None
}

/// Returns `true` if a processor is up in a frame: it has no halt in an earlier frame, or it has restarted since the
/// latest such halt, in this frame or an earlier one.
pub fn up_at(script: &Script, proc: ProcId, frame: u32) -> bool
    ensures { result ≡ is_up script.now proc.0 frame }
{
    are_halts_over(script, proc, frame)
}

// Returns `true` if a processor has restarted, up to and including a frame, after each of its halts in earlier
// frames.
fn are_halts_over(script: &Script, proc: ProcId, frame: u32) -> bool
    ensures { result ≡ list_all (is_over script.now proc.0 frame) script.now.halts }
{
    for halt in script.halts.items() {
        if halt.proc.0 == proc.0
            && halt.frame < frame
            && !has_restarted(script, proc, halt.frame, frame)
        {
            return false;
        }
    }
    true
}

// Returns `true` if a processor restarts in a frame after `after` and up to `frame`.
fn has_restarted(script: &Script, proc: ProcId, after: u32, frame: u32) -> bool
    ensures { result ≡ restarted script.now proc.0 after frame }
{
    for restart in script.restarts.items() {
        if restart.proc.0 == proc.0 && after < restart.frame && restart.frame <= frame {
            return true;
        }
    }
    false
}
