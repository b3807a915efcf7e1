//! The lines of scripts, made without allocating.

ghost use Rattle.std.specs.Prelude.{◌≡◌, ◌+◌, ◌*◌, ◌≤◌, ◌++◌, codes, decimal, false, filter_map, length, map, nat_lt};
ghost use Rattle.serde_json.specs.Written.{comma_if};
ghost use Rattle.scram_types.specs.declared.limits.TheConstants.{MAX_LINE_BYTES};
ghost use Rattle.fault_script.specs.Texts.{new_value_name, script_text};
ghost use Rattle.fault_family.specs.Scripts.{as_script, change_of_fault, halt_of_fault, restart_of_fault};
ghost use Rattle.faults_form.specs.Lines.{spelled_change, spelled_halt, listed_text, spelled_restart, spelled_script, version_text};

use fault_family::faults::Fault;
use fault_family::scripts::{FaultScript, change_of_fault, halt_of_fault, restart_of_fault};
use fault_script::new_value_name;
use scram_types::{Change, HaltAt, RestartAt, Spec};
use trace_text::lines::Line;

/// Returns the line of a script: its canonical text and a line feed.
pub fn make_script_line(spec: &Spec, script: &FaultScript<'_>) -> Line
    requires { length script.now.faults.now ≤ 3 }
    ensures { result ≡ script_text spec.now (as_script script.now) ++ codes "\n" }
{
    // A use of a field proves that the specification satisfies its invariant.
    let _ = &spec.procs;
    spelled_script(spec, script)
}

fn spelled_script(spec: &Spec, script: &FaultScript<'_>) -> Line
    requires { length script.now.faults.now ≤ 3 }
    ensures { result ≡ spelled_script spec.now (as_script script.now) ++ codes "\n" }
{
    let mut line = open_line();
    add_changes(&mut line, spec, script.faults);
    add_frames(&mut line, script.frames);
    add_halts(&mut line, spec, script.faults);
    add_version(&mut line, spec, script.faults);
    line
}

fn open_line() -> Line
    ensures text { result ≡ codes "{\"changes\":[" }
    ensures short { length result ≤ 12 }
{
    let mut line = Line::new();
    line.text(b"{\"changes\":[");
    line
}

fn add_frames(line: &mut Line, frames: u32)
    requires { length line.old + 20 ≤ MAX_LINE_BYTES }
    ensures text { line.new ≡ line.old ++ codes ",\"frames\":" ++ decimal frames }
    ensures short { length line.new ≤ length line.old + 20 }
{
    line.text(b",\"frames\":");
    line.number(frames);
}

fn add_changes(line: &mut Line, spec: &Spec, faults: &[Fault])
    requires { length line.old + 2 + 77 * length (filter_map change_of_fault faults.now) ≤ MAX_LINE_BYTES }
    ensures text { line.new ≡ line.old ++ listed_text false (map (spelled_change spec.now) (filter_map change_of_fault faults.now)) }
    ensures short { length line.new ≤ length line.old + 2 + 77 * length (filter_map change_of_fault faults.now) }
{
    let mut later = false;
    for fault in faults {
        if let Some(change) = change_of_fault(fault) {
            add_change(line, spec, &change, later);
            later = true;
        }
    }
    line.text(b"]");
}

fn add_change(line: &mut Line, spec: &Spec, change: &Change, later: bool)
    requires { length line.old + 77 ≤ MAX_LINE_BYTES }
    ensures text { line.new ≡ line.old ++ comma_if later ++ spelled_change spec.now change.now }
    ensures short { length line.new ≤ length line.old + 77 }
{
    add_comma_if(line, later);
    add_change_text(line, spec, change);
}

#[tactic(auto, unfolding(crate::specs::Lines::spelled_change))]
fn add_change_text(line: &mut Line, spec: &Spec, change: &Change)
    requires { length line.old + 76 ≤ MAX_LINE_BYTES }
    ensures text { line.new ≡ line.old ++ spelled_change spec.now change.now }
    ensures short { length line.new ≤ length line.old + 76 }
{
    line.text(b"{\"factor\":\"");
    line.text(spec.factor_name(change.factor).as_bytes());
    line.text(b"\",\"frame\":");
    line.number(change.frame);
    line.text(b",\"value\":\"");
    line.text(new_value_name(spec, change).as_bytes());
    line.text(b"\"}");
}

fn add_comma_if(line: &mut Line, later: bool)
    requires { length line.old + 1 ≤ MAX_LINE_BYTES }
    ensures text { line.new ≡ line.old ++ comma_if later }
    ensures short { length line.new ≤ length line.old + 1 }
{
    if later {
        line.text(b",");
    }
}

fn add_halts(line: &mut Line, spec: &Spec, faults: &[Fault])
    requires { length line.old + 12 + 77 * length (filter_map halt_of_fault faults.now) ≤ MAX_LINE_BYTES }
    ensures text { line.new ≡ line.old ++ codes ",\"halts\":[" ++ listed_text false (map (spelled_halt spec.now) (filter_map halt_of_fault faults.now)) }
    ensures short { length line.new ≤ length line.old + 12 + 77 * length (filter_map halt_of_fault faults.now) }
{
    line.text(b",\"halts\":[");
    let mut later = false;
    for fault in faults {
        if let Some(halt) = halt_of_fault(fault) {
            add_halt(line, spec, &halt, later);
            later = true;
        }
    }
    line.text(b"]");
}

fn add_halt(line: &mut Line, spec: &Spec, halt: &HaltAt, later: bool)
    requires { length line.old + 77 ≤ MAX_LINE_BYTES }
    ensures text { line.new ≡ line.old ++ comma_if later ++ spelled_halt spec.now halt.now }
    ensures short { length line.new ≤ length line.old + 77 }
{
    add_comma_if(line, later);
    add_halt_text(line, spec, halt);
}

#[tactic(auto, unfolding(crate::specs::Lines::spelled_halt))]
fn add_halt_text(line: &mut Line, spec: &Spec, halt: &HaltAt)
    requires { length line.old + 76 ≤ MAX_LINE_BYTES }
    ensures text { line.new ≡ line.old ++ spelled_halt spec.now halt.now }
    ensures short { length line.new ≤ length line.old + 76 }
{
    line.text(b"{\"frame\":");
    line.number(halt.frame);
    line.text(b",\"processor\":\"");
    line.text(spec.proc_name(halt.proc).as_bytes());
    add_step(line, halt.step);
}

fn add_step(line: &mut Line, step: u8)
    requires { length line.old + 20 ≤ MAX_LINE_BYTES }
    ensures text { line.new ≡ line.old ++ codes "\",\"step\":" ++ decimal step ++ codes "}" }
    ensures short { length line.new ≤ length line.old + 20 }
{
    line.text(b"\",\"step\":");
    line.number(u32::from(step));
    line.text(b"}");
}

fn add_version(line: &mut Line, spec: &Spec, faults: &[Fault])
    requires { length line.old + 28 + 77 * length (filter_map restart_of_fault faults.now) ≤ MAX_LINE_BYTES }
    ensures text { line.new ≡ line.old ++ version_text spec.now (filter_map restart_of_fault faults.now) ++ codes "\n" }
    ensures short { length line.new ≤ length line.old + 28 + 77 * length (filter_map restart_of_fault faults.now) }
{
    if restarts(faults) {
        add_restarts(line, spec, faults);
        line.text(b",\"scram\":2}\n");
    } else {
        line.text(b",\"scram\":1}\n");
    }
}

// Returns `true` if one of the faults is a restart.
fn restarts(faults: &[Fault]) -> bool
    ensures { result ≡ nat_lt 0 (length (filter_map restart_of_fault faults.now)) }
{
    for fault in faults {
        if restart_of_fault(fault).is_some() {
            return true;
        }
    }
    false
}

fn add_restarts(line: &mut Line, spec: &Spec, faults: &[Fault])
    requires { length line.old + 15 + 77 * length (filter_map restart_of_fault faults.now) ≤ MAX_LINE_BYTES }
    ensures text { line.new ≡ line.old ++ codes ",\"restarts\":["
        ++ listed_text false (map (spelled_restart spec.now) (filter_map restart_of_fault faults.now)) }
    ensures short { length line.new ≤ length line.old + 15 + 77 * length (filter_map restart_of_fault faults.now) }
{
    line.text(b",\"restarts\":[");
    let mut later = false;
    for fault in faults {
        if let Some(restart) = restart_of_fault(fault) {
            add_restart(line, spec, &restart, later);
            later = true;
        }
    }
    line.text(b"]");
}

fn add_restart(line: &mut Line, spec: &Spec, restart: &RestartAt, later: bool)
    requires { length line.old + 77 ≤ MAX_LINE_BYTES }
    ensures text { line.new ≡ line.old ++ comma_if later ++ spelled_restart spec.now restart.now }
    ensures short { length line.new ≤ length line.old + 77 }
{
    add_comma_if(line, later);
    add_restart_text(line, spec, restart);
}

#[tactic(auto, unfolding(crate::specs::Lines::spelled_restart))]
fn add_restart_text(line: &mut Line, spec: &Spec, restart: &RestartAt)
    requires { length line.old + 76 ≤ MAX_LINE_BYTES }
    ensures text { line.new ≡ line.old ++ spelled_restart spec.now restart.now }
    ensures short { length line.new ≤ length line.old + 76 }
{
    line.text(b"{\"frame\":");
    line.number(restart.frame);
    line.text(b",\"processor\":\"");
    line.text(spec.proc_name(restart.proc).as_bytes());
    line.text(b"\"}");
}
