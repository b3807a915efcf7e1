//! Differences between environments.

ghost use Rattle.std.specs.Prelude.{◌≡◌, ◌+◌, ◌≤◌, ◌++◌, ◌||◌, [], length, codes, if◌then◌else◌};
ghost use Rattle.scram_types.specs.declared.limits.TheConstants.{MAX_LINE_BYTES};
ghost use Rattle.flight_facts.specs.Differences.{difference_text, have_changed, is_any, comma_joined, comma_joined_after, proc_change, procs_changed, value_change, values_changed};

use scram_types::{Env, Factor, Proc, Spec};
use trace_text::lines::Line;

/// Appends the difference between two environments, at most 348 bytes. Each factor whose value differs is written as
/// `FACTOR=VALUE` with the second value. Each processor whose state differs follows as `-PROC` if the processor is
/// down in the second environment, or as `+PROC` if the processor is up. The parts are joined by commas. If nothing
/// differs, `-` is written.
pub fn add_difference(line: &mut Line, spec: &Spec, before: &Env, after: &Env)
    requires { length line.old + 348 ≤ MAX_LINE_BYTES }
    ensures text { line.new ≡ line.old ++ difference_text spec.now before.now after.now }
    ensures short { length line.new ≤ length line.old + 348 }
{
    let values = add_values(line, spec, &before.factors, &after.factors);
    let any = add_procs(line, spec, values, before.up, after.up);
    if !any {
        line.text(b"-");
    }
}

/// Returns `true` if two environments differ.
#[tactic(auto, using(crate::proofs::Listing::any_both))]
pub fn have_changed(spec: &Spec, before: &Env, after: &Env) -> bool
    ensures { result ≡ have_changed spec.now before.now after.now }
{
    has_value_changed(spec, &before.factors, &after.factors)
        || has_proc_changed(spec, before.up, after.up)
}

fn has_value_changed(spec: &Spec, before: &[u8; 6], after: &[u8; 6]) -> bool
    ensures { result ≡ is_any (values_changed spec.now.factors 0 before.now after.now) }
{
    for (i, _factor) in spec.factors.items().iter().enumerate() {
        if before[i] != after[i] {
            return true;
        }
    }
    false
}

fn has_proc_changed(spec: &Spec, before: u8, after: u8) -> bool
    ensures { result ≡ is_any (procs_changed spec.now.procs before after) }
{
    let mut earlier = before;
    let mut later = after;
    for _proc in spec.procs.items() {
        if earlier % 2 != later % 2 {
            return true;
        }
        earlier /= 2;
        later /= 2;
    }
    false
}

// Appends the factors whose values differ. Returns `true` if there is such a factor.
fn add_values(line: &mut Line, spec: &Spec, before: &[u8; 6], after: &[u8; 6]) -> bool
    requires { length line.old + 204 ≤ MAX_LINE_BYTES }
    ensures text { line.new ≡ line.old ++ comma_joined (values_changed spec.now.factors 0 before.now after.now) }
    ensures any { result ≡ is_any (values_changed spec.now.factors 0 before.now after.now) }
    ensures short { length line.new ≤ length line.old + 204 }
{
    let mut any = false;
    for (i, factor) in spec.factors.items().iter().enumerate() {
        if before[i] != after[i] {
            add_value(line, any, factor, after[i]);
            any = true;
        }
    }
    any
}

// Appends the processors whose states differ, after the factors. `values` is `true` if a factor differs. Returns
// `true` if a factor or a processor differs.
fn add_procs(line: &mut Line, spec: &Spec, values: bool, before: u8, after: u8) -> bool
    requires { length line.old + 144 ≤ MAX_LINE_BYTES }
    ensures text { line.new ≡ line.old ++ comma_joined_after values (procs_changed spec.now.procs before after) }
    ensures any { result ≡ (values || is_any (procs_changed spec.now.procs before after)) }
    ensures short { length line.new ≤ length line.old + 144 }
{
    let mut any = values;
    let mut earlier = before;
    let mut later = after;
    for proc in spec.procs.items() {
        if earlier % 2 != later % 2 {
            add_proc(line, any, proc, later);
            any = true;
        }
        earlier /= 2;
        later /= 2;
    }
    any
}

fn add_value(line: &mut Line, is_further: bool, factor: &Factor, value: u8)
    requires { length line.old + 34 ≤ MAX_LINE_BYTES }
    ensures text { line.new ≡ line.old ++ (if is_further then codes "," else []) ++ value_change factor.now value }
    ensures short { length line.new ≤ length line.old + 34 }
{
    if is_further {
        line.text(b",");
    }
    line.text(factor.name.as_str().as_bytes());
    line.text(b"=");
    line.text(factor.value_name(value).as_bytes());
}

// Appends a processor whose state differs. If `is_further` is `true`, another part precedes the processor, and a
// comma is appended first. The lowest bit of `later` is 1 if the processor is up in the second environment.
fn add_proc(line: &mut Line, is_further: bool, proc: &Proc, later: u8)
    requires { length line.old + 18 ≤ MAX_LINE_BYTES }
    ensures text { line.new ≡ line.old ++ (if is_further then codes "," else []) ++ proc_change proc.now later }
    ensures short { length line.new ≤ length line.old + 18 }
{
    if is_further {
        line.text(b",");
    }
    line.text(if later % 2 == 1 { b"+" } else { b"-" });
    line.text(proc.name.as_str().as_bytes());
}
