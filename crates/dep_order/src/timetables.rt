//! The timetables of configurations: when applications halt, prepare and initialise.

ghost use Rattle.std.specs.Prelude.{◌≡◌, ◌≤◌, length};
ghost use Rattle.scram_types.specs.Specification.{IsSpec};
ghost use Rattle.scram_types.specs.Eights.{eight};
ghost use Rattle.dep_order.specs.Chains.{offset};
ghost use Rattle.dep_order.specs.Timetables.{AtMost, IsTableOf, goes_before, is_named, needs, offset_from, offset_where_on, phase_length, phase_time, timed_chart, timetable};

use scram_types::{AppId, ConfId, Spec};

/// The timetable of a configuration, in frames. `halt` and `init` hold the offset of each application from the
/// beginning of the halt and of the init phase, or 0 if the application is off. `h`, `p` and `i` are the lengths of
/// the halt, prepare and init phases, or 0 if no application is on.
#[derive(Clone, Copy)]
pub struct Times {
    pub halt: [u16; 8],
    pub init: [u16; 8],
    pub h: u16,
    pub p: u16,
    pub i: u16,
}

/// A phase of a reconfiguration. Dependents halt before the applications that they need, and initialise after them.
/// All applications prepare at once.
#[derive(Clone, Copy)]
pub enum Phase {
    Halt,
    Prepare,
    Init,
}

/// Returns the timetable of configuration `c`. An application's halt offset is the maximum sum of halt times along
/// the chains of its dependents that are on. Its init offset is the maximum sum of init times along the chains of
/// applications that it needs and that are on.
pub fn timetable(spec: &Spec, c: ConfId) -> Times
    ensures { result ≡ timetable spec.now c }
{
    let count = count_apps(spec);
    let halt_times = times_in(spec, c, Phase::Halt);
    let prepare_times = times_in(spec, c, Phase::Prepare);
    let init_times = times_in(spec, c, Phase::Init);
    let halt_offsets = offsets_in(spec, Phase::Halt, &halt_times);
    let init_offsets = offsets_in(spec, Phase::Init, &init_times);
    Times {
        halt: keep_where_on(&halt_times, &halt_offsets),
        init: keep_where_on(&init_times, &init_offsets),
        h: length_of_phase(&halt_times, &halt_offsets, count),
        p: length_of_phase(&prepare_times, &[0; 8], count),
        i: length_of_phase(&init_times, &init_offsets, count),
    }
}

// Returns the offset of each application, and 0 for each number without an application. Each iteration of the loop
// allows for chains with one more application.
fn offsets_in(spec: &Spec, phase: Phase, times: &[u8; 8]) -> [u16; 8]
    requires { AtMost 16 (length spec.now.apps) times.now }
    ensures offsets { IsTableOf (offset (timed_chart spec.now phase times.now)) (length spec.now.apps) result }
    ensures most { AtMost 128 (length spec.now.apps) result }
{
    let mut offsets = [0; 8];
    for _links in 0..8usize {
        offsets = offsets_after(spec, phase, times, &offsets);
    }
    offsets
}

fn offsets_after(spec: &Spec, phase: Phase, times: &[u8; 8], before: &[u16; 8]) -> [u16; 8]
    requires times { AtMost 16 (length spec.now.apps) times.now }
    requires before { AtMost 112 (length spec.now.apps) before.now }
    ensures { IsTableOf (offset_from spec.now phase times.now before.now) (length spec.now.apps) result }
{
    let mut offsets = [0; 8];
    for a in 0..count_apps(spec) {
        offsets[a] = offset_after(spec, phase, times, before, a);
    }
    offsets
}

// Returns the number of frames after which all applications that go before application `a` have ended the phase,
// given the offsets of these applications. The number is 0 if no application goes before `a`.
fn offset_after(spec: &Spec, phase: Phase, times: &[u8; 8], offsets: &[u16; 8], a: usize) -> u16
    requires times { AtMost 16 (length spec.now.apps) times.now }
    requires offsets { AtMost 112 (length spec.now.apps) offsets.now }
    ensures { result ≡ offset_from spec.now phase times.now offsets.now a }
{
    let mut last = 0;
    for b in 0..count_apps(spec) {
        if times[b] > 0 && precedes(spec, phase, b, a) {
            last = last.max(u16::from(times[b]) + offsets[b]);
        }
    }
    last
}

// Returns `true` if application `b` goes before application `a` in a phase.
fn precedes(spec: &Spec, phase: Phase, b: usize, a: usize) -> bool
    ensures { result ≡ goes_before spec.now phase b a }
{
    match phase {
        Phase::Halt => depends(spec, b, a),
        Phase::Prepare => false,
        Phase::Init => depends(spec, a, b),
    }
}

// Returns `true` if application `b` needs application `a`.
fn depends(spec: &Spec, b: usize, a: usize) -> bool
    ensures { result ≡ needs spec.now b a }
{
    match spec.apps.items().get(b) {
        Some(app) => is_named(app.needs.items(), a),
        None => false,
    }
}

/// Returns `true` if application `a` is one of `needs`.
pub fn is_named(needs: &[AppId], a: usize) -> bool
    ensures { result ≡ is_named needs.now a }
{
    needs.iter().any(|needed| usize::from(needed.0) == a)
}

fn length_of_phase(times: &[u8; 8], offsets: &[u16; 8], count: usize) -> u16
    requires count { count ≤ 8 }
    requires times { AtMost 16 count times.now }
    requires offsets { AtMost 128 count offsets.now }
    ensures { result ≡ phase_length times.now offsets.now count }
{
    let mut length = 0;
    for a in 0..count {
        if times[a] > 0 {
            length = length.max(offsets[a] + u16::from(times[a]));
        }
    }
    length
}

fn keep_where_on(times: &[u8; 8], offsets: &[u16; 8]) -> [u16; 8]
    ensures { result ≡ eight (offset_where_on times.now offsets.now) }
{
    let mut kept = [0; 8];
    for a in 0..8 {
        kept[a] = if times[a] > 0 { offsets[a] } else { 0 };
    }
    kept
}

// Returns the number of frames that each application takes for the phase, or 0 if it is off.
fn times_in(spec: &Spec, c: ConfId, phase: Phase) -> [u8; 8]
    ensures { IsTableOf (phase_time spec.now c phase) 8 result }
{
    let mut times = [0; 8];
    for a in 0..8u8 {
        times[usize::from(a)] = time_in(spec, c, phase, a);
    }
    times
}

fn time_in(spec: &Spec, c: ConfId, phase: Phase, a: u8) -> u8
    ensures { result ≡ phase_time spec.now c phase a }
{
    match spec.mode_of(c, AppId(a)) {
        Some(listed) => match phase {
            Phase::Halt => listed.halt,
            Phase::Prepare => listed.prepare,
            Phase::Init => listed.init,
        },
        None => 0,
    }
}

fn count_apps(spec: &Spec) -> usize
    ensures value { result ≡ length spec.now.apps }
    ensures most { result ≤ 8 }
    ensures known { IsSpec spec.now }
{
    spec.apps.items().len()
}
