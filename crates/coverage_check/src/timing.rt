//! The conditions A9 and A10 on the durations of reconfigurations.

ghost use Rattle.std.specs.Prelude.{◌≡◌, ◌<◌, ◌≤◌, ◌+◌, IfOk, length};
ghost use Rattle.scram_types.specs.Lookups.{conf_id};
ghost use Rattle.scram_types.specs.Specification.{IsSpec};
ghost use Rattle.dep_order.specs.Timetables.{halting_time, initialising_time, preparing_time};
ghost use Rattle.cube_cover.specs.Covers.{IsCover};
ghost use Rattle.coverage_check.specs.TargetSets.{HasCovers};
ghost use Rattle.coverage_check.specs.Timing.{asked_bounds, bound_refusal, bound_refusal_of, can_return, further, greatest_bound, is_bound_asked, is_bounded, least, may_end_in, slowest, window_refusal};

use crate::shown::{Other, Shown};
use cube_cover::{Cover, cover};
use dep_order::timetable;
use scram_types::bits::is_in;
use scram_types::{Bound, ConfId, NoMemory, Policy, Spec};
use std::alloc::Global;

/// Returns the minimum bound, in frames, that suffices for a reconfiguration from configuration `i` to `j`. The bound
/// counts one frame, the frames that `i` takes to halt, and the frames that `j` takes to prepare and to initialise.
/// For each further change of the environment, the bound also counts the greatest number of frames from the choice of
/// one target to the choice of the next.
pub fn least(spec: &Spec, i: ConfId, j: ConfId) -> u32
    ensures { result ≡ least spec.now i j }
{
    let target = timetable(spec, j);
    let before = 1 + u32::from(timetable(spec, i).h) + further(spec) * slowest(spec);
    before + u32::from(target.p) + u32::from(target.i)
}

/// Returns the configurations, as bits, to which a specification must give a bound from configuration `i`. They are
/// the possible targets of `i`, except that `i` itself is included only if a reconfiguration may return to the
/// configuration in which it began.
///
/// # Errors
///
/// Returns an error if memory runs out.
pub fn asked_bounds(alloc: Global, spec: &Spec, i: ConfId) -> Result<u16, NoMemory>
    requires { i.0 < length spec.now.confs }
    ensures { IfOk result (λ asked. asked ≡ asked_bounds spec.now i) }
{
    let count = spec.count_confs();
    let cover = cover(alloc, spec, i)?;
    Ok(find_asked(spec, &cover, i.0, count))
}

/// Returns `true` if a specification must give a bound from configuration `from` to configuration `to`. `set` must
/// contain, as bits, the configurations to which it must give a bound from `from`.
pub fn is_asked(spec: &Spec, set: u16, from: ConfId, to: ConfId) -> bool
    requires set { set ≡ asked_bounds spec.now from }
    requires to { to.0 < length spec.now.confs }
    ensures { result ≡ is_bound_asked spec.now from to.0 }
{
    is_in(set, to.0)
}

// Returns the configurations, as bits, to which a bound from `i` is required, given the cover of `i`. `count` is the
// number of configurations.
fn find_asked(spec: &Spec, cover: &Cover, i: u8, count: u8) -> u16
    requires known { IsSpec spec.now }
    requires cover { IsCover spec.now (conf_id i) cover.now }
    requires all { count ≡ length spec.now.confs }
    requires few { count ≤ 12 }
    ensures { result ≡ asked_bounds spec.now (conf_id i) }
{
    let mut bits = 0;
    for j in 0..count {
        if is_bound_asked(spec, cover, i, j) {
            bits += 1 << j;
        }
    }
    bits
}

// Returns the maximum number of changes of the environment, after the first one, that a reconfiguration may see.
fn further(spec: &Spec) -> u32
    ensures value { result ≡ further spec.now.policy spec.now.changes }
    ensures most { result ≤ 256 }
{
    match spec.policy {
        Policy::Retarget => u32::from(spec.changes),
        Policy::Settle => u32::from(spec.changes) + 1,
    }
}

// Returns the greatest number of frames from the choice of one target to the choice of the next.
fn slowest(spec: &Spec) -> u32
    ensures value { result ≡ slowest spec.now }
    ensures most { result ≤ 196606 }
{
    let mut slowest = 0;
    for k in 0..spec.count_confs() {
        slowest = way(spec, ConfId(k)).max(slowest);
    }
    slowest
}

fn way(spec: &Spec, k: ConfId) -> u32
    ensures value { result ≡ preparing_time spec.now k + initialising_time spec.now k + 1 + halting_time spec.now k }
    ensures most { result ≤ 196606 }
{
    let times = timetable(spec, k);
    u32::from(times.p) + u32::from(times.i) + 1 + u32::from(times.h)
}

// Returns the refusal for the first pair of configurations whose bound is required but too small or missing (A9), or
// `None` if each required bound is given and suffices.
pub(crate) fn refuse_bound(spec: &Spec, covers: &[Cover; 12]) -> Option<Shown>
    requires { HasCovers spec.now covers.now }
    ensures { result ≡ bound_refusal spec.now }
{
    for i in 0..spec.count_confs() {
        let shown = refuse_bound_of(spec, &covers[usize::from(i)], i);
        if shown.is_some() {
            return shown;
        }
    }
    None
}

fn refuse_bound_of(spec: &Spec, cover: &Cover, i: u8) -> Option<Shown>
    requires { IsCover spec.now (conf_id i) cover.now }
    ensures { result ≡ bound_refusal_of spec.now i }
{
    for j in 0..spec.count_confs() {
        if is_bound_asked(spec, cover, i, j) && !is_bounded(spec, ConfId(i), ConfId(j)) {
            let frames = least(spec, ConfId(i), ConfId(j));
            return Some(Shown::at(9, i, Other::Least(ConfId(j), frames)));
        }
    }
    None
}

// Returns `true` if a bound from `i` to `j` is required, given the cover of `i`.
fn is_bound_asked(spec: &Spec, cover: &Cover, i: u8, j: u8) -> bool
    requires known { IsSpec spec.now }
    requires cover { IsCover spec.now (conf_id i) cover.now }
    requires inside { j < length spec.now.confs }
    ensures { result ≡ is_bound_asked spec.now (conf_id i) j }
{
    is_in(cover.targets, j) && may_end_in(spec, ConfId(i), ConfId(j))
}

// Returns `true` if a reconfiguration from `i` may end in `j`. It may end in `i` itself only if `can_return` returns
// `true`.
fn may_end_in(spec: &Spec, i: ConfId, j: ConfId) -> bool
    ensures { result ≡ may_end_in spec.now i j }
{
    i.0 != j.0 || can_return(spec)
}

fn can_return(spec: &Spec) -> bool
    ensures { result ≡ can_return spec.now }
{
    0 < further(spec)
}

/// Returns `true` if a bound from `i` to `j` is given and suffices.
pub fn is_bounded(spec: &Spec, i: ConfId, j: ConfId) -> bool
    ensures { result ≡ is_bounded spec.now i j }
{
    match spec.bound(i, j) {
        Some(frames) => least(spec, i, j) <= frames,
        None => false,
    }
}

// Returns the refusal if the window is not longer than the greatest bound (A10), or `None` if it is longer.
pub(crate) fn refuse_window(spec: &Spec) -> Option<Shown>
    ensures { result ≡ window_refusal spec.now }
{
    let greatest = greatest_bound(spec);
    if u64::from(spec.window) < u64::from(greatest) + 1 {
        Some(Shown::nowhere(10, Other::Count(greatest)))
    } else {
        None
    }
}

/// Returns the greatest bound that is given, in frames, or 0 if none is given.
pub fn greatest_bound(spec: &Spec) -> u32
    ensures { result ≡ greatest_bound spec.now.bounds }
{
    greatest_of(spec.bounds.items())
}

/// Returns the greatest of some bounds, in frames, or 0 if there is none.
pub fn greatest_of(bounds: &[Bound]) -> u32
    ensures { result ≡ greatest_bound bounds.now }
{
    let mut greatest = 0;
    for bound in bounds {
        greatest = bound.frames.max(greatest);
    }
    greatest
}
