//! The refusals of bounds and windows that would be too long.

ghost use Rattle.std.specs.Prelude.{◌≡◌};
ghost use Rattle.coverage_check.specs.Timing.{asked_bounds};
ghost use Rattle.scram_types.specs.Lookups.{conf_id};
ghost use Rattle.spec_forms.specs.Bounds.{AreAskedBounds};
ghost use Rattle.fill_form.specs.Refusing.{long_refusal, long_refusal_of, wide_refusal};

use coverage_check::{Other, Shown, is_asked, least};
use scram_types::limits::{MAX_BOUND, MAX_WINDOW};
use scram_types::{ConfId, Spec};

/// Returns the refusal by condition A9 for the first required bound that would be too long, or `None` if there is no
/// such bound. Set `i` contains the configurations to which a bound from configuration `i` is required.
pub(crate) fn refuse_long(spec: &Spec, sets: &[u16; 12]) -> Option<Shown>
    requires { AreAskedBounds spec.now sets.now }
    ensures { result ≡ long_refusal spec.now }
{
    for i in 0..spec.count_confs() {
        let shown = refuse_long_of(spec, sets[usize::from(i)], i);
        if shown.is_some() {
            return shown;
        }
    }
    None
}

// Returns the refusal by condition A9 for the first required bound from configuration `i` that would be too long, or
// `None` if there is no such bound. `set` contains the configurations to which a bound from `i` is required.
fn refuse_long_of(spec: &Spec, set: u16, i: u8) -> Option<Shown>
    requires { set ≡ asked_bounds spec.now (conf_id i) }
    ensures { result ≡ long_refusal_of spec.now i }
{
    for j in 0..spec.count_confs() {
        let frames = least(spec, ConfId(i), ConfId(j));
        if is_asked(spec, set, ConfId(i), ConfId(j)) && MAX_BOUND < frames {
            return Some(Shown {
                condition: 9,
                conf: Some(ConfId(i)),
                env: None,
                other: Other::Least(ConfId(j), frames),
            });
        }
    }
    None
}

/// Returns the refusal by condition A10 if the window for a greatest bound of `greatest` frames would be above the
/// maximum length of a window, or `None` otherwise.
pub(crate) fn refuse_wide(greatest: u32) -> Option<Shown>
    ensures { result ≡ wide_refusal greatest }
{
    if MAX_WINDOW <= greatest {
        Some(Shown {
            condition: 10,
            conf: None,
            env: None,
            other: Other::Count(greatest),
        })
    } else {
        None
    }
}
