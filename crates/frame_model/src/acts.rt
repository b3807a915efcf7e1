//! The configuration that the acts of a row run.

ghost use Rattle.std.specs.Prelude.{◌≡◌, ◌<◌};
ghost use Rattle.frame_model.specs.Runs.{act_at, is_off, is_ran_at, is_run_by, running, runs};

use scram_types::{Act, AppId, ConfId, Place, Spec};

/// Returns `true` if the acts of a row run configuration `c`: each application that is on in `c` ran in its mode and
/// on its processor there, and each other application was off.
pub fn runs(spec: &Spec, acts: &[Act; 8], c: ConfId) -> bool
    ensures { result ≡ runs spec.now acts.now c }
{
    for a in 0..spec.apps.items().len() as u8 {
        if !is_run(spec.place_of(c, AppId(a)), act_of(acts, a)) {
            return false;
        }
    }
    true
}

/// Returns the configuration of the smallest number that the acts of a row run, or `None` if they run no
/// configuration.
pub fn running(spec: &Spec, acts: &[Act; 8]) -> Option<ConfId>
    ensures { result ≡ running spec.now acts.now }
{
    for c in 0..spec.confs.items().len() as u8 {
        if runs(spec, acts, ConfId(c)) {
            return Some(ConfId(c));
        }
    }
    None
}

fn act_of(acts: &[Act; 8], a: u8) -> Act
    ensures { result ≡ act_at acts.now a }
{
    match acts.get(usize::from(a)) {
        Some(act) => *act,
        None => Act::Off,
    }
}

fn is_run(place: Option<Place>, act: Act) -> bool
    ensures { result ≡ is_run_by place act }
{
    match place {
        Some(place) => is_ran(place, act),
        None => is_off(act),
    }
}

fn is_ran(place: Place, act: Act) -> bool
    ensures { result ≡ is_ran_at place act }
{
    match act {
        Act::Ran(mode, proc) => mode.0 == place.mode.0 && proc.0 == place.proc.0,
        Act::Halting(_, _, _) => false,
        Act::Held => false,
        Act::Preparing(_, _, _) => false,
        Act::Initialising(_, _, _) => false,
        Act::Off => false,
        Act::Lost => false,
    }
}

fn is_off(act: Act) -> bool
    ensures { result ≡ is_off act }
{
    match act {
        Act::Ran(_, _) => false,
        Act::Halting(_, _, _) => false,
        Act::Held => false,
        Act::Preparing(_, _, _) => false,
        Act::Initialising(_, _, _) => false,
        Act::Off => true,
        Act::Lost => false,
    }
}
