//! The modes, applications and processors that are idle, since no configuration uses them.

ghost use Rattle.std.specs.Prelude.{◌≡◌};
ghost use Rattle.std.specs.List.{list_any};
ghost use Rattle.spec_forms.specs.choice_forms.Choosing.{is_placed_on};
ghost use Rattle.idle_parts.specs.Places.{is_app_idle, is_app_placed, is_in_mode, is_mode_idle, is_mode_placed, is_proc_idle, is_proc_used};

use scram_types::{AppId, Mode, Place, ProcId, Spec};
use spec_forms::choice_forms::is_placed_on;

// Returns `true` if no configuration places application `app` in mode `mode`.
pub(crate) fn is_mode_idle(spec: &Spec, app: AppId, mode: Mode) -> bool
    ensures { result ≡ is_mode_idle spec.now app.0 mode.0 }
{
    !is_mode_placed(spec, app, mode)
}

fn is_mode_placed(spec: &Spec, app: AppId, mode: Mode) -> bool
    ensures { result ≡ is_mode_placed spec.now app.0 mode.0 }
{
    spec.confs
        .items()
        .iter()
        .any(|conf| is_in_mode(conf.place(app), mode))
}

fn is_in_mode(place: Option<Place>, mode: Mode) -> bool
    ensures { result ≡ is_in_mode mode.0 place }
{
    match place {
        Some(place) => place.mode.0 == mode.0,
        None => false,
    }
}

// Returns `true` if no configuration places application `app`.
pub(crate) fn is_app_idle(spec: &Spec, app: AppId) -> bool
    ensures { result ≡ is_app_idle spec.now app.0 }
{
    !is_app_placed(spec, app)
}

// Returns `true` if some configuration places application `app`.
pub(crate) fn is_app_placed(spec: &Spec, app: AppId) -> bool
    ensures { result ≡ is_app_placed spec.now app.0 }
{
    spec.confs
        .items()
        .iter()
        .any(|conf| conf.place(app).is_some())
}

// Returns `true` if no configuration places an application on processor `proc`.
pub(crate) fn is_proc_idle(spec: &Spec, proc: ProcId) -> bool
    ensures { result ≡ is_proc_idle spec.now proc.0 }
{
    !is_proc_used(spec, proc)
}

fn is_proc_used(spec: &Spec, proc: ProcId) -> bool
    ensures { result ≡ is_proc_used spec.now proc.0 }
{
    spec.confs
        .items()
        .iter()
        .any(|conf| has_place_on(&conf.places, proc))
}

fn has_place_on(places: &[Option<Place>; 8], proc: ProcId) -> bool
    ensures { result ≡ list_any (is_placed_on proc.0) places.now }
{
    places.iter().any(|place| is_placed_on(place, proc.0))
}
