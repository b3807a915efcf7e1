//! Demands on the choice table: the environments to which they apply, and the configurations that meet them.

ghost use Rattle.std.specs.Prelude.{◌≡◌};
ghost use Rattle.scram_types.specs.Searches.{all_below};
ghost use Rattle.choice_table.specs.Demands.{all_down, applies_from, applies_in, has_demand_in, is_empty_or_holds, is_met, is_met_by, is_placed, meets, meets_all, modes_allow};

use crate::choices::{are_up, have_wanted};
use scram_types::bits::{has_bit, is_in};
use scram_types::{AppId, ConfId, Demand, Env, Mode, Modes, Place, Spec};

/// Returns `true` if a demand applies to an environment: the environment has each value that the demand requires,
/// each processor of `up` is up, and each processor of `down` is down.
pub fn applies_in(demand: &Demand, env: &Env) -> bool
    ensures { result ≡ applies_in demand.now env.now }
{
    have_wanted(demand.wants.items(), env) && are_up(demand.up, env) && are_down(demand.down, env)
}

/// Returns `true` if a demand applies to a choice from configuration `c`.
pub fn applies_from(demand: &Demand, c: ConfId) -> bool
    ensures { result ≡ applies_from demand.now c }
{
    is_empty_or_holds(demand.from, c)
}

/// Returns `true` if configuration `c` meets a demand. The configuration must be one of `to`, unless `to` is empty.
/// Each application of `on` must be on in `c`. If the demand lists modes for the application, the application must be
/// in one of these modes. Each application of `off` must be off in `c`.
pub fn is_met(spec: &Spec, demand: &Demand, c: ConfId) -> bool
    ensures { result ≡ is_met spec.now demand.now c }
{
    is_empty_or_holds(demand.to, c) && is_met_by_each(spec, demand, c)
}

fn is_met_by_each(spec: &Spec, demand: &Demand, c: ConfId) -> bool
    ensures { result ≡ all_below (is_met_by spec.now demand.now c) 8 }
{
    for a in 0..8 {
        if !is_met_by(spec, demand, c, a) {
            return false;
        }
    }
    true
}

fn is_met_by(spec: &Spec, demand: &Demand, c: ConfId, a: u8) -> bool
    ensures { result ≡ is_met_by spec.now demand.now c a }
{
    let app = AppId(a);
    is_placed(demand.modes_on(app), spec.place_of(c, app))
        && (!has_bit(demand.off, a) || !spec.is_on(c, app))
}

/// Returns `true` if an application's place is one that a demand asks for. If `modes` is `None`, any place is, and the
/// application may be off. Otherwise the application must be on in a mode that `modes` allows.
pub fn is_placed(modes: Option<Modes>, place: Option<Place>) -> bool
    ensures { result ≡ is_placed modes place }
{
    match (modes, place) {
        (None, _) => true,
        (Some(_), None) => false,
        (Some(modes), Some(place)) => modes_allow(&modes, place.mode),
    }
}

/// Returns `true` if a mode is one of `modes`, or `modes` is empty.
pub fn modes_allow(modes: &Modes, mode: Mode) -> bool
    ensures { result ≡ modes_allow modes.now mode }
{
    modes.as_slice().is_empty() || modes.has(mode)
}

/// Returns `true` if configuration `c` meets each demand that applies both to an environment and to a choice from
/// `c`.
pub fn meets_all(spec: &Spec, c: ConfId, env: &Env) -> bool
    ensures { result ≡ meets_all spec.now c env.now }
{
    spec.demands
        .items()
        .iter()
        .all(|demand| meets(spec, c, env, demand))
}

fn meets(spec: &Spec, c: ConfId, env: &Env, demand: &Demand) -> bool
    ensures { result ≡ meets spec.now c env.now demand.now }
{
    !(applies_in(demand, env) && applies_from(demand, c)) || is_met(spec, demand, c)
}

/// Returns `true` if some demand applies to an environment.
pub fn has_demand_in(spec: &Spec, env: &Env) -> bool
    ensures { result ≡ has_demand_in spec.now env.now }
{
    spec.demands
        .items()
        .iter()
        .any(|demand| applies_in(demand, env))
}

// Returns `true` if each processor of a set is down.
fn are_down(set: u8, env: &Env) -> bool
    ensures { result ≡ all_down set env.now }
{
    set & env.up == 0
}

/// Returns `true` if a set of configurations is empty or contains configuration `c`.
pub fn is_empty_or_holds(set: u16, c: ConfId) -> bool
    ensures { result ≡ is_empty_or_holds set c }
{
    set == 0 || is_in(set, c.0)
}
