//! The factors and demands that are idle, since they have no effect.

ghost use Rattle.std.specs.Prelude.{◌≡◌, ◌<◌, ◌&&◌, length, not};
ghost use Rattle.choice_table.specs.Demands.{applies_in};
ghost use Rattle.choice_table.specs.Environments.{in_scope};
ghost use Rattle.scram_types.specs.Bits.{bits_below, has_bit};
ghost use Rattle.scram_types.specs.Searches.{any_below};
ghost use Rattle.scram_types.specs.Specification.{IsDemand};
ghost use Rattle.idle_parts.specs.DemandedEnvs.{demanded_env, demanded_value};
ghost use Rattle.idle_parts.specs.Wants.{is_demand_idle, is_factor_idle, is_factor_wanted, is_placed_monitor, is_supply_read, any_wants_factor};

use crate::places::is_app_placed;
use choice_table::{applies_in, in_scope};
use kind_table::kinds::power_monitor;
use scram_types::bits::has_bit;
use scram_types::{AppId, Choice, Demand, Env, FactorId, Spec, Want};

/// The number of factors that supply power. They are the first factors, and power monitors read them.
pub const POWER_FACTORS: u8 = 2;

// Returns `true` if no rule requires a value of factor `factor`, and the factor is not a power supply that a placed
// application reads. Values that demands require are ignored.
pub(crate) fn is_factor_idle(spec: &Spec, factor: FactorId) -> bool
    ensures { result ≡ is_factor_idle spec.now factor.0 }
{
    !is_factor_wanted(spec, factor) && !is_supply_read(spec, factor)
}

fn is_factor_wanted(spec: &Spec, factor: FactorId) -> bool
    ensures { result ≡ is_factor_wanted spec.now factor.0 }
{
    spec.rules
        .items()
        .iter()
        .any(|rule| any_wants_factor(rule, factor))
}

fn any_wants_factor(rule: &Choice, factor: FactorId) -> bool
    ensures { result ≡ any_wants_factor factor.0 rule.now }
{
    rule.wants
        .items()
        .iter()
        .any(|want| want.factor.0 == factor.0)
}

fn is_supply_read(spec: &Spec, factor: FactorId) -> bool
    ensures { result ≡ is_supply_read spec.now factor.0 }
{
    factor.0 < POWER_FACTORS && has_placed_monitor(spec)
}

// Returns `true` if some configuration places a power monitor.
fn has_placed_monitor(spec: &Spec) -> bool
    ensures { result ≡ any_below (is_placed_monitor spec.now) (length spec.now.apps) }
{
    for a in 0..spec.count_apps() {
        if is_placed_monitor(spec, AppId(a)) {
            return true;
        }
    }
    false
}

fn is_placed_monitor(spec: &Spec, app: AppId) -> bool
    ensures { result ≡ is_placed_monitor spec.now app.0 }
{
    spec.kind_of_app(app).0 == power_monitor::KIND && is_app_placed(spec, app)
}

// Returns `true` if a demand applies to no environment in scope.
pub(crate) fn is_demand_idle(spec: &Spec, demand: &Demand) -> bool
    requires { IsDemand spec.now.procs spec.now.apps spec.now.confs spec.now.factors demand.now }
    ensures { result ≡ is_demand_idle spec.now demand.now }
{
    // From the use of a field, the prover knows that the specification satisfies its invariant.
    let _ = &spec.procs;
    let env = make_spoken(spec, demand);
    !speaks_in_scope(spec, demand, &env)
}

// Returns `true` if an environment is in scope and a demand applies to the environment.
fn speaks_in_scope(spec: &Spec, demand: &Demand, env: &Env) -> bool
    ensures { result ≡ (in_scope spec.now env.now && applies_in demand.now env.now) }
{
    in_scope(spec, env) && applies_in(demand, env)
}

// Returns the environment in which each factor has the value that a demand requires, or its first value if the demand
// requires none. Each processor is up unless the demand requires it to be down.
fn make_spoken(spec: &Spec, demand: &Demand) -> Env
    ensures { result ≡ demanded_env spec.now demand.now }
{
    let wants = demand.wants.items();
    Env {
        up: others_up(spec, demand.down),
        factors: [
            demanded_value(wants, 0),
            demanded_value(wants, 1),
            demanded_value(wants, 2),
            demanded_value(wants, 3),
            demanded_value(wants, 4),
            demanded_value(wants, 5),
        ],
    }
}

// Returns the set of the processors that are not in the set `down`.
fn others_up(spec: &Spec, down: u8) -> u8
    ensures { result ≡ bits_below (λ p. not (has_bit down p)) (length spec.now.procs) }
{
    let mut up = 0;
    for p in 0..spec.procs.items().len() as u8 {
        if !has_bit(down, p) {
            up += 1 << p;
        }
    }
    up
}

fn demanded_value(wants: &[Want], factor: u8) -> u8
    ensures { result ≡ demanded_value wants.now factor }
{
    for want in wants {
        if want.factor.0 == factor {
            return want.value;
        }
    }
    0
}
