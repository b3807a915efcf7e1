//! The configuration that the choice table chooses, and the configurations that can run.

ghost use Rattle.std.specs.Prelude.{◌≡◌, ◌<◌, length};
ghost use Rattle.std.specs.List.{list_all};
ghost use Rattle.choice_table.specs.Choices.{all_up, choose, has_rule, has_source, has_wanted, is_place_up, is_runnable, rule_fits};

use scram_types::bits::has_bit;
use scram_types::{Choice, ConfId, Env, Place, Spec, Want};

/// Returns the target of the first rule that fits configuration `c` and the environment, or `c` if no rule fits.
pub fn choose(spec: &Spec, c: ConfId, env: &Env) -> ConfId
    ensures target { result ≡ choose spec.now c env.now }
    ensures inside { c.0 < length spec.now.confs → result.0 < length spec.now.confs }
{
    for rule in spec.rules.items() {
        if fits(rule, c, env) {
            return rule.to;
        }
    }
    c
}

/// Returns `true` if some rule fits configuration `c` and the environment.
pub fn has_rule(spec: &Spec, c: ConfId, env: &Env) -> bool
    ensures { result ≡ has_rule spec.now c env.now }
{
    spec.rules.items().iter().any(|rule| fits(rule, c, env))
}

/// Returns `true` if each processor that configuration `c` uses is up. A configuration that does not exist uses no
/// processor.
pub fn runnable(spec: &Spec, c: ConfId, env: &Env) -> bool
    ensures { result ≡ is_runnable spec.now c env.now }
{
    match spec.conf(c) {
        Some(conf) => conf.places.iter().all(|place| has_processor(place, env)),
        None => true,
    }
}

fn has_processor(place: &Option<Place>, env: &Env) -> bool
    ensures { result ≡ is_place_up env.now place.now }
{
    match place {
        Some(place) => has_bit(env.up, place.proc.0),
        None => true,
    }
}

fn fits(rule: &Choice, c: ConfId, env: &Env) -> bool
    ensures { result ≡ rule_fits c env.now rule.now }
{
    has_source(rule.from, c) && have_wanted(rule.wants.items(), env) && are_up(rule.up, env)
}

/// Returns `true` if configuration `c` is the source `from` of a rule or an invariant. If `from` is `None`, every
/// configuration is.
pub fn has_source(from: Option<ConfId>, c: ConfId) -> bool
    ensures { result ≡ has_source from c }
{
    match from {
        Some(from) => from.0 == c.0,
        None => true,
    }
}

// Returns `true` if an environment has each required value.
pub(crate) fn have_wanted(wants: &[Want], env: &Env) -> bool
    ensures { result ≡ list_all (has_wanted env.now) wants.now }
{
    wants.iter().all(|want| has_wanted(want, env))
}

fn has_wanted(want: &Want, env: &Env) -> bool
    ensures { result ≡ has_wanted env.now want.now }
{
    let x = usize::from(want.factor.0);
    let value = if x < 6 { env.factors[x] } else { 0 };
    value == want.value
}

// Returns `true` if each processor of a set is up.
pub(crate) fn are_up(set: u8, env: &Env) -> bool
    ensures { result ≡ all_up set env.now }
{
    set & env.up == set
}
