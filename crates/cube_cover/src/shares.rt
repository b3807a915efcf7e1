//! The environments in scope, divided into shares by the first rule that fits in them.

ghost use Rattle.std.specs.Prelude.{◌≡◌, ◌&&◌, IfOk};
ghost use Rattle.scram_types.specs.Specification.{IsSpec};
ghost use Rattle.choice_table.specs.Choices.{rule_fits};
ghost use Rattle.choice_table.specs.Environments.{IsEnv};
ghost use Rattle.cube_cover.specs.Cubes.{AreDisjoint, HoldsExactly, holds, is_in};
ghost use Rattle.cube_cover.specs.Shares.{AreShares, HoldsRest, IsShare, first_rule};

use crate::covers::all_cubes;
use crate::cubes::{Cube, rule_cube};
use crate::leasts::{holds, least_of};
use crate::sizes::count_held;
use crate::splits::split_by;
use choice_table::has_source;
use scram_types::{Choice, ConfId, Env, NoMemory, Spec};
use std::alloc::Global;

/// A share of the environments in scope. `count` is the number of environments in the share, and `first` is the first
/// of them, by number, or `None` if the share is empty.
#[derive(Clone, Copy)]
pub struct Share {
    pub count: u32,
    pub first: Option<Env>,
}

// The share that a rule takes of some cubes, and the remaining cubes.
#[derive(Drop)]
struct Taken {
    share: Share,
    rest: Vec<Cube>,
}

/// Returns for each rule, in order, the share of the environments in scope in which the rule is the first that fits
/// configuration `c`. The last share has the environments in which no rule fits.
///
/// # Errors
///
/// Returns an error if memory runs out.
pub fn shares_of(alloc: Global, spec: &Spec, c: ConfId) -> Result<Vec<Share>, NoMemory>
    ensures { IfOk result (λ shares. AreShares spec.now c shares.items) }
{
    let rules = spec.rules.items();
    let mut shares = Vec::new(alloc);
    let mut open = all_cubes(alloc, spec)?;
    for rule in rules {
        let taken = take_rule(alloc, spec, c, rule, open)?;
        shares.push(taken.share)?;
        open = taken.rest;
    }
    shares.push(share_of(spec, &open))?;
    Ok(shares)
}

/// Returns the index of the first rule that fits configuration `c` in an environment, or the number of rules if no rule
/// fits.
pub fn first_rule(spec: &Spec, c: ConfId, env: &Env) -> usize
    requires { IsEnv spec.now env.now }
    ensures { result ≡ first_rule spec.now.rules c env.now }
{
    let mut k = 0;
    for rule in spec.rules.items() {
        if holds(fitting_cube(rule, c), env) {
            return k;
        }
        k += 1;
    }
    k
}

fn take_rule(
    alloc: Global,
    spec: &Spec,
    c: ConfId,
    rule: &Choice,
    cubes: Vec<Cube>,
) -> Result<Taken, NoMemory>
    requires known { IsSpec spec.now }
    requires disjoint { AreDisjoint spec.now cubes.items }
    ensures share { IfOk result (λ taken. IsShare spec.now (λ v. is_in cubes.items v && rule_fits c v rule.now) taken.share) }
    ensures rest { IfOk result (λ taken. HoldsRest spec.now c rule.now cubes.items taken.rest.items) }
{
    let parts = split_by(alloc, spec, &cubes, fitting_cube(rule, c))?;
    Ok(Taken {
        share: share_of(spec, &parts.inside),
        rest: parts.outside,
    })
}

// Returns the cube of the environments in which a rule fits configuration `c`.
fn fitting_cube(rule: &Choice, c: ConfId) -> Cube
    ensures { HoldsExactly result (λ v. rule_fits c v rule.now) }
{
    if has_source(rule.from, c) {
        rule_cube(rule)
    } else {
        Cube { bits: 0 }
    }
}

fn share_of(spec: &Spec, cubes: &[Cube]) -> Share
    requires known { IsSpec spec.now }
    requires disjoint { AreDisjoint spec.now cubes.now }
    ensures { IsShare spec.now (is_in cubes.now) result }
{
    Share {
        count: count_held(spec, cubes),
        first: least_of(spec, cubes),
    }
}
