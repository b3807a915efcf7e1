//! The number of each environment, and the environment of each number.

ghost use Rattle.std.specs.Prelude.{◌≡◌, ◌+◌, ◌-◌, ◌*◌, ◌/◌, ◌%◌, ◌^◌, ◌<◌, ◌≤◌, ◌++◌, length, not, replicate, IfSome, MatchOption, Some};
ghost use Rattle.scram_types.specs.Specification.{Each, IsFactor};
ghost use Rattle.scram_types.specs.Bits.{has_bit, bits_below};
ghost use Rattle.choice_table.specs.Environments.{IsEnv};
ghost use Rattle.choice_table.specs.Numbering.{IsNextInScope, NoneInScope, combinations, digits_of, env_of, environments, is_down_in_scope, number_of, numbered, states, value_count, values_of};

use crate::environments::count_down;
use scram_types::{Env, Spec};

/// An environment and its number.
#[derive(Clone, Copy)]
pub struct NumberedEnv {
    pub number: u32,
    pub env: Env,
}

/// Returns the number of an environment. Let `M` be the product of the factors' numbers of values. The number is `M`
/// times the set of processors that are down, as bits, plus the mixed-radix number of the factors' values. The first
/// factor is the most significant digit.
pub fn number_of(spec: &Spec, env: &Env) -> u32
    ensures number { result ≡ number_of spec.now env.now }
    ensures back { IsEnv spec.now env.now → env_of spec.now result ≡ Some env.now }
{
    let down = others(spec.count_procs(), env.up);
    u32::from(down) * count_combinations(spec) + number_of_values(spec, &env.factors)
}

/// Returns the environment with number `number`, or `None` if no environment has this number.
pub fn env_of(spec: &Spec, number: u32) -> Option<Env>
    ensures env { result ≡ env_of spec.now number }
    ensures belongs { IfSome result (λ v. IsEnv spec.now v) }
    ensures back { IfSome result (λ v. number_of spec.now v ≡ number) }
{
    if number < count_environments(spec) {
        Some(env_numbered(spec, number))
    } else {
        None
    }
}

/// Returns the number of environments in scope. The function visits each set of processors once, instead of each
/// environment.
pub fn states(spec: &Spec) -> u32
    ensures { result ≡ states spec.now }
{
    let combinations = count_combinations(spec);
    let mut states = 0;
    for down in 0..count_sets(spec) {
        if can_be_down(spec, down) {
            states += combinations;
        }
    }
    states
}

/// Returns the environment in scope with the smallest number that is at least `low`, or `None` if there is no such
/// environment. If a set of processors may not be down together, the function skips all environments in which exactly
/// these processors are down.
pub fn next_in_scope(spec: &Spec, low: u32) -> Option<NumberedEnv>
    ensures next { MatchOption result (NoneInScope spec.now low) (λ found. IsNextInScope spec.now low found.number) }
    ensures env { IfSome result (λ found. env_of spec.now found.number ≡ Some found.env) }
{
    let combinations = count_combinations(spec);
    for down in low / combinations..count_sets(spec) {
        if can_be_down(spec, down) {
            let number = low.max(down * combinations);
            return Some(NumberedEnv {
                number,
                env: env_numbered(spec, number),
            });
        }
    }
    None
}

// Returns `true` if the failure assumption allows the processors of the set `down` to be down at the same time.
fn can_be_down(spec: &Spec, down: u32) -> bool
    requires { down < 2 ^ length spec.now.procs }
    ensures { result ≡ is_down_in_scope spec.now down }
{
    count_down(spec.count_procs(), up_beside(spec, down)) <= spec.halts
}

fn env_numbered(spec: &Spec, number: u32) -> Env
    requires { number < environments spec.now }
    ensures { result ≡ numbered spec.now number }
{
    let combinations = count_combinations(spec);
    Env {
        up: up_beside(spec, number / combinations),
        factors: values_numbered(spec, number % combinations),
    }
}

/// Returns the set of processors that are up if exactly the processors of the set `down` are down.
pub fn up_beside(spec: &Spec, down: u32) -> u8
    requires { down < 2 ^ length spec.now.procs }
    ensures { result ≡ 2 ^ length spec.now.procs - 1 - down }
{
    (count_sets(spec) - 1 - down) as u8
}

// Returns the numbers below `count` that are not in `set`. Both sets of numbers are given as bits.
fn others(count: u8, set: u8) -> u8
    requires { count ≤ 8 }
    ensures value { result ≡ bits_below (λ p. not (has_bit set p)) count }
    ensures few { result < 2 ^ count }
{
    let all = (1u16 << count) - 1;
    (all - (u16::from(set) & all)) as u8
}

fn number_of_values(spec: &Spec, values: &[u8; 6]) -> u32
    ensures value { result ≡ digits_of spec.now.factors values.now }
    ensures few { result ≤ 348075 }
{
    let mut number = 0;
    for x in 0..count_factors(spec) {
        number = number * count_values(spec, x) + u32::from(values[x]);
    }
    number
}

fn values_numbered(spec: &Spec, number: u32) -> [u8; 6]
    requires { number < combinations spec.now.factors }
    ensures { result ≡ values_of spec.now.factors number ++ replicate (6 - length spec.now.factors) 0 }
{
    let mut values = [0; 6];
    let mut rest = number;
    let mut place = count_combinations(spec);
    for x in 0..count_factors(spec) {
        place /= count_values(spec, x);
        values[x] = (rest / place) as u8;
        rest %= place;
    }
    values
}

fn count_environments(spec: &Spec) -> u32
    ensures value { result ≡ environments spec.now }
    ensures known { Each IsFactor spec.now.factors }
    ensures few { length spec.now.factors ≤ 6 }
{
    count_sets(spec) * count_combinations(spec)
}

/// Returns the number of sets of processors, the empty set included.
pub fn count_sets(spec: &Spec) -> u32
    ensures value { result ≡ 2 ^ length spec.now.procs }
    ensures least { 1 ≤ result }
    ensures most { result ≤ 256 }
{
    1 << spec.count_procs()
}

fn count_combinations(spec: &Spec) -> u32
    ensures value { result ≡ combinations spec.now.factors }
    ensures least { 1 ≤ result }
    ensures most { result ≤ 4096 }
    ensures known { Each IsFactor spec.now.factors }
    ensures few { length spec.now.factors ≤ 6 }
{
    let mut product = 1;
    for x in 0..count_factors(spec) {
        product *= count_values(spec, x);
    }
    product
}

fn count_factors(spec: &Spec) -> usize
    ensures value { result ≡ length spec.now.factors }
    ensures most { result ≤ 6 }
    ensures known { Each IsFactor spec.now.factors }
{
    spec.factors.items().len()
}

fn count_values(spec: &Spec, x: usize) -> u32
    requires { x < length spec.now.factors }
    ensures value { result ≡ value_count spec.now.factors x }
    ensures least { 2 ≤ result }
    ensures most { result ≤ 4 }
{
    spec.factors.items()[x].values.items().len() as u32
}
