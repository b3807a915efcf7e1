//! Cubes of environments.

ghost use Rattle.std.specs.Prelude.{◌≡◌, ◌+◌, ◌*◌, ◌<◌, ◌&&◌, ◌||◌, ◌==◌, not, true};
ghost use Rattle.std.specs.List.{list_all};
ghost use Rattle.scram_types.specs.Bits.{has_bit};
ghost use Rattle.scram_types.specs.Specification.{IsSpec};
ghost use Rattle.choice_table.specs.Choices.{all_up, has_wanted, is_place_up, is_runnable};
ghost use Rattle.choice_table.specs.Demands.{all_down, applies_in};
ghost use Rattle.choice_table.specs.Environments.{IsEnv};
ghost use Rattle.choice_table.specs.Numbering.{value_count};
ghost use Rattle.scram_types.specs.Searches.{all_below};
ghost use Rattle.cube_cover.specs.Cubes.{HasDigits, allows, digit_in, holds, is_digit, field_of, HoldsExactly};

use scram_types::bits::has_bit;
use scram_types::{Choice, ConfId, Demand, Env, Place, Spec, Want};

/// A set of environments, given by a set of digits for each place. Bit `4 * x + d` is set if digit `d` is open at
/// place `x`. Places 0 to 5 are the factors, whose digits are their values. Place `6 + p` is processor `p`, with
/// digit 0 if the processor is up and 1 if it is down.
#[derive(Clone, Copy)]
pub(crate) struct Cube {
    pub(crate) bits: u64,
}

// A mask with the bit of digit 0 of each place.
const FIRST_DIGITS: u64 = 0x11_1111_1111_1111;

// Returns the cube that holds all environments of a specification.
pub(crate) fn whole(spec: &Spec) -> Cube
    requires { IsSpec spec.now }
    ensures { (v : Env) → IsEnv spec.now v → holds result v ≡ true }
{
    let mut bits = 0;
    for n in 0..56u8 {
        if is_digit(spec, n / 4, n % 4) {
            bits += 1 << n;
        }
    }
    Cube { bits }
}

// Returns `true` if an environment can have digit `d` at place `x`.
#[tactic(auto, unfolding(crate::specs::Cubes::is_digit))]
pub(crate) fn is_digit(spec: &Spec, x: u8, d: u8) -> bool
    ensures { result ≡ is_digit spec.now x d }
{
    if x < 6 {
        d == 0 || d < count_values(spec, x)
    } else {
        d == 1 || d == 0 && usize::from(x) < spec.procs.items().len() + 6
    }
}

pub(crate) fn count_values(spec: &Spec, x: u8) -> u8
    ensures { result ≡ value_count spec.now.factors x }
{
    match spec.factors.items().get(usize::from(x)) {
        Some(factor) => factor.values.items().len() as u8,
        None => 0,
    }
}

// Returns the cube of the environments in which each factor that a rule names has the required value and each
// processor of the rule is up. The rule's source is ignored.
pub(crate) fn rule_cube(rule: &Choice) -> Cube
    ensures { HoldsExactly result (λ v. list_all (has_wanted v) rule.now.wants && all_up rule.now.up v) }
{
    with_up(with_wants(rule.wants.items()), rule.up)
}

// Returns the cube of the environments to which a demand applies.
pub(crate) fn demand_cube(demand: &Demand) -> Cube
    ensures { HoldsExactly result (applies_in demand.now) }
{
    let up = with_up(with_wants(demand.wants.items()), demand.up);
    with_down(up, demand.down)
}

fn with_wants(wants: &[Want]) -> Cube
    ensures { HoldsExactly result (λ v. list_all (has_wanted v) wants.now) }
{
    let mut cube = Cube { bits: u64::MAX };
    for want in wants {
        cube = with_wanted(cube, want);
    }
    cube
}

// Returns the part of the cube in which a factor has a required value. A factor from number 6 on has value 0 in each
// environment.
fn with_wanted(cube: Cube, want: &Want) -> Cube
    ensures { HoldsExactly result (λ v. holds cube v && has_wanted v want.now) }
{
    if want.factor.0 < 6 {
        with_digit(cube, want.factor.0, want.value)
    } else if want.value == 0 {
        cube
    } else {
        Cube { bits: 0 }
    }
}

// Returns the part of the cube in which each processor of the set is up.
fn with_up(cube: Cube, set: u8) -> Cube
    ensures { HoldsExactly result (λ v. holds cube v && all_up set v) }
{
    with_processors(cube, set, 0)
}

// Returns the part of the cube in which each processor of the set is down.
fn with_down(cube: Cube, set: u8) -> Cube
    ensures { HoldsExactly result (λ v. holds cube v && all_down set v) }
{
    with_processors(cube, set, 1)
}

// Returns the part of the cube with digit `d` at the place of each processor of the set.
fn with_processors(cube: Cube, set: u8, d: u8) -> Cube
    ensures { HoldsExactly result (λ v. holds cube v && all_below (λ p. not (has_bit set p) || (digit_in v (6 + p) == d)) 8) }
{
    let mut narrow = cube;
    for p in 0..8 {
        narrow = with_member(narrow, set, p, d);
    }
    narrow
}

fn with_member(cube: Cube, set: u8, p: u8, d: u8) -> Cube
    requires { p < 8 }
    ensures { HoldsExactly result (λ v. holds cube v && (not (has_bit set p) || (digit_in v (6 + p) == d))) }
{
    if has_bit(set, p) {
        with_digit(cube, 6 + p, d)
    } else {
        cube
    }
}

// Returns the cube of the environments in which configuration `c` can run, or the cube of all environments if there
// is no configuration `c`.
pub(crate) fn running(spec: &Spec, c: ConfId) -> Cube
    ensures { HoldsExactly result (is_runnable spec.now c) }
{
    match spec.conf(c) {
        Some(conf) => with_places(&conf.places),
        None => Cube { bits: u64::MAX },
    }
}

fn with_places(places: &[Option<Place>; 8]) -> Cube
    ensures { HoldsExactly result (λ v. list_all (is_place_up v) places.now) }
{
    let mut cube = Cube { bits: u64::MAX };
    for place in places {
        cube = with_place(cube, place);
    }
    cube
}

fn with_place(cube: Cube, place: &Option<Place>) -> Cube
    ensures { HoldsExactly result (λ v. holds cube v && is_place_up v place.now) }
{
    match place {
        Some(place) => {
            if place.proc.0 < 8 {
                with_digit(cube, 6 + place.proc.0, 0)
            } else {
                Cube { bits: 0 }
            }
        }
        None => cube,
    }
}

// Returns the part of the cube with digit `d` at place `x`.
fn with_digit(cube: Cube, x: u8, d: u8) -> Cube
    requires { x < 14 }
    ensures { HoldsExactly result (λ v. holds cube v && (digit_in v x == d)) }
{
    if d < 4 {
        let digit = Cube {
            bits: 1 << (4 * x + d),
        };
        inside_at(cube, digit, x)
    } else {
        Cube { bits: 0 }
    }
}

// Returns the cube of the environments of `cube` whose digit at place `x` is open in the cube `by`.
pub(crate) fn inside_at(cube: Cube, by: Cube, x: u8) -> Cube
    requires { x < 14 }
    ensures { HoldsExactly result (λ v. holds cube v && allows by v x) }
{
    Cube {
        bits: cube.bits & (by.bits | !field(x)),
    }
}

// Returns the cube of the environments of `cube` whose digit at place `x` is not open in the cube `by`.
pub(crate) fn outside_at(cube: Cube, by: Cube, x: u8) -> Cube
    requires { x < 14 }
    ensures { HoldsExactly result (λ v. holds cube v && not (allows by v x)) }
{
    Cube {
        bits: cube.bits & !(by.bits & field(x)),
    }
}

// Returns `true` if some digit is open at place `x`. If no digit is open, the cube holds no environment.
pub(crate) fn is_open_at(cube: Cube, x: u8) -> bool
    requires { x < 14 }
    ensures { (v : Env) → HasDigits v → holds cube v ≡ true → result ≡ true }
{
    cube.bits & field(x) != 0
}

// Returns a mask with the bits of all digits at place `x`.
fn field(x: u8) -> u64
    requires { x < 14 }
    ensures { result ≡ field_of x }
{
    15 << (4 * x)
}

// Returns the cube of the environments that both cubes hold.
pub(crate) fn both(one: Cube, other: Cube) -> Cube
    ensures { (v : Env) → holds result v ≡ (holds one v && holds other v) }
{
    Cube {
        bits: one.bits & other.bits,
    }
}

// Returns `true` if each place has a digit that is open in both cubes. If some place has no such digit, the cubes
// share no environment.
pub(crate) fn meet(one: Cube, other: Cube) -> bool
    ensures { (v : Env) → HasDigits v → (holds one v && holds other v) ≡ true → result ≡ true }
{
    let both = one.bits & other.bits;
    let pairs = both | both >> 1;
    let digits = pairs | pairs >> 2;
    digits & FIRST_DIGITS == FIRST_DIGITS
}

// Returns `true` if digit `d` is open at place `x`.
pub(crate) fn is_open(cube: Cube, x: u8, d: u8) -> bool
    requires place { x < 14 }
    requires digit { d < 4 }
    ensures { result ≡ has_bit cube.bits (4 * x + d) }
{
    cube.bits >> (4 * x + d) & 1 == 1
}

// Returns the digit of an environment at place `x`.
#[tactic(auto, unfolding(crate::specs::Cubes::digit_in))]
pub(crate) fn digit_in(env: &Env, x: u8) -> u8
    requires { x < 14 }
    ensures { result ≡ digit_in env.now x }
{
    if x < 6 {
        env.factors[usize::from(x)]
    } else if has_bit(env.up, x - 6) {
        0
    } else {
        1
    }
}
