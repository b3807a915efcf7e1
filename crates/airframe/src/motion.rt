//! One step of the aircraft.
#![tactic(auto, unfolding(crate::specs::Motion::toward, crate::specs::Motion::plus_tenth, crate::specs::Motion::climb_after, crate::specs::Motion::bank_after, crate::specs::Motion::alt_after, crate::specs::Motion::heading_after, crate::specs::Motion::world_after))]

ghost use Rattle.std.specs.Prelude.{◌≡◌, ◌≤ℤ◌, pos};
ghost use Rattle.scram_types.specs.Numbers.{FitsSums, part, modulo, minus};
ghost use Rattle.airframe.specs.Motion.{toward, plus_tenth, climb_after, bank_after, alt_after, heading_after, world_after, step_of, IsFlyable};

use scram_types::World;
use scram_types::numbers::{gap, sum};
use scram_types::ranges::{clamped_in, make_range};

/// A world and the positions of the surfaces that act on it, in tenths of a degree.
#[derive(Clone, Copy)]
struct Motion {
    world: World,
    elevator: i64,
    aileron: i64,
}

#[tactic(auto, unfolding(scram_types::specs::Numbers::part))]
fn quarter(x: i64) -> i64
    requires low { minus 8589934592 ≤ℤ x }
    requires high { x ≤ℤ pos 8589934592 }
    ensures value { result ≡ part x 4 }
    ensures word { FitsSums result }
{
    x / 4
}

#[tactic(auto, unfolding(scram_types::specs::Numbers::part))]
fn half(x: i64) -> i64
    requires low { minus 8589934592 ≤ℤ x }
    requires high { x ≤ℤ pos 8589934592 }
    ensures value { result ≡ part x 2 }
    ensures word { FitsSums result }
{
    x / 2
}

#[tactic(auto, unfolding(scram_types::specs::Numbers::part))]
fn tenth(x: i64) -> i64
    requires { FitsSums x }
    ensures value { result ≡ part x 10 }
    ensures word { FitsSums result }
{
    x / 10
}

#[tactic(auto, unfolding(scram_types::specs::Numbers::modulo))]
fn around(x: i64) -> i64
    ensures { result ≡ modulo x 3600 }
{
    x.rem_euclid(3_600)
}

fn quarter_toward(x: i64, target: i64) -> i64
    requires x { FitsSums x }
    requires target { FitsSums target }
    ensures { result ≡ toward x target 4 }
{
    sum(x, quarter(gap(x, target)))
}

fn half_toward(x: i64, target: i64) -> i64
    requires x { FitsSums x }
    requires target { FitsSums target }
    ensures { result ≡ toward x target 2 }
{
    sum(x, half(gap(x, target)))
}

fn with_tenth(x: i64, y: i64) -> i64
    requires x { FitsSums x }
    requires y { FitsSums y }
    ensures { result ≡ plus_tenth x y }
{
    sum(x, tenth(y))
}

fn next_climb(motion: &Motion) -> i64
    ensures value { result ≡ climb_after motion.now }
    ensures word { FitsSums result }
{
    let climb = clamped_in(make_range(300, 300), motion.world.climb);
    let elevator = clamped_in(make_range(300, 300), motion.elevator);
    clamped_in(make_range(300, 300), quarter_toward(climb, elevator))
}

fn next_bank(motion: &Motion) -> i64
    ensures value { result ≡ bank_after motion.now }
    ensures word { FitsSums result }
{
    let bank = clamped_in(make_range(300, 300), motion.world.bank);
    let aileron = clamped_in(make_range(300, 300), motion.aileron);
    clamped_in(make_range(300, 300), half_toward(bank, aileron))
}

fn next_alt(motion: &Motion) -> i64
    ensures { result ≡ alt_after motion.now }
{
    let alt = clamped_in(make_range(0, 40_000), motion.world.alt);
    clamped_in(make_range(0, 40_000), with_tenth(alt, next_climb(motion)))
}

fn next_heading(motion: &Motion) -> i64
    ensures { result ≡ heading_after motion.now }
{
    let heading = clamped_in(make_range(0, 3_599), motion.world.heading);
    around(with_tenth(heading, next_bank(motion)))
}

fn next_world(motion: &Motion) -> World
    ensures { result ≡ world_after motion.now }
{
    World {
        alt: next_alt(motion),
        climb: next_climb(motion),
        heading: next_heading(motion),
        bank: next_bank(motion),
    }
}

fn fly(motion: &Motion) -> World
    ensures world { result ≡ world_after motion.now }
    ensures flyable { IsFlyable result }
{
    next_world(motion)
}

/// Returns the world of the next frame, in which every number lies in its range. The surfaces are in tenths of a
/// degree and are clamped to -300 to 300. Altitude (feet, 0 to 40,000), climb (tenths of a foot per frame, -300 to
/// 300), heading (tenths of a degree, 0 to 3,599) and bank (tenths of a degree, -300 to 300) are clamped to their
/// ranges.
///
/// The new climb is the old climb, moved a quarter of the way to the elevator. The new bank is the old bank, moved
/// half of the way to the aileron. The altitude gains a tenth of the new climb, and the heading turns by a tenth of
/// the new bank, around the circle.
pub fn step(world: World, elevator: i64, aileron: i64) -> World
    ensures world { result ≡ step_of world elevator aileron }
    ensures flyable { IsFlyable result }
{
    fly(&Motion {
        world,
        elevator,
        aileron,
    })
}
