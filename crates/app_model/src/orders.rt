//! The areas after all orders except `Run`. The rules are the same for all kinds.
#![tactic(auto, unfolding(crate::specs::Orders::faded, crate::specs::Orders::kept_area, crate::specs::Orders::halted_word, crate::specs::Orders::halted, crate::specs::Orders::initialised_word, crate::specs::Orders::initialised))]

ghost use Rattle.std.specs.Prelude.{◌≡◌, ◌<◌, ◌+◌, ◌==◌, IfSome, None};
ghost use Rattle.scram_types.specs.Numbers.{FitsSums, part};
ghost use Rattle.scram_types.specs.declared.orders.Order.TheVariants.{Run};
ghost use Rattle.app_model.specs.Law.{law};
ghost use Rattle.app_model.specs.Orders.{faded, halted_word, halted, initialised_word, initialised, initialising, kept_area};

use crate::reads::{read_altitude, read_heading, read_own};
use crate::seen::Seen;
use kind_table::kinds::autopilot;
use kind_table::ranges::{initialised_range, is_moving};
use scram_types::numbers::gap;
use scram_types::ranges::clamped_in;
use scram_types::{Area, Order};

fn keep(kind: u8, status: i64, seen: &Seen) -> Area
    ensures { result ≡ kept_area kind status seen.now }
{
    [
        status,
        read_own(kind, seen, 1),
        read_own(kind, seen, 2),
        read_own(kind, seen, 3),
        read_own(kind, seen, 4),
        read_own(kind, seen, 5),
        read_own(kind, seen, 6),
        read_own(kind, seen, 7),
    ]
}

#[tactic(auto, unfolding(scram_types::specs::Numbers::part))]
fn share(x: i64, left: u8) -> i64
    requires { FitsSums x }
    ensures value { result ≡ part x left }
    ensures word { FitsSums result }
{
    if left == 0 { 0 } else { x / i64::from(left) }
}

fn fade(x: i64, left: u8) -> i64
    requires { FitsSums x }
    ensures { result ≡ faded x left }
{
    gap(share(x, left), x)
}

fn halt_word(kind: u8, left: u8, seen: &Seen, variable: usize) -> i64
    requires { variable < 8 }
    ensures { result ≡ halted_word kind left seen.now variable }
{
    let value = read_own(kind, seen, variable);
    if is_moving(kind, variable) {
        fade(value, left)
    } else {
        value
    }
}

fn halt(kind: u8, left: u8, seen: &Seen) -> Area
    ensures { result ≡ halted kind left seen.now }
{
    [
        2,
        halt_word(kind, left, seen, 1),
        halt_word(kind, left, seen, 2),
        halt_word(kind, left, seen, 3),
        halt_word(kind, left, seen, 4),
        halt_word(kind, left, seen, 5),
        halt_word(kind, left, seen, 6),
        halt_word(kind, left, seen, 7),
    ]
}

fn initialise_word(kind: u8, seen: &Seen, variable: usize) -> i64
    requires { variable < 8 }
    ensures { result ≡ initialised_word kind seen.now variable }
{
    if kind == autopilot::KIND && variable == autopilot::TARGET_ALT {
        read_altitude(seen)
    } else if kind == autopilot::KIND && variable == autopilot::TARGET_HEADING {
        read_heading(seen)
    } else {
        clamped_in(
            initialised_range(kind, seen.mode.0, variable),
            read_own(kind, seen, variable),
        )
    }
}

fn initialise(kind: u8, seen: &Seen) -> Area
    ensures { result ≡ initialised kind seen.now }
{
    [
        4,
        initialise_word(kind, seen, 1),
        initialise_word(kind, seen, 2),
        initialise_word(kind, seen, 3),
        initialise_word(kind, seen, 4),
        initialise_word(kind, seen, 5),
        initialise_word(kind, seen, 6),
        initialise_word(kind, seen, 7),
    ]
}

fn is_last(age: u8, frames: u8) -> bool
    ensures { result ≡ (age + 1 == frames) }
{
    u16::from(age) + 1 == u16::from(frames)
}

fn keep_or_initialise(kind: u8, last: bool, seen: &Seen) -> Area
    ensures { result ≡ initialising kind last seen.now }
{
    if last {
        initialise(kind, seen)
    } else {
        keep(kind, 4, seen)
    }
}

/// Returns the area of an application of the kind after an order other than `Run`, by the kind's law, or `None` if the
/// order is `Run`.
pub fn area_after(kind: u8, order: Order, seen: &Seen) -> Option<Area>
    ensures law { IfSome result (λ area. area ≡ law kind order seen.now) }
    ensures run { result ≡ None → order ≡ Run }
{
    match order {
        Order::Run => None,
        Order::Halt(age, frames) => Some(halt(kind, frames.saturating_sub(age), seen)),
        Order::Hold => Some(seen.own),
        Order::Prepare(_, _) => Some(keep(kind, 3, seen)),
        Order::Init(age, frames) => Some(keep_or_initialise(kind, is_last(age, frames), seen)),
        Order::Off => Some([0; 8]),
    }
}
