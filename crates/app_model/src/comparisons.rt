//! Comparisons of two calls of an application.
#![tactic(auto, using(crate::proofs::Equality::numbers_same, crate::proofs::Equality::bytes_same))]

ghost use Rattle.std.specs.Prelude.{◌≡◌, ◌↔◌, IsTrue};

use crate::seen::Seen;
use scram_types::{Area, Goal, Order, World};

/// Returns `true` if the two orders are equal.
pub fn same_order(a: Order, b: Order) -> bool
    ensures { IsTrue result ↔ (a ≡ b) }
{
    match (a, b) {
        (Order::Run, Order::Run) | (Order::Hold, Order::Hold) | (Order::Off, Order::Off) => true,
        (Order::Halt(k, n), Order::Halt(l, m)) => k == l && n == m,
        (Order::Prepare(k, n), Order::Prepare(l, m)) => k == l && n == m,
        (Order::Init(k, n), Order::Init(l, m)) => k == l && n == m,
        _ => false,
    }
}

fn same_area(a: &Area, b: &Area) -> bool
    ensures { IsTrue result ↔ (a.now ≡ b.now) }
{
    a == b
}

fn same_leads(a: &[Area; 8], b: &[Area; 8]) -> bool
    ensures { IsTrue result ↔ (a.now ≡ b.now) }
{
    a == b
}

fn same_factors(a: &[u8; 6], b: &[u8; 6]) -> bool
    ensures { IsTrue result ↔ (a.now ≡ b.now) }
{
    a == b
}

fn same_world(a: &World, b: &World) -> bool
    ensures { IsTrue result ↔ (a.now ≡ b.now) }
{
    a.alt == b.alt && a.climb == b.climb && a.heading == b.heading && a.bank == b.bank
}

fn same_goal(a: &Goal, b: &Goal) -> bool
    ensures { IsTrue result ↔ (a.now ≡ b.now) }
{
    a.altitude == b.altitude && a.heading == b.heading
}

/// Returns `true` if the two views of an application are equal.
pub fn same_seen(a: &Seen, b: &Seen) -> bool
    ensures { IsTrue result ↔ (a.now ≡ b.now) }
{
    if a.mode.0 != b.mode.0 {
        return false;
    }
    if !same_area(&a.own, &b.own) {
        return false;
    }
    if !same_leads(&a.lead, &b.lead) {
        return false;
    }
    if !same_world(&a.world, &b.world) {
        return false;
    }
    if !same_factors(&a.factors, &b.factors) {
        return false;
    }
    same_goal(&a.goal, &b.goal)
}
