//! The ranges that invariants and preconditions have to contain, and the ways on which invariants are checked.

ghost use Rattle.std.specs.Prelude.{◌≡◌, ◌++◌, ◌<◌, IfOk, OnOk, length};
ghost use Rattle.scram_types.specs.Lookups.{conf_id};
ghost use Rattle.choice_table.specs.Choices.{has_source};
ghost use Rattle.coverage_check.specs.Holding.{holds_range};
ghost use Rattle.coverage_check.specs.Timing.{targets};
ghost use Rattle.condition_breaks.specs.Ranges.{all_ways, first_unheld, hull, hull_of, hull_on, interval, is_other_target, is_unheld, other_ways, range_entering, range_asked, range_on, way_to, ways_from};

use crate::breaks::Way;
use choice_table::has_source;
use coverage_check::targets;
use flight_facts::extremes::Extremes;
use kind_table::{after_init, during};
use scram_types::bits::is_in;
use scram_types::{ConfId, Invariant, NoMemory, Place, Precondition, Spec};
use std::alloc::Global;

// Returns all ways, by source. The first way from each source is the way from the source to itself.
pub(crate) fn all_ways(alloc: Global, spec: &Spec) -> Result<Vec<Way>, NoMemory>
    ensures { IfOk result (λ ways. ways.items ≡ all_ways spec.now) }
{
    let mut ways = Vec::new(alloc);
    for i in 0..spec.count_confs() {
        let set = targets(alloc, spec, ConfId(i))?;
        add_ways_from(&mut ways, spec, set, i)?;
    }
    Ok(ways)
}

// Appends the ways from configuration `i`. `set` contains the possible targets of configuration `i`.
fn add_ways_from(ways: &mut Vec<Way>, spec: &Spec, set: u16, i: u8) -> Result<(), NoMemory>
    requires { set ≡ targets spec.now (conf_id i) }
    ensures { OnOk result (ways.new.items ≡ ways.old.items ++ ways_from spec.now i) }
{
    ways.push(Way {
        from: ConfId(i),
        to: ConfId(i),
    })?;
    add_other_ways(ways, spec, set, i)
}

fn add_other_ways(ways: &mut Vec<Way>, spec: &Spec, set: u16, i: u8) -> Result<(), NoMemory>
    requires { set ≡ targets spec.now (conf_id i) }
    ensures { OnOk result (ways.new.items ≡ ways.old.items ++ other_ways spec.now i) }
{
    for j in 0..spec.count_confs() {
        add_way_to(ways, spec, set, i, j)?;
    }
    Ok(())
}

fn add_way_to(ways: &mut Vec<Way>, spec: &Spec, set: u16, i: u8, j: u8) -> Result<(), NoMemory>
    requires set { set ≡ targets spec.now (conf_id i) }
    requires inside { j < length spec.now.confs }
    ensures { OnOk result (ways.new.items ≡ ways.old.items ++ way_to spec.now i j) }
{
    if is_other_target(spec, set, i, j) {
        ways.push(Way {
            from: ConfId(i),
            to: ConfId(j),
        })?;
    }
    Ok(())
}

// Returns `true` if configuration `j` is in `set` and differs from configuration `i`. `set` contains the possible
// targets of configuration `i`.
fn is_other_target(spec: &Spec, set: u16, i: u8, j: u8) -> bool
    requires set { set ≡ targets spec.now (conf_id i) }
    requires inside { j < length spec.now.confs }
    ensures { result ≡ is_other_target spec.now i j }
{
    is_in(set, j) && i != j
}

/// Returns the interval from `least` to `greatest`.
pub fn interval(least: i64, greatest: i64) -> Extremes
    ensures { result ≡ interval (least, greatest) }
{
    Extremes { least, greatest }
}

// Returns the range of the variable of invariant `inv` in a place, over all acts in the place's mode. The range is
// from 0 to 0 if the application is off. Otherwise it is from 1 to 4 if the variable is the status.
fn range_asked(spec: &Spec, inv: &Invariant, place: Option<Place>) -> Extremes
    ensures { result ≡ interval (range_asked spec.now inv.now place) }
{
    match place {
        Some(place) => {
            if inv.variable == 0 {
                interval(1, 4)
            } else {
                let ends = during(spec.kind_of_app(inv.app), 1, place.mode, inv.variable);
                interval(ends.0, ends.1)
            }
        }
        None => interval(0, 0),
    }
}

/// Returns the range of the variable of invariant `inv` on a way: the range in the configuration at the end of the
/// way.
pub fn range_on(spec: &Spec, inv: &Invariant, way: &Way) -> Extremes
    ensures { result ≡ interval (range_on spec.now inv.now way.now) }
{
    range_asked(spec, inv, spec.place_of(way.to, inv.app))
}

// Returns the first way in `ways` whose range invariant `inv` has to contain and does not contain, or `None` if there
// is no such way.
pub(crate) fn first_unheld(spec: &Spec, inv: &Invariant, ways: &[Way]) -> Option<Way>
    ensures { result ≡ first_unheld spec.now inv.now ways.now }
{
    for way in ways {
        if is_unheld(spec, inv, way) {
            return Some(*way);
        }
    }
    None
}

fn is_unheld(spec: &Spec, inv: &Invariant, way: &Way) -> bool
    ensures { result ≡ is_unheld spec.now inv.now way.now }
{
    has_source(inv.from, way.from) && !holds(inv, &range_on(spec, inv, way))
}

fn holds(inv: &Invariant, range: &Extremes) -> bool
    ensures { result ≡ holds_range inv.now.least inv.now.greatest (range.now.least, range.now.greatest) }
{
    inv.least <= range.least && range.greatest <= inv.greatest
}

// Returns the smallest interval that contains the range on the way `first`, and the range on each way in `ways` to
// whose source invariant `inv` applies.
pub(crate) fn hull_of(spec: &Spec, inv: &Invariant, first: &Way, ways: &[Way]) -> Extremes
    ensures { result ≡ hull_of spec.now inv.now (interval (range_on spec.now inv.now first.now)) ways.now }
{
    let mut held = range_on(spec, inv, first);
    for way in ways {
        held = hull_on(spec, inv, &held, way);
    }
    held
}

fn hull_on(spec: &Spec, inv: &Invariant, held: &Extremes, way: &Way) -> Extremes
    ensures { result ≡ hull_on spec.now inv.now held.now way.now }
{
    if has_source(inv.from, way.from) {
        hull(held, &range_on(spec, inv, way))
    } else {
        *held
    }
}

// Returns the smallest interval that contains the intervals `held` and `range`.
fn hull(held: &Extremes, range: &Extremes) -> Extremes
    ensures { result ≡ hull held.now (range.now.least, range.now.greatest) }
{
    Extremes {
        least: held.least.min(range.least),
        greatest: held.greatest.max(range.greatest),
    }
}

/// Returns the range that precondition `pre` has to contain in a place: the range of its variable after the init
/// phase, or the range from 0 to 0 if the application is off.
pub fn range_entering(spec: &Spec, pre: &Precondition, place: Option<Place>) -> Extremes
    ensures { result ≡ interval (range_entering spec.now pre.now place) }
{
    match place {
        Some(place) => {
            let ends = after_init(spec.kind_of_app(pre.app), place.mode, pre.variable);
            interval(ends.0, ends.1)
        }
        None => interval(0, 0),
    }
}
