//! Tests of the tables of applications: names, ranges and first areas.

use app_model::{Rack, rack_fits, racks_fit, start_area};
use kind_table::kinds::autopilot::{HOLD, KIND as PILOT};
use kind_table::kinds::data_link::{FAST, KIND as LINK};
use kind_table::kinds::flight_control::{AUGMENTED, DIRECT, KIND as CONTROL};
use kind_table::kinds::navigator::{KIND as NAVIGATOR, ROUTE};
use kind_table::kinds::power_monitor::{KIND as POWER, SAVER};
use kind_table::kinds::task::{KIND as TASK, REDUCED};
use kind_table::{
    after_halt, after_init, during, kind_name, kind_named, mode_name, mode_named, sane,
    variable_name, variable_named,
};
use scram_types::{KindId, Mode};

// Returns the numbers of the kind, the mode and the variable whose names are in `names`, in this order. The mode and
// the variable belong to kind `kind`.
fn numbers_of(kind: u8, names: (&str, &str, &str)) -> (Option<KindId>, Option<Mode>, Option<u8>) {
    (
        kind_named(names.0),
        mode_named(KindId(kind), names.1),
        variable_named(KindId(kind), names.2),
    )
}

// Returns the names of a kind, of one of its modes, and of one of its variables.
fn names_of(
    kind: u8,
    mode: u8,
    variable: u8,
) -> (
    Option<&'static str>,
    Option<&'static str>,
    Option<&'static str>,
) {
    (
        kind_name(KindId(kind)),
        mode_name(KindId(kind), Mode(mode)),
        variable_name(KindId(kind), variable),
    )
}

// Numbers of kinds, modes and variables, with their names.
const NAMES: [(u8, u8, u8, (&str, &str, &str)); 6] = [
    (0, 1, 3, ("autopilot", "navigate", "target_alt")),
    (1, 2, 1, ("flight_control", "direct", "elevator")),
    (2, 3, 4, ("power_monitor", "essential", "shed")),
    (3, 1, 1, ("navigator", "route", "bearing_error")),
    (4, 2, 6, ("datalink", "slow", "ticks")),
    (5, 3, 6, ("task", "minimal", "ticks")),
];

#[test]
fn names_are_those_of_the_tables(rt: HostRuntime) {
    for (kind, mode, variable, names) in NAMES {
        assert_eq!(rt;
            numbers_of(kind, names),
            (Some(KindId(kind)), Some(Mode(mode)), Some(variable))
        );
        assert_eq!(rt;
            names_of(kind, mode, variable),
            (Some(names.0), Some(names.1), Some(names.2))
        );
    }
}

// Each row has the numbers of a kind, a mode and a variable, and the name of the kind, or `None` if there is no such
// kind. The mode and the variable are in no table of the kind.
const UNNAMED: [(u8, u8, u8, Option<&str>); 3] = [
    (6, 1, 3, None),
    (0, 0, 7, Some("autopilot")),
    (0, 3, 7, Some("autopilot")),
];

#[test]
fn what_is_in_no_table_has_no_name(rt: HostRuntime) {
    let other = numbers_of(0, ("pilot", "augmented", "elevator"));
    assert_eq!(rt; other, (None, None, None));
    for (kind, mode, variable, name) in UNNAMED {
        assert_eq!(rt; names_of(kind, mode, variable), (name, None, None));
    }
}

// The state for which a range is requested: a status, the end of a halt, the end of an initialisation, or any state.
#[derive(Clone, Copy, Debug)]
enum When {
    During(u8),
    AfterHalt,
    AfterInit,
    Always,
}

// Returns the range of a variable in a state, given the kind and the mode of the application.
fn range(when: When, kind: u8, mode: u8, variable: u8) -> (i64, i64) {
    match when {
        When::During(status) => during(KindId(kind), status, Mode(mode), variable),
        When::AfterHalt => after_halt(KindId(kind), Mode(mode), variable),
        When::AfterInit => after_init(KindId(kind), Mode(mode), variable),
        When::Always => sane(KindId(kind), variable),
    }
}

// States, kinds, modes and variables, with the ranges of the variables.
const RANGES: [(When, u8, u8, u8, (i64, i64)); 14] = [
    (When::During(1), PILOT, HOLD, 1, (-80, 80)),
    (When::During(1), POWER, SAVER, 3, (0, 60)),
    (When::During(3), POWER, SAVER, 0, (3, 3)),
    (When::During(1), NAVIGATOR, ROUTE, 1, (-1_800, 1_799)),
    (When::During(1), LINK, FAST, 1, (0, 64)),
    (When::During(1), TASK, REDUCED, 6, (0, 1_000_000)),
    (When::AfterHalt, CONTROL, AUGMENTED, 1, (0, 0)),
    (When::AfterHalt, CONTROL, AUGMENTED, 0, (2, 2)),
    (When::AfterInit, CONTROL, AUGMENTED, 1, (-50, 50)),
    (When::AfterInit, CONTROL, DIRECT, 2, (-100, 100)),
    (When::AfterInit, PILOT, HOLD, 5, (0, 0)),
    (When::Always, TASK, REDUCED, 1, (0, 0)),
    (When::Always, CONTROL, AUGMENTED, 2, (-300, 300)),
    (When::Always, POWER, SAVER, 0, (0, 4)),
];

#[test]
fn ranges_are_those_of_the_tables(rt: HostRuntime) {
    for (when, kind, mode, variable, want) in RANGES {
        let found = range(when, kind, mode, variable);
        assert_eq!(rt; found, want, "of variable {variable} of kind {kind}");
    }
}

// Kinds of applications, with their first areas.
const STARTS: [(u8, [i64; 8]); 4] = [
    (0, [4, 0, 0, 5_000, 900, 0, 0, 0]),
    (1, [4, 0, 0, 0, 0, 0, 0, 0]),
    (2, [4, 8_000, 0, 0, 0, 0, 0, 0]),
    (5, [4, 0, 0, 0, 0, 0, 0, 0]),
];

#[test]
fn applications_begin_as_the_tables_say(rt: HostRuntime) {
    for (kind, area) in STARTS {
        assert_eq!(rt; start_area(KindId(kind)), area, "of kind {kind}");
    }
}

#[test]
fn empty_racks_do_not_fit(rt: HostRuntime) {
    let rack = Rack {
        boxes: Vec::new(rt.alloc()),
    };
    assert!(rt; !rack_fits(&rack));
    assert!(rt; !racks_fit(&[]));
}
