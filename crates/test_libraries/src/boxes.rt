//! Tests of the boxes of the five kinds with values that are worked out by hand.

use airframe::step;
use app_model::racks::{empty_racks, rack_frame, racks_frame};
use app_model::{App, Rack, Seen, rack_fits, start_area};
use kind_table::kinds::{autopilot, data_link, navigator, power_monitor, task};
use more_apps::PlainAutopilot;
use racks::{Autopilot, Datalink, FlightControl, Navigator, PowerMonitor, rack, racks};
use scram_types::{Area, Goal, KindId, Mode, Order, ProcId, World};
use std::test::Fail;

const NONE: Area = [0; 8];

// The altitude and the heading of a level flight, in feet and in tenths of a degree.
const LEVEL: (i64, i64) = (5_000, 900);

// Returns what a box sees in a level flight without applications of other kinds. The altitude and the heading of the
// flight are `from`, and the altitude and the heading of the goal are `to`.
fn seen_in(mode: u8, own: Area, from: (i64, i64), to: (i64, i64)) -> Seen {
    Seen {
        mode: Mode(mode),
        own,
        lead: [NONE; 8],
        world: make_world(from.0, 0, from.1, 0),
        factors: [0; 6],
        goal: Goal {
            altitude: to.0,
            heading: to.1,
        },
    }
}

fn make_world(alt: i64, climb: i64, heading: i64, bank: i64) -> World {
    World {
        alt,
        climb,
        heading,
        bank,
    }
}

// Returns the answers of a box to a call, to the same call again, and to the same call after the order `Off`.
fn answers(app: &mut dyn App, order: Order, seen: &Seen) -> (Area, Area, Area) {
    let first = app.frame(order, seen);
    let again = app.frame(order, seen);
    let _off = app.frame(Order::Off, seen);
    (first, again, app.frame(order, seen))
}

#[test]
fn airframe_steps_as_was_worked_out(rt: HostRuntime) {
    let level = make_world(5_000, 0, 900, 0);
    let high = make_world(39_995, 290, 3_590, 200);
    let rising = make_world(5_000, 5, 900, 0);
    assert_eq!(rt; step(level, 0, 0), level);
    assert_eq!(rt; step(high, 300, 300), make_world(40_000, 292, 15, 250));
    assert_eq!(rt; step(level, 22, 0), rising);
    assert_eq!(rt; step(rising, 24, 0), make_world(5_000, 9, 900, 0));
}

#[test]
fn autopilot_answers_as_was_worked_out(rt: HostRuntime) {
    use kind_table::kinds::autopilot::{HOLD, KIND, NAVIGATE};
    let mut app = Autopilot::new();
    let start = start_area(KindId(KIND));
    let held = [1, 0, 0, 5_000, 900, 3_950, 0, 0];
    let climbing = [1, 22, 0, 5_200, 900, 200, 1, 0];
    for (order, seen, want) in [
        (
            Order::Run,
            seen_in(HOLD, held, (4_900, 0), (0, 0)),
            [1, 50, 0, 5_000, 900, 4_000, 1, 0],
        ),
        (
            Order::Run,
            seen_in(NAVIGATE, start, (5_000, 3_500), (5_000, 100)),
            [1, 0, 50, 5_000, 100, 0, 1, 0],
        ),
        (
            Order::Run,
            seen_in(NAVIGATE, start, (5_000, 100), (5_000, 3_500)),
            [1, 0, -50, 5_000, 3_500, 0, 1, 0],
        ),
        (
            Order::Run,
            seen_in(NAVIGATE, start, (5_000, 0), (5_000, 1_800)),
            [1, 0, -150, 5_000, 1_800, 0, 1, 0],
        ),
        (
            Order::Run,
            seen_in(NAVIGATE, start, LEVEL, (5_200, 900)),
            climbing,
        ),
        (
            Order::Run,
            seen_in(NAVIGATE, climbing, LEVEL, (5_200, 900)),
            [1, 24, 0, 5_200, 900, 400, 2, 0],
        ),
        (
            Order::Halt(0, 1),
            seen_in(NAVIGATE, climbing, LEVEL, LEVEL),
            [2, 0, 0, 5_200, 900, 200, 1, 0],
        ),
        (Order::Hold, seen_in(HOLD, climbing, LEVEL, LEVEL), climbing),
        (
            Order::Prepare(0, 1),
            seen_in(HOLD, climbing, LEVEL, LEVEL),
            [3, 22, 0, 5_200, 900, 200, 1, 0],
        ),
        (
            Order::Init(0, 1),
            seen_in(HOLD, climbing, LEVEL, LEVEL),
            [4, 0, 0, 5_000, 900, 0, 1, 0],
        ),
        (Order::Off, seen_in(HOLD, climbing, LEVEL, LEVEL), NONE),
    ] {
        assert_eq!(rt; answers(&mut app, order, &seen), (want, want, want));
    }
}

#[test]
fn plain_autopilot_answers_as_was_worked_out(rt: HostRuntime) {
    let held = [1, 0, 0, 5_000, 900, 3_950, 0, 0];
    let seen = seen_in(autopilot::HOLD, held, (4_900, 0), (0, 0));
    let mut app = PlainAutopilot::new();
    let want = [1, 50, 0, 5_000, 900, 4_000, 1, 0];
    assert_eq!(rt; answers(&mut app, Order::Run, &seen), (want, want, want));
}

// Returns what a flight control sees in level flight if its elevator is at `elevator`, and the autopilot has the
// status `status` and requests the pitch `pitch`.
fn seen_with_autopilot(mode: u8, elevator: i64, status: i64, pitch: i64) -> Seen {
    let own = [1, elevator, 0, 0, 0, 0, 0, 0];
    let autopilot = [status, pitch, 0, 0, 0, 0, 0, 0];
    Seen {
        lead: [autopilot, NONE, NONE, NONE, NONE, NONE, NONE, NONE],
        ..seen_in(mode, own, LEVEL, LEVEL)
    }
}

#[test]
fn flight_control_answers_as_was_worked_out(rt: HostRuntime) {
    use kind_table::kinds::flight_control::{AUGMENTED, DIRECT};
    let mut app = FlightControl::new();
    for (order, seen, want) in [
        (
            Order::Run,
            seen_with_autopilot(AUGMENTED, 90, 1, -20),
            [1, 50, 0, -20, 0, 0, 1, 0],
        ),
        (
            Order::Run,
            seen_with_autopilot(AUGMENTED, 90, 2, -20),
            [1, 50, 0, 0, 0, 0, 1, 0],
        ),
        (
            Order::Run,
            seen_with_autopilot(DIRECT, 90, 1, 70),
            [1, 140, 0, 70, 0, 0, 1, 0],
        ),
        (
            Order::Halt(0, 3),
            seen_with_autopilot(AUGMENTED, 90, 1, 0),
            [2, 60, 0, 0, 0, 0, 0, 0],
        ),
        (
            Order::Halt(1, 3),
            seen_with_autopilot(AUGMENTED, 60, 1, 0),
            [2, 30, 0, 0, 0, 0, 0, 0],
        ),
        (
            Order::Halt(2, 3),
            seen_with_autopilot(AUGMENTED, 30, 1, 0),
            [2, 0, 0, 0, 0, 0, 0, 0],
        ),
        (
            Order::Init(0, 1),
            seen_with_autopilot(AUGMENTED, -90, 1, 0),
            [4, -50, 0, 0, 0, 0, 0, 0],
        ),
        (
            Order::Init(0, 2),
            seen_with_autopilot(AUGMENTED, -90, 1, 0),
            [4, -90, 0, 0, 0, 0, 0, 0],
        ),
    ] {
        assert_eq!(rt; answers(&mut app, order, &seen), (want, want, want));
    }
}

// Returns what a power monitor with the charge `charge` sees in level flight, if the factors of the two alternators
// have the values `first` and `second`.
fn seen_with_charge(mode: u8, charge: i64, first: u8, second: u8) -> Seen {
    Seen {
        factors: [first, second, 0, 0, 0, 0],
        ..seen_in(mode, [1, charge, 0, 0, 0, 0, 0, 0], LEVEL, LEVEL)
    }
}

#[test]
fn power_monitor_answers_as_was_worked_out(rt: HostRuntime) {
    use kind_table::kinds::power_monitor::{ESSENTIAL, NORMAL, SAVER};
    let mut app = PowerMonitor::new();
    for (order, seen, want) in [
        (
            Order::Run,
            seen_with_charge(NORMAL, 2_050, 1, 1),
            [1, 1_950, 0, 100, 1, 0, 1, 0],
        ),
        (
            Order::Run,
            seen_with_charge(NORMAL, 9_990, 0, 0),
            [1, 10_000, 120, 100, 0, 0, 1, 0],
        ),
        (
            Order::Run,
            seen_with_charge(SAVER, 8_200, 1, 0),
            [1, 8_200, 60, 60, 0, 0, 1, 0],
        ),
        (
            Order::Run,
            seen_with_charge(ESSENTIAL, 8_200, 1, 1),
            [1, 8_180, 0, 20, 0, 0, 1, 0],
        ),
        (
            Order::Halt(0, 1),
            seen_with_charge(NORMAL, 8_200, 1, 0),
            [2, 8_200, 0, 0, 0, 0, 0, 0],
        ),
    ] {
        assert_eq!(rt; answers(&mut app, order, &seen), (want, want, want));
    }
}

#[test]
fn navigator_answers_as_was_worked_out(rt: HostRuntime) {
    let start = start_area(KindId(navigator::KIND));
    let mut app = Navigator::new();
    for (from, to, want) in [
        ((5_000, 3_500), (5_050, 100), [1, 200, 50, 0, 0, 0, 1, 0]),
        (LEVEL, LEVEL, [1, 0, 0, 1, 0, 0, 1, 0]),
    ] {
        let seen = seen_in(navigator::ROUTE, start, from, to);
        assert_eq!(rt; answers(&mut app, Order::Run, &seen), (want, want, want));
    }
}

// Returns what a data link sees in level flight if the first applications of the first four kinds have the statuses
// in `statuses`.
fn seen_with_statuses(mode: u8, own: Area, statuses: [i64; 4]) -> Seen {
    let [first, second, third, fourth] = statuses;
    Seen {
        lead: [
            [first, 0, 0, 0, 0, 0, 0, 0],
            [second, 0, 0, 0, 0, 0, 0, 0],
            [third, 0, 0, 0, 0, 0, 0, 0],
            [fourth, 0, 0, 0, 0, 0, 0, 0],
            NONE,
            NONE,
            NONE,
            NONE,
        ],
        ..seen_in(mode, own, LEVEL, LEVEL)
    }
}

#[test]
fn data_link_answers_as_was_worked_out(rt: HostRuntime) {
    use kind_table::kinds::data_link::{FAST, SLOW};
    let start = start_area(KindId(data_link::KIND));
    let mut app = Datalink::new();
    for (mode, own, statuses, want) in [
        (
            SLOW,
            [1, 63, 10, 1, 0, 0, 5, 0],
            [1, 1, 1, 4],
            [1, 64, 11, 1, 1, 0, 6, 0],
        ),
        (FAST, start, [4; 4], [1, 0, 0, 4, 0, 0, 1, 0]),
        (
            FAST,
            [1, 0, 0, 4, 0, 0, 1, 0],
            [1; 4],
            [1, 0, 4, 4, 0, 0, 2, 0],
        ),
    ] {
        let seen = seen_with_statuses(mode, own, statuses);
        assert_eq!(rt; answers(&mut app, Order::Run, &seen), (want, want, want));
    }
}

/// Returns the answers of the last processor's rack to `Run` for the power monitor and to `Off` for the data link.
fn racks_answer(mut racks: Vec<Rack>, seen: &Seen) -> (Area, Area) {
    let run = racks_frame(&mut racks, ProcId(7), KindId(2), Order::Run, seen);
    let off = racks_frame(&mut racks, ProcId(7), KindId(4), Order::Off, seen);
    (run, off)
}

// The expected answers of a rack to `Run` for the power monitor that sees `charging()`, and to `Off` for the data
// link.
const CHARGED: (Area, Area) = ([1, 8_020, 120, 100, 0, 0, 1, 0], NONE);

// Returns what a power monitor with its start area sees in level flight.
fn charging() -> Seen {
    let start = start_area(KindId(power_monitor::KIND));
    seen_in(power_monitor::NORMAL, start, LEVEL, LEVEL)
}

#[test]
fn racks_answer_with_boxes(rt: HostRuntime) -> Result<(), Fail> {
    let racks = racks!(rt);
    assert_eq!(rt; racks_answer(racks, &charging()), CHARGED);
    Ok(())
}

#[test]
fn racks_answer_without_boxes(rt: HostRuntime) -> Result<(), Fail> {
    let racks = empty_racks(rt.alloc())?;
    assert_eq!(rt; racks_answer(racks, &charging()), CHARGED);
    assert_eq!(rt; racks_answer(Vec::new(rt.alloc()), &charging()), CHARGED);
    Ok(())
}

#[test]
fn tasks_are_answered_without_a_box(rt: HostRuntime) -> Result<(), Fail> {
    let mut rack = rack!(rt, PlainAutopilot::new());
    let kind = KindId(task::KIND);
    let seen = seen_in(task::REDUCED, [1, 9, 0, 0, 0, 0, 41, 7], LEVEL, LEVEL);
    for (order, want) in [
        (Order::Run, [1, 0, 0, 0, 0, 0, 42, 0]),
        (Order::Halt(0, 2), [2, 0, 0, 0, 0, 0, 41, 0]),
        (Order::Hold, [1, 9, 0, 0, 0, 0, 41, 7]),
        (Order::Prepare(0, 1), [3, 0, 0, 0, 0, 0, 41, 0]),
        (Order::Init(0, 1), [4, 0, 0, 0, 0, 0, 41, 0]),
        (Order::Off, NONE),
    ] {
        assert_eq!(rt; rack_frame(&mut rack, kind, order, &seen), want);
    }
    Ok(())
}

#[test]
fn box_out_of_its_place_is_not_asked(rt: HostRuntime) -> Result<(), Fail> {
    let mut rack = rack!(rt, Navigator::new());
    let start = start_area(KindId(autopilot::KIND));
    let seen = seen_in(autopilot::NAVIGATE, start, (5_000, 3_500), (5_000, 100));
    let turning = [1, 0, 50, 5_000, 100, 0, 1, 0];
    assert_eq!(rt;
        rack_frame(&mut rack, KindId(autopilot::KIND), Order::Run, &seen),
        turning
    );
    Ok(())
}

#[test]
fn rack_fits_where_each_box_is_in_its_place(rt: HostRuntime) -> Result<(), Fail> {
    assert!(rt; rack_fits(&rack!(rt, PlainAutopilot::new())));
    assert!(rt; !rack_fits(&rack!(rt, Navigator::new())));
    Ok(())
}
