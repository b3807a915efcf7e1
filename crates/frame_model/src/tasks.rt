//! The task of each application in a frame.

ghost use Rattle.std.specs.Prelude.{◌≡◌, ◌<◌, IfSome};
ghost use Rattle.dep_order.specs.Timetables.{halt_time, init_time, prepare_time};
ghost use Rattle.scram_types.specs.Eights.{eight};
ghost use Rattle.frame_model.specs.Phases.{offsets_in};
ghost use Rattle.frame_model.specs.Tasks.{halting_order, initialising_order, preparing_order, task_for, task_in, task_of};

use crate::phases::{Phase, Stage, stage_at};
use scram_types::{AppId, ConfId, KMode, Mode, Order, Place, ProcId, Spec};

/// An application's order in a frame, with its mode and its processor. An application that is off has the order `Off`,
/// mode 0 and no processor.
#[derive(Clone, Copy)]
pub struct Task {
    pub order: Order,
    pub mode: Mode,
    pub proc: Option<ProcId>,
}

/// Returns the task of an application in a frame, given the kernel's mode in that frame. In a stable mode, the
/// applications of the configuration run. In a moving mode, a configuration halts first, if any, and each application
/// runs until its halt offset. Then the target prepares. Then the target initialises, each application from its init
/// offset on. Finally the target runs. An application that has nothing to do in a phase holds.
pub fn order_of(spec: &Spec, mode: &KMode, frame: u32, app: AppId) -> Task
    requires { app.0 < 8 }
    ensures { result ≡ task_of spec.now mode.now frame app.0 }
{
    task_in(spec, &stage_at(spec, mode, frame), app)
}

/// Returns the task of each application in a frame, given the kernel's mode in that frame. Determines the phase once
/// for all applications.
pub fn tasks_of(spec: &Spec, mode: &KMode, frame: u32) -> [Task; 8]
    ensures { result ≡ eight (task_of spec.now mode.now frame) }
{
    let stage = stage_at(spec, mode, frame);
    [
        task_in(spec, &stage, AppId(0)),
        task_in(spec, &stage, AppId(1)),
        task_in(spec, &stage, AppId(2)),
        task_in(spec, &stage, AppId(3)),
        task_in(spec, &stage, AppId(4)),
        task_in(spec, &stage, AppId(5)),
        task_in(spec, &stage, AppId(6)),
        task_in(spec, &stage, AppId(7)),
    ]
}

/// Returns the task of an application in a phase.
pub(crate) fn task_in(spec: &Spec, stage: &Stage, app: AppId) -> Task
    requires app { app.0 < 8 }
    requires offsets { stage.now.offsets ≡ offsets_in spec.now stage.now.phase }
    ensures task { result ≡ task_in spec.now stage.now.phase app.0 }
    ensures proc { IfSome result.proc (λ p. p.0 < 8) }
{
    let offset = stage.offsets[usize::from(app.0)];
    match stage.phase {
        Phase::Running(c) => task_for(Order::Run, spec.place_of(c, app)),
        Phase::Halting(c, age) => task_for(
            halting_order(offset, halt_time(spec, c, app), age),
            spec.place_of(c, app),
        ),
        Phase::Preparing(c, age) => task_for(
            preparing_order(prepare_time(spec, c, app), age),
            spec.place_of(c, app),
        ),
        Phase::Initialising(c, age) => task_for(
            initialising_order(offset, init_time(spec, c, app), age),
            spec.place_of(c, app),
        ),
    }
}

fn task_for(order: Order, place: Option<Place>) -> Task
    ensures task { result ≡ task_for order place }
    ensures proc { IfSome place (λ p. p.proc.0 < 8) → IfSome result.proc (λ p. p.0 < 8) }
{
    match place {
        Some(place) => Task {
            order,
            mode: place.mode,
            proc: Some(place.proc),
        },
        None => Task {
            order: Order::Off,
            mode: Mode(0),
            proc: None,
        },
    }
}

fn halting_order(offset: u16, time: u8, age: u32) -> Order
    ensures { result ≡ halting_order offset time age }
{
    let offset = u32::from(offset);
    if age < offset {
        Order::Run
    } else if age - offset < u32::from(time) {
        Order::Halt((age - offset) as u8, time)
    } else {
        Order::Hold
    }
}

fn preparing_order(time: u8, age: u32) -> Order
    ensures { result ≡ preparing_order time age }
{
    if age < u32::from(time) {
        Order::Prepare(age as u8, time)
    } else {
        Order::Hold
    }
}

fn initialising_order(offset: u16, time: u8, age: u32) -> Order
    ensures { result ≡ initialising_order offset time age }
{
    let offset = u32::from(offset);
    if age < offset {
        Order::Hold
    } else if age - offset < u32::from(time) {
        Order::Init((age - offset) as u8, time)
    } else {
        Order::Hold
    }
}

fn halt_time(spec: &Spec, c: ConfId, app: AppId) -> u8
    ensures { result ≡ halt_time spec.now c app.0 }
{
    match spec.mode_of(c, app) {
        Some(listed) => listed.halt,
        None => 0,
    }
}

fn prepare_time(spec: &Spec, c: ConfId, app: AppId) -> u8
    ensures { result ≡ prepare_time spec.now c app.0 }
{
    match spec.mode_of(c, app) {
        Some(listed) => listed.prepare,
        None => 0,
    }
}

fn init_time(spec: &Spec, c: ConfId, app: AppId) -> u8
    ensures { result ≡ init_time spec.now c app.0 }
{
    match spec.mode_of(c, app) {
        Some(listed) => listed.init,
        None => 0,
    }
}
