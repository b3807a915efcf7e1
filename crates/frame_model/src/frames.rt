//! The effect of one frame on the whole system.

ghost use Rattle.std.specs.Prelude.{◌≡◌, ◌<◌, ℕ};
ghost use Rattle.scram_types.specs.declared.limits.TheConstants.{MAX_FRAMES};
ghost use Rattle.scram_types.specs.Numbers.{word};
ghost use Rattle.scram_types.specs.Specification.{Parts};
ghost use Rattle.frame_model.specs.Frames.{committing, frame_env, row_given, sys_after, up_after};
ghost use Rattle.frame_model.specs.Phases.{is_running, is_settled, phase_at};
ghost use Rattle.frame_model.specs.States.{has_arrived, world_in};

use crate::acts::runs;
use crate::decisions::decide;
use crate::outcomes::{Setting, lead_of, perform_all};
use crate::phases::{Phase, stage_at, target};
use crate::sights::seen_by_all;
use crate::systems::Sys;
use airframe::step;
use app_model::Rack;
use fault_script::Input;
use kind_table::kinds::flight_control;
use scram_types::{Area, Env, KMode, Row, Spec, World};

/// Flies one frame and returns its row. Afterwards, `sys` is the state after the frame. A processor that restarts in
/// the frame is up. The kernel's decision depends on the frame's environment. An application carries out its order if
/// its processor commits. Its act is `Lost` if the processor is not up or halts before its mark. At the end, the
/// airframe makes a step.
pub fn frame(spec: &Spec, sys: &mut Sys, input: &Input, racks: &mut [Rack]) -> Row
    requires frame { sys.old.frame < MAX_FRAMES }
    ensures row { result ≡ row_given spec.now sys.old input.now }
    ensures after { sys.new ≡ sys_after spec.now sys.old input.now }
{
    let env = frame_env(sys, input);
    let mode = decide(spec, sys, &env);
    let stage = stage_at(spec, &mode, sys.frame);
    let mut setting = Setting {
        seen: seen_by_all(spec, &sys.areas, sys.world, &env),
        committing: committing(sys, input),
        stage,
    };
    let frame = sys.frame;
    let up = up_after(sys, input);
    let world = sys.world;
    let acts = perform_all(spec, sys, &mut setting, racks);
    let world = world_in(spec, world, &sys.areas);
    let areas = sys.areas;
    let row = Row {
        frame,
        env,
        mode,
        acts,
        areas,
        world,
    };
    sys.settled = has_arrived(spec, &row, stage.phase);
    sys.frame = frame + 1;
    sys.mode = mode;
    sys.world = world;
    sys.up = up;
    row
}

fn frame_env(sys: &Sys, input: &Input) -> Env
    ensures { result ≡ frame_env sys.now input.now }
{
    let factors = input.factors;
    Env {
        up: sys.up | input.back,
        factors,
    }
}

fn committing(sys: &Sys, input: &Input) -> u8
    ensures { result ≡ committing sys.now input.now }
{
    (sys.up | input.back) & !input.early
}

fn up_after(sys: &Sys, input: &Input) -> u8
    ensures { result ≡ up_after sys.now input.now }
{
    (sys.up | input.back) & !(input.early | input.late)
}

/// Returns the world after a frame, given the world before the frame and the areas after the frame.
pub fn world_in(spec: &Spec, world: World, areas: &[Area; 8]) -> World
    ensures { result ≡ world_in spec.now world areas.now }
{
    let lead = lead_of(spec, areas, flight_control::KIND);
    step(
        world,
        read_word(&lead, flight_control::ELEVATOR),
        read_word(&lead, flight_control::AILERON),
    )
}

#[tactic(auto, unfolding(scram_types::specs::Numbers::word))]
fn read_word(area: &Area, i: usize) -> i64
    requires { i < 8 }
    ensures { result ≡ word area.now i }
{
    area[i]
}

/// Returns `true` if the frame of a row was settled and the row ran the target. `phase` must be the phase of the
/// frame.
pub fn has_arrived(spec: &Spec, row: &Row, phase: Phase) -> bool
    requires { phase ≡ phase_at spec.now row.now.mode row.now.frame }
    ensures { result ≡ has_arrived spec.now row.now }
{
    is_settled(&row.mode, phase) && runs(spec, &row.acts, target(&row.mode))
}

fn is_settled(mode: &KMode, phase: Phase) -> bool
    ensures { (spec : Parts) (f : ℕ) → phase ≡ phase_at spec mode.now f → result ≡ is_settled spec mode.now f }
{
    match mode {
        KMode::Stable(_) => false,
        KMode::Moving {
            from: _,
            halting: _,
            to: _,
            since: _,
        } => is_running(phase),
    }
}

fn is_running(phase: Phase) -> bool
    ensures { result ≡ is_running phase }
{
    match phase {
        Phase::Running(_) => true,
        Phase::Halting(_, _) => false,
        Phase::Preparing(_, _) => false,
        Phase::Initialising(_, _) => false,
    }
}
