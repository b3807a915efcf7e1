//! The outcome of a frame for each application.

ghost use Rattle.std.specs.Prelude.{◌≡◌, ◌<◌, slice_set};
ghost use Rattle.scram_types.specs.Bits.{has_bit};
ghost use Rattle.scram_types.specs.Eights.{eight};
ghost use Rattle.frame_model.specs.Phases.{offsets_in};
ghost use Rattle.frame_model.specs.States.{act_of_order, lead_of};
ghost use Rattle.frame_model.specs.Outcomes.{IsSharedAlike, act_made, area_made, keeper_made};

use crate::phases::Stage;
use crate::sights::show_in;
use crate::systems::Sys;
use crate::tasks::task_in;
use app_model::racks::racks_frame;
use app_model::{Rack, Seen};
use scram_types::bits::has_bit;
use scram_types::{Act, AppId, Area, Mode, Order, ProcId, Spec};

/// The data that all applications share in a frame: the phase, the set of processors that commit the frame, as bits,
/// and what the applications see, without their modes and their own areas.
#[derive(Clone, Copy)]
pub(crate) struct Setting {
    pub(crate) seen: Seen,
    pub(crate) committing: u8,
    pub(crate) stage: Stage,
}

/// Performs the task of each application and returns the act of each. Afterwards, the areas and keepers of `sys` are
/// those after the frame, and its other fields are unspecified. `setting` then contains the mode and the area of the
/// last application whose processor commits, if any.
pub(crate) fn perform_all(
    spec: &Spec,
    sys: &mut Sys,
    setting: &mut Setting,
    racks: &mut [Rack],
) -> [Act; 8]
    requires offsets { setting.old.stage.offsets ≡ offsets_in spec.now setting.old.stage.phase }
    ensures acts { let s = setting.old in result ≡ eight (act_made spec.now s.stage.phase s.committing) }
    ensures areas { let s = setting.old in sys.new.areas ≡ eight (area_made spec.now sys.old s.stage.phase s.committing s.seen) }
    ensures keepers { let s = setting.old in sys.new.keepers ≡ eight (keeper_made spec.now sys.old s.stage.phase s.committing) }
{
    let mut acts = [Act::Off; 8];
    for a in 0..8 {
        acts[usize::from(a)] = perform(spec, sys, setting, a, racks);
    }
    acts
}

// Performs the task of application `a` and returns its act.
fn perform(spec: &Spec, sys: &mut Sys, setting: &mut Setting, a: u8, racks: &mut [Rack]) -> Act
    requires a { a < 8 }
    requires offsets { setting.old.stage.offsets ≡ offsets_in spec.now setting.old.stage.phase }
    ensures act { let s = setting.old in result ≡ act_made spec.now s.stage.phase s.committing a }
    ensures areas { let s = setting.old in
        sys.new.areas ≡ slice_set sys.old.areas a (area_made spec.now sys.old s.stage.phase s.committing s.seen a) }
    ensures keepers { let s = setting.old in
        sys.new.keepers ≡ slice_set sys.old.keepers a (keeper_made spec.now sys.old s.stage.phase s.committing a) }
    ensures setting { IsSharedAlike setting.old setting.new }
{
    let at = usize::from(a);
    let task = task_in(spec, &setting.stage, AppId(a));
    match task.proc {
        Some(proc) => {
            if has_bit(setting.committing, proc.0) {
                show_in(&mut setting.seen, task.mode, &sys.areas[at]);
                let kind = spec.kind_of_app(AppId(a));
                sys.areas[at] = racks_frame(racks, proc, kind, task.order, &setting.seen);
                sys.keepers[at] = Some(proc);
                act_of_order(task.order, task.mode, proc)
            } else {
                Act::Lost
            }
        }
        None => {
            sys.areas[at] = [0; 8];
            sys.keepers[at] = None;
            Act::Off
        }
    }
}

/// Returns the act of an application that carries out an order on a processor that commits.
pub fn act_of_order(order: Order, mode: Mode, proc: ProcId) -> Act
    ensures { result ≡ act_of_order order mode proc }
{
    match order {
        Order::Run => Act::Ran(mode, proc),
        Order::Halt(k, n) => Act::Halting(k, n, proc),
        Order::Hold => Act::Held,
        Order::Prepare(k, n) => Act::Preparing(k, n, proc),
        Order::Init(k, n) => Act::Initialising(k, n, proc),
        Order::Off => Act::Off,
    }
}

/// Returns the area of the lowest-numbered application of a kind, or zeros if the kind has no application.
pub(crate) fn lead_of(spec: &Spec, areas: &[Area; 8], kind: u8) -> Area
    ensures { result ≡ lead_of spec.now areas.now kind }
{
    for a in 0..spec.apps.items().len() as u8 {
        if spec.kind_of_app(AppId(a)).0 == kind {
            return areas[usize::from(a)];
        }
    }
    [0; 8]
}
