//! The drafts that a processor makes from its snapshot of a frame.

ghost use Rattle.std.specs.Prelude.{◌≡◌, ◌<◌, if◌then◌else◌, nat_eq, ℕ};
ghost use Rattle.frame_model.specs.Flights.{image_of, is_proc, slot_in};
ghost use Rattle.frame_model.specs.States.{ShowAlike, keeper_at};
ghost use Rattle.fail_stop.specs.Drafts.{area_kept, area_drafted, areas_shown, slot_made, task_among};

use crate::snapshots::Snapshot;
use app_model::racks::rack_frame;
use app_model::{Rack, Seen};
use frame_model::Task;
use frame_model::sights::{show_in, slot_in};
use scram_types::{AppId, Area, Image, ProcId, Spec};

/// The data that all applications of a frame share: the specification, the tasks, and the snapshot, which has the
/// areas as of the start of the frame.
#[derive(Clone, Copy)]
pub(crate) struct Setting<'a> {
    pub(crate) spec: &'a Spec,
    pub(crate) tasks: [Task; 8],
    pub(crate) snap: &'a Snapshot,
}

/// Returns the areas of all applications in a snapshot.
pub(crate) fn areas_shown(snap: &Snapshot) -> [Area; 8]
    ensures { result ≡ areas_shown snap.now }
{
    [
        area_kept(snap, 0),
        area_kept(snap, 1),
        area_kept(snap, 2),
        area_kept(snap, 3),
        area_kept(snap, 4),
        area_kept(snap, 5),
        area_kept(snap, 6),
        area_kept(snap, 7),
    ]
}

fn area_kept(snap: &Snapshot, a: u8) -> Area
    requires { a < 8 }
    ensures { result ≡ area_kept snap.now.images (keeper_at snap.now.kernel.keepers a) a }
{
    match snap.kernel.keepers[usize::from(a)] {
        Some(keeper) => match snap.images.get(usize::from(keeper.0)) {
            Some(image) => slot_in(image, a),
            None => [0; 8],
        },
        None => [0; 8],
    }
}

/// Replaces in `image` the slot of each application that processor `proc` hosts in the frame. `image` is the image of
/// the processor as of the start of the frame. Each new slot is the result of one call of the application's box.
/// Afterwards `seen` is what the last application that the processor hosts saw, or is unchanged if the processor
/// hosts none.
pub(crate) fn make_slots(
    proc: ProcId,
    rack: &mut Rack,
    setting: &Setting<'_>,
    seen: &mut Seen,
    image: &mut Image,
)
    ensures image { let s = setting.now in image.new ≡ image_of (slot_made s.spec.now s.tasks seen.old (areas_shown s.snap.now) image.old proc.0) }
{
    for a in 0..8 {
        if hosts(proc, setting, a) {
            let area = area_drafted(rack, setting, seen, a);
            put_slot(image, a, &area);
        }
    }
}

// Returns the area of application `a` after the frame, computed by a call of the application's box.
fn area_drafted(rack: &mut Rack, setting: &Setting<'_>, seen: &mut Seen, a: u8) -> Area
    requires a { a < 8 }
    ensures area { let s = setting.now in result ≡ area_drafted s.spec.now s.tasks seen.old (areas_shown s.snap.now) a }
    ensures seen { ShowAlike seen.old seen.new }
{
    let task = setting.tasks[usize::from(a)];
    show_in(seen, task.mode, &area_kept(setting.snap, a));
    rack_frame(rack, setting.spec.kind_of_app(AppId(a)), task.order, seen)
}

// Replaces the slot of application `a` in an image by `area`.
fn put_slot(image: &mut Image, a: u8, area: &Area)
    requires a { a < 8 }
    ensures slots { (b : ℕ) → b < 8 → slot_in image.new b ≡ (if nat_eq b a then area.now else slot_in image.old b) }
{
    let first = 8 * usize::from(a);
    for i in 0..8 {
        image[first + i] = area[i];
    }
}

// Returns `true` if processor `proc` hosts application `a` in the setting's frame.
fn hosts(proc: ProcId, setting: &Setting<'_>, a: u8) -> bool
    requires a { a < 8 }
    ensures { result ≡ is_proc proc.0 (task_among setting.now.tasks a).proc }
{
    is_proc(usize::from(proc.0), setting.tasks[usize::from(a)].proc)
}

pub(crate) fn is_proc(p: usize, named: Option<ProcId>) -> bool
    ensures { result ≡ is_proc p named }
{
    match named {
        Some(named) => usize::from(named.0) == p,
        None => false,
    }
}
