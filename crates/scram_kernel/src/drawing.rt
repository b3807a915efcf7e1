//! The row of a frame, drawn from the kernel image of the frame and from the marks and images after the frame.

ghost use Rattle.std.specs.Prelude.{◌≡◌, ◌<◌};
ghost use Rattle.scram_types.specs.Eights.{eight};
ghost use Rattle.scram_types.specs.Specification.{Parts};
ghost use Rattle.frame_model.specs.Flights.{image_in, slot_in};
ghost use Rattle.frame_model.specs.States.{act_after, keeper_on};
ghost use Rattle.scram_kernel.specs.Drawing.{act_drawn, area_from, areas_drawn, has_committed, keepers_drawn, row_drawn, task_in_image};
ghost use Rattle.scram_kernel.specs.Marks.{mark_in};

use bank_words::KernelImage;
use frame_model::sights::slot_in;
use frame_model::{Task, act_of_order, world_in};
use scram_types::{Act, Area, Image, ProcId, Row, Spec};

/// The marks and images of all processors after a frame.
#[derive(Clone, Copy)]
pub(crate) struct Stored<'a> {
    pub(crate) marks: &'a [u64; 8],
    pub(crate) images: &'a [Image; 8],
}

/// Returns the row of the frame of `image`, given the tasks of that frame, and the marks and images after it. `areas`
/// contains the areas before the frame, and is set to the areas after the frame.
pub(crate) fn draw(
    spec: &Spec,
    image: &KernelImage,
    tasks: &[Task; 8],
    stored: &Stored<'_>,
    areas: &mut [Area; 8],
) -> Row
    requires tasks { tasks.now ≡ eight (task_in_image spec.now image.now) }
    ensures row { result ≡ row_drawn spec.now image.now stored.now.marks.now stored.now.images.now areas.old }
    ensures areas { areas.new ≡ result.areas }
{
    draw_areas(image, tasks, stored, areas);
    Row {
        frame: image.frame,
        env: image.env,
        mode: image.mode,
        acts: acts_drawn(image, tasks, stored.marks),
        areas: *areas,
        world: world_in(spec, image.world, areas),
    }
}

fn acts_drawn(image: &KernelImage, tasks: &[Task; 8], marks: &[u64; 8]) -> [Act; 8]
    ensures { (spec : Parts) → tasks.now ≡ eight (task_in_image spec image.now) → result ≡ eight (act_drawn spec image.now marks.now) }
{
    [
        act_after(&tasks[0], marks, image.frame),
        act_after(&tasks[1], marks, image.frame),
        act_after(&tasks[2], marks, image.frame),
        act_after(&tasks[3], marks, image.frame),
        act_after(&tasks[4], marks, image.frame),
        act_after(&tasks[5], marks, image.frame),
        act_after(&tasks[6], marks, image.frame),
        act_after(&tasks[7], marks, image.frame),
    ]
}

// Replaces `areas`, the areas before the frame, by the areas after the frame.
fn draw_areas(image: &KernelImage, tasks: &[Task; 8], stored: &Stored<'_>, areas: &mut [Area; 8])
    ensures { (spec : Parts) → tasks.now ≡ eight (task_in_image spec image.now)
        → areas.new ≡ areas_drawn spec image.now stored.now.marks.now stored.now.images.now areas.old }
{
    for a in 0..8 {
        let at = usize::from(a);
        draw_area(&tasks[at], stored, image.frame, a, &mut areas[at]);
    }
}

/// Returns for each application the processor that keeps its area after the frame, or `None` if no processor keeps
/// it.
pub(crate) fn keepers_drawn(
    image: &KernelImage,
    tasks: &[Task; 8],
    marks: &[u64; 8],
) -> [Option<ProcId>; 8]
    ensures { (spec : Parts) → tasks.now ≡ eight (task_in_image spec image.now) → result ≡ keepers_drawn spec image.now marks.now }
{
    [
        keeper_on(&tasks[0], marks, image.frame, image.keepers[0]),
        keeper_on(&tasks[1], marks, image.frame, image.keepers[1]),
        keeper_on(&tasks[2], marks, image.frame, image.keepers[2]),
        keeper_on(&tasks[3], marks, image.frame, image.keepers[3]),
        keeper_on(&tasks[4], marks, image.frame, image.keepers[4]),
        keeper_on(&tasks[5], marks, image.frame, image.keepers[5]),
        keeper_on(&tasks[6], marks, image.frame, image.keepers[6]),
        keeper_on(&tasks[7], marks, image.frame, image.keepers[7]),
    ]
}

fn act_after(task: &Task, marks: &[u64; 8], frame: u32) -> Act
    ensures { result ≡ act_after (has_committed marks.now frame) task.now }
{
    match task.proc {
        Some(proc) => {
            if has_committed(marks, proc, frame) {
                act_of_order(task.order, task.mode, proc)
            } else {
                Act::Lost
            }
        }
        None => Act::Off,
    }
}

// Sets `area`, the area of application `a` before the frame, to the area after the frame. The new area is zeros if
// the application is off, the application's slot if the application's processor has committed the frame, or else the
// old area.
fn draw_area(task: &Task, stored: &Stored<'_>, frame: u32, a: u8, area: &mut Area)
    requires { a < 8 }
    ensures { area.new ≡ area_from (has_committed stored.now.marks.now frame) stored.now.images.now a area.old task.now.proc }
{
    match task.proc {
        Some(proc) => {
            if has_committed(stored.marks, proc, frame) {
                *area = slot_of(stored.images, proc, a);
            }
        }
        None => *area = [0; 8],
    }
}

fn keeper_on(task: &Task, marks: &[u64; 8], frame: u32, old: Option<ProcId>) -> Option<ProcId>
    ensures { result ≡ keeper_on (has_committed marks.now frame) old task.now.proc }
{
    match task.proc {
        Some(proc) => {
            if has_committed(marks, proc, frame) {
                Some(proc)
            } else {
                old
            }
        }
        None => None,
    }
}

fn has_committed(marks: &[u64; 8], proc: ProcId, frame: u32) -> bool
    ensures { result ≡ has_committed marks.now frame proc.0 }
{
    mark_in(marks, proc.0) / 2 == u64::from(frame) + 1
}

fn mark_in(marks: &[u64; 8], p: u8) -> u64
    ensures { result ≡ mark_in marks.now p }
{
    match marks.get(usize::from(p)) {
        Some(mark) => *mark,
        None => 0,
    }
}

fn slot_of(images: &[Image; 8], proc: ProcId, a: u8) -> Area
    requires { a < 8 }
    ensures { result ≡ slot_in (image_in images.now proc.0) a }
{
    match images.get(usize::from(proc.0)) {
        Some(image) => slot_in(image, a),
        None => [0; 8],
    }
}
