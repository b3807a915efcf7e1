//! Frames that two live processors draft, compared with the same frames on one thread.

ghost use Rattle.std.specs.Prelude.{◌<◌};

use app_model::Rack;
use app_model::racks::empty_racks;
use bank_words::KernelImage;
use fail_stop::{Live, Snapshot};
use frame_model::sights::slot_in;
use frame_model::{Input, Sys, decide, frame};
use kind_table::kinds::autopilot::KIND;
use mission_gen::uav;
use scram_types::{Area, Env, Image, ProcId, Row, Spec};
use std::io::{self, ErrorKind};
use std::rt::HostRuntime;
use test_kit::{Counters, print_image};

/// Flies `uav` with the racks `rack` and `other` for its two processors, and prints the results and the numbers of
/// calls of the autopilots. The racks of the flight on one thread have no boxes.
pub fn start(rt: &HostRuntime, rack: Rack, other: Rack, counters: &Counters) -> io::Result<()> {
    let racks = empty_racks(rt.alloc())?;
    let one = Live::new(ProcId(0), rack);
    let two = Live::new(ProcId(1), other);
    match uav(rt.alloc()) {
        Ok(spec) => {
            let flown = fly(rt, &spec, one, two, racks);
            drop(spec);
            flown?;
        }
        Err(_) => return Err(ErrorKind::OutOfMemory.into()),
    }
    println!(rt;
        "autopilots called {} and {} times",
        counters.own(0).of_kind(KIND),
        counters.own(1).of_kind(KIND)
    )
}

/// Flies all frames, halts the second processor after them, and restarts it.
fn fly(
    rt: &HostRuntime,
    spec: &Spec,
    mut one: Live,
    mut two: Live,
    mut racks: Vec<Rack>,
) -> io::Result<()>
    requires one_there { one.proc.0 < 8 }
    requires two_there { two.proc.0 < 8 }
{
    let flown = fly_all(rt, spec, &mut one, &mut two, &mut racks);
    drop(one);
    let spare = racks.pop();
    drop(racks);
    match flown {
        Ok(()) => print_return(rt, two, spare),
        Err(error) => {
            drop((two, spare));
            Err(error)
        }
    }
}

/// Halts a processor after the last frame, and restarts it if there is a spare rack. Prints the halt and the restart.
fn print_return(rt: &HostRuntime, live: Live, spare: Option<Rack>) -> io::Result<()>
    requires { live.proc.0 < 8 }
{
    let halted = live.halt(14);
    println!(rt; "p{} halted in frame {}", halted.proc().0, halted.frame())?;
    match spare {
        Some(rack) => println!(rt; "p{} lives again", halted.restart(rack).proc().0),
        None => Ok(()),
    }
}

/// Flies fourteen frames. Prints the start images, the drafts of three frames, and each area that differs.
fn fly_all(
    rt: &HostRuntime,
    spec: &Spec,
    one: &mut Live,
    two: &mut Live,
    racks: &mut [Rack],
) -> io::Result<()>
    requires one_there { one.old.proc.0 < 8 }
    requires two_there { two.old.proc.0 < 8 }
    ensures { two.new.proc.0 < 8 }
{
    let mut sys = Sys::start(spec);
    let mut images = start_images(&sys);
    println!(rt; "start")?;
    print_images(rt, spec, &images)?;
    for _frame in 0..14u32 {
        let input = input_of(sys.frame);
        let snap = snapshot(spec, &sys, &input, &images);
        one.draft(spec, &snap, &mut images[0]);
        two.draft(spec, &snap, &mut images[1]);
        let row = frame(spec, &mut sys, &input, racks);
        print_frame(rt, spec, &row, &images)?;
        print_areas(rt, &sys, &row, &images)?;
    }
    Ok(())
}

/// Returns the input of a frame. The first alternator has failed from frame 10 on.
fn input_of(frame: u32) -> Input {
    let mut factors = [0; 6];
    if frame >= 10 {
        factors[0] = 1;
    }
    Input {
        factors,
        early: 0,
        late: 0,
        back: 0,
    }
}

/// Returns the snapshot that the processors see in a frame, given the state before the frame and the input of the
/// frame.
fn snapshot(spec: &Spec, sys: &Sys, input: &Input, images: &[Image; 8]) -> Snapshot {
    let factors = input.factors;
    let env = Env {
        up: sys.up,
        factors,
    };
    let keepers = sys.keepers;
    let images = *images;
    Snapshot {
        kernel: KernelImage {
            frame: sys.frame,
            mode: decide(spec, sys, &env),
            env,
            keepers,
            world: sys.world,
        },
        images,
    }
}

/// Returns the start images. The image of each keeper has the areas that the keeper keeps.
fn start_images(sys: &Sys) -> [Image; 8] {
    let mut images = [[0; 64]; 8];
    for a in 0..8 {
        if let Some(keeper) = sys.keepers[a] {
            if keeper.0 < 8 {
                put_area(&mut images[usize::from(keeper.0)], a, &sys.areas[a]);
            }
        }
    }
    images
}

fn put_area(image: &mut Image, a: usize, area: &Area)
    requires { a < 8 }
{
    for i in 0..8 {
        image[8 * a + i] = area[i];
    }
}

/// Prints the drafts of a frame if it is frame 0, 10 or 13.
fn print_frame(rt: &HostRuntime, spec: &Spec, row: &Row, images: &[Image; 8]) -> io::Result<()> {
    if row.frame != 0 && row.frame != 10 && row.frame != 13 {
        return Ok(());
    }
    println!(rt; "frame {}", row.frame)?;
    print_images(rt, spec, images)
}

/// Prints the images of the first two processors.
fn print_images(rt: &HostRuntime, spec: &Spec, images: &[Image; 8]) -> io::Result<()> {
    print_image(rt, spec, 0, &images[0])?;
    print_image(rt, spec, 1, &images[1])
}

/// Compares each area of a row with the slot in the image of the area's keeper. Prints a line for each area that
/// differs.
fn print_areas(rt: &HostRuntime, sys: &Sys, row: &Row, images: &[Image; 8]) -> io::Result<()> {
    for a in 0..8 {
        if let Some(keeper) = sys.keepers[a] {
            if keeper.0 < 8 && slot_in(&images[usize::from(keeper.0)], a as u8) != row.areas[a] {
                println!(rt; "frame {} application {a} differs", row.frame)?;
            }
        }
    }
    Ok(())
}
