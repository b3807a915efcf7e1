//! The flight of the mission whose files are beside the program.

ghost use Rattle.std.specs.Prelude.{◌≡◌, ◌<◌, ◌^◌, length, vec_len};

use app_model::racks::empty_racks;
use app_model::{Boxes, Rack, racks_fit};
use coverage_check::Mission;
use scram_io::{RealSink, Sink};
use scram_types::{Flown, Spec};
use std::alloc::AllocGlobal;
use std::fs;
use std::io::{self, ErrorKind};
use std::rt::HostRuntime;
use std::sync::Wait;
use std::thread::Threads;
use test_kit::mission_of_texts;
use trace_text::put_trace;
use word_deck::WordFlight;

/// Flies the mission whose files are beside the program with the boxes in `racks`, and prints the trace. Refuses the
/// boxes if a box is not of the kind that its place in the rack requires.
pub fn fly<R: AllocGlobal + Threads + Wait + Sync>(
    rt: &HostRuntime,
    threads: &R,
    racks: Vec<Rack>,
) -> io::Result<()> {
    if !racks_fit(&racks) {
        return println!(rt; "refused: racks");
    }
    let spec = fs::read_to_string(rt, "uav_high.json")?;
    let script = fs::read_to_string(rt, "six_frames.json")?;
    let mission = mission_of_texts(rt.alloc(), spec.as_str(), script.as_str())?;
    fly_mission(rt, threads, &mission, racks)
}

fn fly_mission<R: AllocGlobal + Threads + Wait + Sync>(
    rt: &HostRuntime,
    threads: &R,
    mission: &Mission,
    racks: Vec<Rack>,
) -> io::Result<()>
    requires { vec_len racks ≡ 8 }
{
    let _frames = mission.script().frames;
    let spares = empty_racks(rt.alloc())?;
    match WordFlight::open(rt.alloc(), mission, Boxes { racks, spares }) {
        Ok(flight) => print_trace(rt, mission.spec(), &flight.run(threads).flown),
        Err(_) => Err(ErrorKind::OutOfMemory.into()),
    }
}

/// Prints the trace of a flight.
fn print_trace(rt: &HostRuntime, spec: &Spec, flown: &Flown) -> io::Result<()>
    requires rows { length flown.now.rows < 2 ^ 32 }
    requires reports { length flown.now.reports < 2 ^ 32 }
{
    let Ok(mut out) = RealSink::new(rt.alloc(), rt) else {
        return Err(ErrorKind::OutOfMemory.into());
    };
    let put = put_trace(&mut out, spec, flown.rows.items(), flown.reports.items());
    match (put, out.flush()) {
        (Ok(()), Ok(())) => Ok(()),
        _ => Err(ErrorKind::WriteZero.into()),
    }
}
