//! Readers that read while a mission is flown.

ghost use Rattle.std.specs.Prelude.{◌≡◌};
ghost use Rattle.fault_script.specs.Fits.{Fits};
ghost use Rattle.telemetry_tap.specs.Taps.{IsReaderOf};

use crate::watches::summaries::list_summaries;
use app_model::empty_boxes;
use coverage_check::Mission;
use mission_gen::{generate, write_mission};
use scram_types::{Flown, Script, Spec};
use std::alloc::{AllocGlobal, Global};
use std::io::{self, ErrorKind};
use std::rt::HostRuntime;
use std::sync::Wait;
use std::thread;
use std::thread::Threads;
use telemetry_tap::{Publisher, Reader, Summary, Tap, Watch};
use test_kit::{fly_alone, given, is_same, mission_of_texts};
use word_deck::WordFlight;

/// The number of reads after which a reader gives up, so that readers do not occupy the processors of a busy machine
/// for long.
const MAX_READS: u32 = 10_000_000;

/// The result of a reader. `right` is `true` if each summary was that of the flight on one thread, and no summary was
/// older than the preceding one. `different` is the number of different summaries, and `frames` is the number of
/// frames of the last summary.
#[derive(Clone, Copy, Debug)]
struct Seen {
    right: bool,
    different: u32,
    frames: u32,
}

/// The result of a flight beside two readers: what was flown, and the result of each reader that had a thread.
#[derive(Drop)]
struct Watched {
    flown: Flown,
    one: Option<Seen>,
    other: Option<Seen>,
}

/// Flies the mission generated from a number while two readers read, and compares each summary that they see with the
/// flight on one thread.
pub fn watch<R: AllocGlobal + Threads + Wait + Sync>(
    rt: &HostRuntime,
    threads: &R,
    number: u32,
) -> io::Result<()> {
    let mission = generated_mission(rt.alloc(), number)?;
    let compared = fly_mission(rt, threads, &mission);
    drop(mission);
    compared
}

/// Returns the mission generated from a number.
fn generated_mission(alloc: Global, number: u32) -> io::Result<Mission> {
    let text = generated_text(alloc, number)?;
    match text.as_str().split_once('\n') {
        Some((spec, script)) => mission_of_texts(alloc, spec, script),
        None => Err(ErrorKind::InvalidData.into()),
    }
}

/// Returns the text of the mission generated from a number, with a line for its specification and one for its script.
fn generated_text(alloc: Global, number: u32) -> io::Result<String> {
    match generate(alloc, number) {
        Ok((spec, script)) => {
            let text = text_of(alloc, &spec, &script);
            drop((spec, script));
            text
        }
        Err(_) => Err(ErrorKind::OutOfMemory.into()),
    }
}

fn text_of(alloc: Global, spec: &Spec, script: &Script) -> io::Result<String>
    requires { Fits spec.now script.now }
{
    let _start = spec.start;
    match String::from_utf8(given(write_mission(alloc, spec, script))?) {
        Ok(text) => Ok(text),
        Err(_) => Err(ErrorKind::InvalidData.into()),
    }
}

fn fly_mission<R: AllocGlobal + Threads + Wait + Sync>(
    rt: &HostRuntime,
    threads: &R,
    mission: &Mission,
) -> io::Result<()> {
    let flown = fly_alone(rt.alloc(), mission)?;
    let compared = fly_beside(rt, threads, mission, &flown);
    drop(flown);
    compared
}

/// Flies a mission while two readers read, and compares the result with `flown`, the result of the flight on one
/// thread.
fn fly_beside<R: AllocGlobal + Threads + Wait + Sync>(
    rt: &HostRuntime,
    threads: &R,
    mission: &Mission,
    flown: &Flown,
) -> io::Result<()> {
    let summaries = list_summaries(rt.alloc(), mission, flown)?;
    let watched = fly_read(threads, mission, &summaries)?;
    let printed = print_watched(rt, &watched, flown);
    drop(watched);
    printed
}

fn fly_read<R: AllocGlobal + Threads + Wait + Sync>(
    threads: &R,
    mission: &Mission,
    summaries: &[Summary],
) -> io::Result<Watched> {
    let boxes = empty_boxes(threads.alloc())?;
    match WordFlight::open(threads.alloc(), mission, boxes) {
        Ok(flight) => read_flight(threads, mission, summaries, flight),
        Err(_) => Err(ErrorKind::OutOfMemory.into()),
    }
}

fn read_flight<'a, R: AllocGlobal + Threads + Wait + Sync>(
    threads: &R,
    mission: &'a Mission,
    summaries: &[Summary],
    flight: WordFlight<'a>,
) -> io::Result<Watched>
    requires { flight.mission.now ≡ mission.now }
{
    match Tap::open(threads.alloc(), mission, 2) {
        Ok((tap, writer, mut readers)) => {
            let Some(one) = readers.pop() else {
                unreachable!()
            };
            let Some(other) = readers.pop() else {
                unreachable!()
            };
            let station = Station {
                tap: &tap,
                summaries,
            };
            let publisher = Publisher { tap: &tap, writer };
            Ok(read_beside(threads, station, flight, publisher, (one, other)))
        }
        Err(_) => {
            drop(flight);
            Err(ErrorKind::OutOfMemory.into())
        }
    }
}

/// Prints whether the watched flight equals `flown`, the flight on one thread, and prints the result of each reader.
fn print_watched(rt: &HostRuntime, watched: &Watched, flown: &Flown) -> io::Result<()> {
    println!(rt; "as on one thread: {}", is_same(&watched.flown, flown))?;
    print_seen(rt, "one", watched.one)?;
    print_seen(rt, "other", watched.other)
}

/// Prints the result of a reader.
fn print_seen(rt: &HostRuntime, name: &str, seen: Option<Seen>) -> io::Result<()> {
    match seen {
        Some(seen) => {
            eprintln!(rt;
                "{name}: {} different summaries, the last of frame {}",
                seen.different, seen.frames
            )?;
            println!(rt; "{name}: right {}", seen.right)
        }
        None => println!(rt; "{name}: no thread"),
    }
}

/// The tap that readers read, and the summaries that they may see.
#[derive(Clone, Copy)]
struct Station<'t, 'a> {
    tap: &'t Tap<'a>,
    summaries: &'t [Summary],
}

/// Flies a mission while two readers read.
fn read_beside<'a, W: Watch, R: Threads + Wait + Sync>(
    rt: &R,
    station: Station<'_, 'a>,
    flight: WordFlight<'a>,
    watch: W,
    readers: (Reader, Reader),
) -> Watched
    requires watched { W.watched watch ≡ flight.mission.now }
    requires taken { W.taken watch ≡ 0 }
    requires one { IsReaderOf station.tap.now readers.0 }
    requires other { IsReaderOf station.tap.now readers.1 }
{
    let (one, other) = readers;
    let Station { tap, summaries } = station;
    thread::scope(
        thread::scope_env(),
        rt,
        |scope| -> Watched
            requires watched { W.watched watch ≡ flight.mission.now }
            requires taken { W.taken watch ≡ 0 }
            requires one { IsReaderOf tap.now one }
            requires other { IsReaderOf tap.now other }
        {
            let mut watch = watch;
            let one = scope.spawn(
                move || -> Seen
                    requires { IsReaderOf tap.now one }
                { read_on(tap, one, summaries) },
            );
            let other = scope.spawn(
                move || -> Seen
                    requires { IsReaderOf tap.now other }
                { read_on(tap, other, summaries) },
            );
            let flown = flight.run_watched(rt, &mut watch).flown;
            let one = match one {
                Ok(handle) => Some(handle.join(rt)),
                Err(_) => None,
            };
            let other = match other {
                Ok(handle) => Some(handle.join(rt)),
                Err(_) => None,
            };
            Watched { flown, one, other }
        },
    )
}

/// Reads until the summary of all frames is read, or gives up after [`MAX_READS`] reads. Returns the result of the
/// reader.
fn read_on(tap: &Tap, mut reader: Reader, summaries: &[Summary]) -> Seen
    requires { IsReaderOf tap.now reader }
{
    let frames = tap.mission().script().frames;
    let mut seen = Seen {
        right: true,
        different: 0,
        frames: 0,
    };
    for _ in 0..MAX_READS {
        let summary = tap.read(&mut reader);
        seen.add(&summary, summaries);
        if summary.frames == frames {
            return seen;
        }
    }
    seen
}

impl Seen {
    /// Adds to the result a summary that the reader has read.
    fn add(&mut self, summary: &Summary, summaries: &[Summary]) {
        if summary.frames < self.frames || !is_listed(summary, summaries) {
            self.right = false;
        }
        if summary.frames != self.frames {
            self.frames = summary.frames;
            self.different = self.different.saturating_add(1);
        }
    }
}

/// Returns `true` if a summary equals the entry of a list at the index of the summary's number of frames.
fn is_listed(summary: &Summary, summaries: &[Summary]) -> bool {
    match summaries.get(summary.frames as usize) {
        Some(listed) => *listed == *summary,
        None => false,
    }
}
