//! Flights on threads, compared with the flight on one thread.

use crate::decks::fly_over_words;
use crate::documents::{Documents, read_documents, read_mission};
use crate::histories::{fly_again, fly_and_write};
use app_model::empty_boxes;
use coverage_check::Mission;
use scram_types::Flown;
use std::alloc::AllocGlobal;
use std::io;
use std::rt::HostRuntime;
use std::sync::Wait;
use std::thread::Threads;
use test_kit::{fly_alone, is_same, number, split_word};

/// The number of times that each mission is flown with a thread for each processor.
const TIMES: u32 = 50;

/// The numbers of flights with the expected result: over words, over a lock, and flown again by the histories of the
/// flights over the lock.
#[derive(Clone, Copy, Debug)]
struct Counts {
    words: u32,
    lock: u32,
    again: u32,
}

/// A series of flights of one mission. `whom` describes the processors that get a thread. `asked` marks these
/// processors by index, or is `None` for all processors. `times` is the number of flights.
#[derive(Clone, Copy, Debug)]
struct Trial<'a> {
    whom: &'a str,
    asked: Option<[bool; 8]>,
    times: u32,
}

impl<'a> Trial<'a> {
    /// Returns a trial of one flight with threads for the processors in `asked`.
    fn once(whom: &'a str, asked: [bool; 8]) -> Trial<'a> {
        Trial {
            whom,
            asked: Some(asked),
            times: 1,
        }
    }
}

impl Counts {
    fn new() -> Counts {
        Counts {
            words: 0,
            lock: 0,
            again: 0,
        }
    }

    fn print(&self, rt: &HostRuntime, whom: &str, times: u32) -> io::Result<()> {
        let Counts { words, lock, again } = *self;
        println!(rt;
            "{whom}: over words {words} of {times}, over the lock {lock} of {times}, by its history {again} of {times}"
        )
    }
}

/// Flies a mission on one thread and on threads, over words and over a lock, and prints the results. The names of the
/// mission's files are in `words`.
pub fn fly<R: AllocGlobal + Threads + Wait + Sync>(
    rt: &HostRuntime,
    threads: &R,
    words: &str,
) -> io::Result<()> {
    let mission = read_mission(rt, words)?;
    let flown = fly_mission(rt, threads, &mission);
    drop(mission);
    flown
}

fn fly_mission<R: AllocGlobal + Threads + Wait + Sync>(
    rt: &HostRuntime,
    threads: &R,
    mission: &Mission,
) -> io::Result<()> {
    let wanted = fly_alone(threads.alloc(), mission)?;
    let printed = fly_trials(rt, threads, mission, &wanted);
    drop(wanted);
    printed
}

fn fly_trials<R: AllocGlobal + Threads + Wait + Sync>(
    rt: &HostRuntime,
    threads: &R,
    mission: &Mission,
    wanted: &Flown,
) -> io::Result<()> {
    print_wanted(rt, wanted)?;
    let each = Trial {
        whom: "a thread for each",
        asked: None,
        times: TIMES,
    };
    let none = Trial::once("none", [false; 8]);
    let first = Trial::once("all but the first", all_but(0));
    let last = Trial::once(
        "all but the last",
        all_but(mission.spec().procs.items().len() - 1),
    );
    print_flights(rt, threads, mission, wanted, each)?;
    print_flights(rt, threads, mission, wanted, none)?;
    print_flights(rt, threads, mission, wanted, first)?;
    print_flights(rt, threads, mission, wanted, last)
}

/// Flies a mission as `trial` describes, and prints how many of the results equal `wanted`.
fn print_flights<R: AllocGlobal + Threads + Wait + Sync>(
    rt: &HostRuntime,
    threads: &R,
    mission: &Mission,
    wanted: &Flown,
    trial: Trial,
) -> io::Result<()> {
    count_flights(threads, mission, wanted, trial)?.print(rt, trial.whom, trial.times)
}

fn count_flights<R: AllocGlobal + Threads + Wait + Sync>(
    rt: &R,
    mission: &Mission,
    wanted: &Flown,
    trial: Trial,
) -> io::Result<Counts> {
    let mut counts = Counts::new();
    for _ in 0..trial.times {
        fly_both(rt, mission, trial.asked, wanted, &mut counts)?;
    }
    Ok(counts)
}

/// Flies a mission for each step below a count, and prints how often the result equals the result on one thread with
/// step 0. The count and the names of the mission's files are in `words`.
pub fn fly_steps<R: AllocGlobal + Threads + Wait + Sync>(
    rt: &HostRuntime,
    threads: &R,
    words: &str,
) -> io::Result<()> {
    let (count, names) = split_word(words);
    let count = number(count)?;
    let documents = read_documents(rt, names)?;
    let flown = fly_each_step(rt, threads, count, &documents);
    drop(documents);
    flown
}

fn fly_each_step<R: AllocGlobal + Threads + Wait + Sync>(
    rt: &HostRuntime,
    threads: &R,
    count: u32,
    documents: &Documents,
) -> io::Result<()> {
    let wanted = fly_first_step(threads, documents)?;
    let printed = compare_steps(rt, threads, count, documents, &wanted);
    drop(wanted);
    printed
}

fn compare_steps<R: AllocGlobal + Threads + Wait + Sync>(
    rt: &HostRuntime,
    threads: &R,
    count: u32,
    documents: &Documents,
    wanted: &Flown,
) -> io::Result<()> {
    print_wanted(rt, wanted)?;
    let mut counts = Counts::new();
    for step in 0..count {
        fly_step(threads, documents, step, wanted, &mut counts)?;
    }
    counts.print(rt, "a thread for each", count)
}

fn fly_first_step<R: AllocGlobal + Threads + Wait + Sync>(
    rt: &R,
    documents: &Documents,
) -> io::Result<Flown> {
    let mission = documents.mission(rt.alloc(), 0)?;
    let flown = fly_alone(rt.alloc(), &mission);
    drop(mission);
    flown
}

fn fly_step<R: AllocGlobal + Threads + Wait + Sync>(
    rt: &R,
    documents: &Documents,
    step: u32,
    wanted: &Flown,
    counts: &mut Counts,
) -> io::Result<()> {
    let mission = documents.mission(rt.alloc(), step)?;
    let flown = fly_both(rt, &mission, None, wanted, counts);
    drop(mission);
    flown
}

fn print_wanted(rt: &HostRuntime, wanted: &Flown) -> io::Result<()> {
    println!(rt;
        "frames {} reconfigurations {}",
        wanted.rows.items().len(),
        wanted.reports.items().len()
    )
}

/// Returns the set of all processors except the processor at index `place`.
fn all_but(place: usize) -> [bool; 8] {
    let mut asked = [true; 8];
    if place < 8 {
        asked[place] = false;
    }
    asked
}

/// Flies a mission over words, over a lock, and again by the history of the flight over the lock. Counts in `counts`
/// each of the three results that equals `wanted`.
fn fly_both<R: AllocGlobal + Threads + Wait + Sync>(
    rt: &R,
    mission: &Mission,
    asked: Option<[bool; 8]>,
    wanted: &Flown,
    counts: &mut Counts,
) -> io::Result<()> {
    let words = fly_asked(rt, mission, asked)?;
    count(&mut counts.words, &words, wanted);
    drop(words);
    fly_twice(rt, mission, asked, wanted, counts)
}

fn fly_asked<R: AllocGlobal + Threads + Wait + Sync>(
    rt: &R,
    mission: &Mission,
    asked: Option<[bool; 8]>,
) -> io::Result<Flown> {
    let boxes = empty_boxes(rt.alloc())?;
    fly_over_words(rt, mission, asked, boxes)
}

fn fly_twice<R: AllocGlobal + Threads + Wait + Sync>(
    rt: &R,
    mission: &Mission,
    asked: Option<[bool; 8]>,
    wanted: &Flown,
    counts: &mut Counts,
) -> io::Result<()> {
    let (lock, history) = fly_and_write(rt, mission, asked)?;
    count(&mut counts.lock, &lock, wanted);
    drop(lock);
    let again = fly_again(rt, mission, &history)?;
    count(&mut counts.again, &again, wanted);
    Ok(())
}

fn count(same: &mut u32, flown: &Flown, wanted: &Flown) {
    if is_same(flown, wanted) {
        *same = same.saturating_add(1);
    }
}
