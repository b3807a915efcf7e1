//! Flights in which boxes of two processors wait for one another. Such a flight ends in time only if both processors
//! have a thread.

use crate::decks::{Deck, fly_with};
use crate::documents::read_mission;
use app_model::{Boxes, Rack, racks_fit};
use coverage_check::Mission;
use scram_types::Flown;
use std::alloc::AllocGlobal;
use std::io::{self, ErrorKind};
use std::rt::HostRuntime;
use std::sync::Wait;
use std::thread::Threads;
use test_kit::{Counters, counted_racks_and_spares, fly_alone, is_same};

/// Flies a mission over words and over a lock with boxes that count their calls, and prints the counts. The names of
/// the mission's files are in `words`.
pub fn meet<R: AllocGlobal + Threads + Wait + Sync>(
    rt: &HostRuntime,
    threads: &R,
    words: &str,
) -> io::Result<()> {
    let mission = read_mission(rt, words)?;
    let met = meet_in(rt, threads, &mission);
    drop(mission);
    met
}

fn meet_in<R: AllocGlobal + Threads + Wait + Sync>(
    rt: &HostRuntime,
    threads: &R,
    mission: &Mission,
) -> io::Result<()> {
    let wanted = fly_alone(threads.alloc(), mission)?;
    let met = meet_over_both(rt, threads, mission, &wanted);
    drop(wanted);
    met
}

fn meet_over_both<R: AllocGlobal + Threads + Wait + Sync>(
    rt: &HostRuntime,
    threads: &R,
    mission: &Mission,
    wanted: &Flown,
) -> io::Result<()> {
    meet_over(rt, threads, mission, Deck::Words, wanted)?;
    meet_over(rt, threads, mission, Deck::Lock, wanted)
}

fn meet_over<R: AllocGlobal + Threads + Wait + Sync>(
    rt: &HostRuntime,
    threads: &R,
    mission: &Mission,
    deck: Deck,
    wanted: &Flown,
) -> io::Result<()> {
    let counters = Counters::new(threads.alloc())?;
    let flown = fly_counted(threads, mission, deck, &counters)?;
    let same = is_same(&flown, wanted);
    drop(flown);
    println!(rt; "{deck:?}, as on one thread: {same}")?;
    counters.print(rt)
}

fn fly_counted<R: AllocGlobal + Threads + Wait + Sync>(
    rt: &R,
    mission: &Mission,
    deck: Deck,
    counters: &Counters,
) -> io::Result<Flown> {
    let (racks, spares) = counted_racks_and_spares!(rt, counters);
    fly_fitting(rt, mission, deck, racks, spares)
}

/// Flies a mission with the boxes in `racks` and `spares`. Returns an error if a box is not of the kind of its place
/// in the rack.
fn fly_fitting<R: AllocGlobal + Threads + Wait + Sync>(
    rt: &R,
    mission: &Mission,
    deck: Deck,
    racks: Vec<Rack>,
    spares: Vec<Rack>,
) -> io::Result<Flown> {
    if !racks_fit(&racks) || !racks_fit(&spares) {
        return Err(ErrorKind::InvalidInput.into());
    }
    fly_with(rt, mission, deck, Boxes { racks, spares })
}
