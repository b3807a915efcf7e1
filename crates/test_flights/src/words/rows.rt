//! The flights of a row.

ghost use Rattle.std.specs.Prelude.{◌≡◌, ◌∷◌, [], IfOk};
ghost use Rattle.word_table.specs.Tables.{IsKernelSeatOf, kernel_frame, kernel_steps, mission_in};
ghost use Rattle.test_flights.specs.words.Actors.{ActorsFit, PairFits};

use crate::words::crews::{Actors, Pair, pair_of};
use crate::words::looks::look;
use crate::words::rounds::{fly_rounds, print_turns, repeat_turns};
use app_model::empty_boxes;
use coverage_check::Mission;
use scram_kernel::Kernel;
use scram_types::Row;
use std::alloc::Global;
use std::io::{self, ErrorKind};
use std::rt::HostRuntime;
use test_kit::{fill, fly_alone, line_after, mission_of_texts, number_after};
use word_deck::KernelCrew;
use word_table::{KSeat, Seat, Words};

/// Flies the script of a row for each step below the number in its line `steps N`, and prints the results.
pub fn fly_row(rt: &HostRuntime, text: &str, row: &str) -> io::Result<()> {
    for step in 0..number_after(row, "steps ", 1)? {
        fly_step(rt, text, row, step)?;
    }
    Ok(())
}

fn fly_step(rt: &HostRuntime, text: &str, row: &str, step: u32) -> io::Result<()> {
    let mission = mission_of(rt, text, row, step)?;
    let flown = open(rt, &mission, row);
    drop(mission);
    flown
}

// Returns the mission of a row. The step replaces `STEP` in the row's script.
fn mission_of(rt: &HostRuntime, text: &str, row: &str, step: u32) -> io::Result<Mission> {
    let script = line_after(row, "= ").unwrap_or("");
    let script = fill(rt.alloc(), script, "STEP", step)?;
    mission_of_texts(rt.alloc(), text, script.as_str())
}

// Opens the table of words of a mission, and flies the mission as the lines of a row request.
fn open(rt: &HostRuntime, mission: &Mission, row: &str) -> io::Result<()> {
    let boxes = empty_boxes(rt.alloc())?;
    match Words::open(rt.alloc(), mission) {
        Ok((words, kseat, seats)) => {
            let pair = pair_of(&words.table, seats, boxes)?;
            fly(rt, words, kseat, pair, row)
        }
        Err(_) => Err(ErrorKind::OutOfMemory.into()),
    }
}

fn fly(rt: &HostRuntime, words: Words, kseat: KSeat, pair: Pair, row: &str) -> io::Result<()>
    requires kernel { IsKernelSeatOf words.table kseat }
    requires frame { kernel_frame kseat ≡ 0 }
    requires steps { kernel_steps kseat ≡ 0 }
    requires fits { PairFits words.table pair }
{
    let mission = words.mission;
    mission.holds();
    match Kernel::new(rt.alloc(), mission.spec(), mission.script()) {
        Ok(kernel) => {
            let kernel = KernelCrew::kernel(mission, kseat, kernel);
            let mut actors = Actors { pair, kernel };
            match fly_actors(rt, &words, &mut actors, row) {
                Ok(()) => close(rt, words, actors, row),
                Err(error) => {
                    drop((words, actors));
                    Err(error)
                }
            }
        }
        Err(_) => Err(ErrorKind::OutOfMemory.into()),
    }
}

// Makes the turns that the lines of a row request.
fn fly_actors(rt: &HostRuntime, words: &Words, actors: &mut Actors, row: &str) -> io::Result<()>
    requires { ActorsFit words.now.table words.now.mission.now actors.old }
    ensures { ActorsFit words.now.table words.now.mission.now actors.new }
{
    fly_repeated(words, actors, row)?;
    fly_printed(rt, words, actors, row)?;
    fly_ordered(rt, words, actors, row)
}

// Makes the turns of the line `rounds N WHO ..`, if the row has one.
fn fly_repeated(words: &Words, actors: &mut Actors, row: &str) -> io::Result<()>
    requires { ActorsFit words.now.table words.now.mission.now actors.old }
    ensures { ActorsFit words.now.table words.now.mission.now actors.new }
{
    match line_after(row, "rounds ") {
        Some(line) => repeat_turns(words.mission, &words.table, actors, line),
        None => Ok(()),
    }
}

// Makes the turns of the line `turns WHO ..` and prints their results, if the row has one.
fn fly_printed(rt: &HostRuntime, words: &Words, actors: &mut Actors, row: &str) -> io::Result<()>
    requires { ActorsFit words.now.table words.now.mission.now actors.old }
    ensures { ActorsFit words.now.table words.now.mission.now actors.new }
{
    match line_after(row, "turns ") {
        Some(names) => print_turns(rt, words.mission, &words.table, actors, names),
        None => Ok(()),
    }
}

// Makes the turns of the line `order WHO ..` to the end of the flight, and compares the rows with those of the flight
// on one thread, if the row has such a line.
fn fly_ordered(rt: &HostRuntime, words: &Words, actors: &mut Actors, row: &str) -> io::Result<()>
    requires { ActorsFit words.now.table words.now.mission.now actors.old }
    ensures { ActorsFit words.now.table words.now.mission.now actors.new }
{
    let Some(names) = line_after(row, "order ") else {
        return Ok(());
    };
    let rounds = fly_rounds(words.mission, &words.table, actors, names)?;
    print!(rt; "rounds {rounds} ")?;
    print_compared(rt, words.mission, actors.kernel.rows())
}

// Compares rows with those of the flight on one thread, and prints the result.
fn print_compared(rt: &HostRuntime, mission: &Mission, rows: &[Row]) -> io::Result<()> {
    let flown = fly_alone(rt.alloc(), mission)?;
    let same = flown.rows.items() == rows;
    drop(flown);
    if same {
        println!(rt; "rows {} of one thread", rows.len())
    } else {
        println!(rt; "other rows")
    }
}

// Lets the second processor look if the row has the line `look`. Otherwise closes the table of words, and prints the
// marks.
fn close(rt: &HostRuntime, words: Words, actors: Actors, row: &str) -> io::Result<()>
    requires { ActorsFit words.table (mission_in words.table) actors }
{
    let Actors { pair, kernel } = actors;
    let Pair { first, second } = pair;
    let mut two = second.seat;
    if line_after(row, "look").is_some() {
        return look(rt, &words, &mut two);
    }
    let seats = list_seats(rt.alloc(), first.seat, two)?;
    let last = words.close(kernel.kseat, seats);
    let [one, two, ..] = last.marks;
    println!(rt; "marks {one} {two}")
}

fn list_seats(alloc: Global, first: Seat, second: Seat) -> io::Result<Vec<Seat>>
    ensures { IfOk result (λ seats. seats.items ≡ first ∷ second ∷ []) }
{
    let mut seats = Vec::with_capacity(alloc, 2)?;
    seats.push(first)?;
    seats.push(second)?;
    Ok(seats)
}
