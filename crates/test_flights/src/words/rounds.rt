//! Turns of two processors and of the kernel on one thread.

ghost use Rattle.test_flights.specs.words.Actors.{ActorsFit};

use crate::words::crews::Actors;
use coverage_check::Mission;
use std::io::{self, ErrorKind};
use std::rt::HostRuntime;
use test_kit::{number, split_word};
use word_deck::Turn;
use word_table::WordTable;

/// The maximum number of rounds. Each flight of a row ends in fewer rounds.
const ROUNDS: u32 = 100_000;

/// Makes a turn of each of the named actors, in order, and prints the results.
pub fn print_turns(
    rt: &HostRuntime,
    mission: &Mission,
    words: &WordTable,
    actors: &mut Actors,
    names: &str,
) -> io::Result<()>
    requires { ActorsFit words.now mission.now actors.old }
    ensures { ActorsFit words.now mission.now actors.new }
{
    for name in names.split(' ') {
        let turn = make_turn(mission, words, actors, name)?;
        println!(rt; "{name} {turn:?}")?;
    }
    Ok(())
}

/// Makes a turn of each of the named actors, in order, a number of times. `line` has the form `TIMES NAME ..`.
pub fn repeat_turns(
    mission: &Mission,
    words: &WordTable,
    actors: &mut Actors,
    line: &str,
) -> io::Result<()>
    requires { ActorsFit words.now mission.now actors.old }
    ensures { ActorsFit words.now mission.now actors.new }
{
    let (times, names) = split_word(line);
    for _time in 0..number(times)? {
        let _finished = make_round(mission, words, actors, names)?;
    }
    Ok(())
}

/// Makes rounds of turns of the named actors until each turn of a round returns `Finished`, and returns the number of
/// rounds. Returns an error if this takes more than `ROUNDS` rounds.
pub fn fly_rounds(
    mission: &Mission,
    words: &WordTable,
    actors: &mut Actors,
    names: &str,
) -> io::Result<u32>
    requires { ActorsFit words.now mission.now actors.old }
    ensures { ActorsFit words.now mission.now actors.new }
{
    for round in 0..ROUNDS {
        if make_round(mission, words, actors, names)? {
            return Ok(round + 1);
        }
    }
    Err(ErrorKind::TimedOut.into())
}

// Makes a turn of each of the named actors, in order, and returns `true` if each of them returns `Finished`.
fn make_round(
    mission: &Mission,
    words: &WordTable,
    actors: &mut Actors,
    names: &str,
) -> io::Result<bool>
    requires { ActorsFit words.now mission.now actors.old }
    ensures { ActorsFit words.now mission.now actors.new }
{
    let mut finished = true;
    for name in names.split(' ') {
        if make_turn(mission, words, actors, name)? != Turn::Finished {
            finished = false;
        }
    }
    Ok(finished)
}

// Makes a turn of the named actor, and returns its result.
fn make_turn(
    mission: &Mission,
    words: &WordTable,
    actors: &mut Actors,
    name: &str,
) -> io::Result<Turn>
    requires { ActorsFit words.now mission.now actors.old }
    ensures { ActorsFit words.now mission.now actors.new }
{
    match name {
        "p0" => Ok(actors.pair.first.turn(mission, words)),
        "p1" => Ok(actors.pair.second.turn(mission, words)),
        "kernel" => Ok(actors.kernel.turn(words)),
        _ => Err(ErrorKind::InvalidInput.into()),
    }
}
