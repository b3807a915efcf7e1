//! The images that a processor reads at the beginning of a frame.

ghost use Rattle.std.specs.Prelude.{◌≡◌, ◌<◌, length};
ghost use Rattle.word_table.specs.Actors.{steps_of};
ghost use Rattle.word_table.specs.Tables.{IsSeatOf, mission_in, seat_place};

use scram_types::ProcId;
use std::io;
use std::rt::HostRuntime;
use test_kit::print_image;
use word_table::{Seat, Words};

/// Starts the next frame of the seat's processor, reads the image of the first processor, and prints the areas in the
/// image. If the processor has halted or has flown all frames, prints only that it does not wait. If the frame is not
/// released, prints only this fact.
#[tactic(auto, using(crate::proofs::words::Looking::waits_at, word_deck::proofs::Steps::looks))]
pub fn look(rt: &HostRuntime, words: &Words, seat: &mut Seat) -> io::Result<()>
    requires seat { IsSeatOf words.now.table seat.old }
    requires begin { steps_of (seat_place seat.old) ≡ 0 }
    requires some { 0 < length (mission_in words.now.table).spec.procs }
{
    let mission = words.mission();
    let frames = mission.script().frames;
    if seat.halted() || seat.frame() >= frames {
        return println!(rt; "does not wait");
    }
    match words.started(seat) {
        Some(_) => {
            let mut image = [0; 64];
            words.look(seat, ProcId(0), &mut image);
            print_image(rt, mission.spec(), 0, &image)
        }
        None => println!(rt; "not released"),
    }
}
