//! The actors of a flight of `uav`: its two processors with their racks, and the kernel.

ghost use Rattle.std.specs.Prelude.{◌≡◌, IfOk, IfSome, Some};
ghost use Rattle.fail_stop.specs.Events.{At};
ghost use Rattle.word_table.specs.Tables.{AreOpening, AreSeatsOf, IsSeatOf, seat_place};
ghost use Rattle.word_deck.specs.Crews.{IsCrewOf};
ghost use Rattle.test_flights.specs.words.Actors.{PairFits};

use app_model::{Boxes, Rack};
use std::io::{self, ErrorKind};
use word_deck::{Crew, KernelCrew};
use word_table::{Seat, WordTable};

/// The crews of the two processors.
#[derive(Drop)]
pub struct Pair {
    pub first: Crew,
    pub second: Crew,
}

/// The two processors and the kernel.
#[derive(Drop)]
pub struct Actors<'a> {
    pub pair: Pair,
    pub kernel: KernelCrew<'a>,
}

/// Returns the crews of two processors before the first frame, with racks and spare racks from the ends of the lists
/// in `boxes`. Returns an error if there are not two seats.
pub fn pair_of(words: &WordTable, mut seats: Vec<Seat>, boxes: Boxes) -> io::Result<Pair>
    requires seats { AreSeatsOf words.now seats.items }
    requires opening { AreOpening seats.items }
    ensures { IfOk result (λ pair. PairFits words.now pair) }
{
    if seats.len() != 2 {
        return Err(ErrorKind::InvalidInput.into());
    }
    let (two, one) = (seats.pop(), seats.pop());
    let Boxes {
        mut racks,
        mut spares,
    } = boxes;
    let first = crew_of(words, one, racks.pop(), spares.pop())?;
    let second = crew_of(words, two, racks.pop(), spares.pop())?;
    Ok(Pair { first, second })
}

fn crew_of(
    words: &WordTable,
    seat: Option<Seat>,
    rack: Option<Rack>,
    spare: Option<Rack>,
) -> io::Result<Crew>
    requires seat { IfSome seat (IsSeatOf words.now) }
    requires opening { IfSome seat (λ seat. seat_place seat ≡ At 0 0) }
    ensures seat { IfOk result (λ crew. Some crew.seat ≡ seat) }
    ensures fits { IfOk result (λ crew. IsCrewOf words.now crew) }
{
    match (seat, rack, spare) {
        (Some(seat), Some(rack), Some(spare)) => Ok(Crew::processor(seat, rack, spare)),
        _ => Err(ErrorKind::InvalidInput.into()),
    }
}
