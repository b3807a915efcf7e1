//! Processors that fly on threads of their own. A thread returns only the seat, since a thread handle may not return
//! boxes. Therefore the boxes of each processor are in a cell. The processor's thread takes the boxes from the cell,
//! or the caller takes them if no thread can be created.

ghost use Rattle.std.specs.Prelude.{◌≡◌, IfErr, IfOk};
ghost use Rattle.fail_stop.specs.Events.{At};
ghost use Rattle.word_table.specs.Tables.{IsSeatOf, mission_in, seat_place, proc_of};
ghost use Rattle.word_deck.specs.Crews.{IsCrewOf};
ghost use Rattle.word_deck.specs.Landing.{IsLanded, Lands};

use crate::crews::Crew;
use crate::turns::Turn;
use app_model::Rack;
use app_model::racks::empty_rack;
use coverage_check::Mission;
use std::alloc::Global;
use std::snapshot::Snapshot;
use std::sync::{Mutex, Wait};
use std::thread::{Promise, PromisedHandle, Scope, Threads};
use word_table::{Seat, WordTable};

/// The boxes of a processor, and the boxes for its restart.
#[derive(Drop)]
pub(crate) struct RackPair {
    pub(crate) rack: Rack,
    pub(crate) spare: Rack,
}

/// A cell that holds the boxes of a processor until the processor flies.
#[derive(Drop)]
pub(crate) struct RackCell {
    pair: Mutex<Option<RackPair>>,
    alloc: Global,
}

impl RackCell {
    /// Returns a cell that holds `pair`, or an empty cell if `pair` is `None`.
    pub(crate) fn new(alloc: Global, pair: Option<RackPair>) -> RackCell {
        RackCell {
            pair: Mutex::new(pair),
            alloc,
        }
    }

    // Takes the pair out of the cell and returns it, or returns `None` if the cell is empty.
    fn take<R: Wait>(&self, rt: &R) -> Option<RackPair> {
        self.pair.lock(rt).take()
    }

    // Replaces the content of the cell by `pair`. The cell is empty if `pair` is `None`.
    fn put<R: Wait>(&self, rt: &R, pair: Option<RackPair>) {
        *self.pair.lock(rt) = pair;
    }
}

/// The seat that a processor returns, and whether the processor has flown.
#[derive(Drop)]
pub(crate) struct Landing {
    pub(crate) seat: Seat,
    pub(crate) flown: bool,
}

/// The promise of the thread of a processor. It has the table, and the seat with which the processor started. The
/// thread promises that the processor has landed, or that it has not flown and returns that seat.
#[derive(Drop)]
pub(crate) struct Lander(Snapshot<WordTable>, Snapshot<Seat>);

impl Promise<Landing> for Lander {
    ghost kept_by = { λ promise landing. Lands promise.0.value promise.1.value landing };
}

/// The values that the actors of a flight share: the words, a cell for each processor, and for each processor whether
/// it is to fly on a thread.
#[derive(Drop)]
pub(crate) struct Resources {
    pub(crate) words: WordTable,
    pub(crate) cells: [RackCell; 8],
    pub(crate) asked: [bool; 8],
}

/// A mission, and the values that its actors share.
#[derive(Clone, Copy)]
pub(crate) struct Shared<'a> {
    pub(crate) mission: &'a Mission,
    pub(crate) resources: &'a Resources,
}

/// The values with which one processor flies: the mission, the words, the cell with the processor's boxes, and
/// whether the processor is to fly on a thread.
#[derive(Clone, Copy)]
pub(crate) struct Site<'a> {
    pub(crate) mission: &'a Mission,
    pub(crate) words: &'a WordTable,
    pub(crate) cell: &'a RackCell,
    pub(crate) asked: bool,
}

/// Makes the turns of a processor until one is `Finished`, and returns the processor's seat.
pub(crate) fn fly_crew<R: Wait>(
    rt: &R,
    mission: &Mission,
    words: &WordTable,
    mut crew: Crew,
) -> Seat
    requires mission { mission_in words.now ≡ mission.now }
    requires fits { IsCrewOf words.now crew }
    ensures { IsLanded words.now (proc_of crew.seat) result }
{
    for _ in rt.forever() {
        match crew.turn(mission, words) {
            Turn::Worked => {}
            Turn::NotYet => words.rest(rt, &crew.seat),
            Turn::Finished => {
                let Crew {
                    seat,
                    flyer: _,
                    snap: _,
                    image: _,
                } = crew;
                return seat;
            }
        }
    }
    unreachable!()
}

/// Starts a thread for a processor and returns the handle of the thread. If no thread can be created, leaves the
/// boxes in the cell and returns, as the error, a landing with the seat and with `flown` set to `false`.
pub(crate) fn start<'s, E, R: Wait + Threads + Sync>(
    scope: &Scope<'s, E>,
    rt: &'s R,
    site: &Site<'s>,
    seat: Seat,
) -> Result<PromisedHandle<Landing, Lander>, Landing>
    requires mission { mission_in site.now.words.now ≡ site.now.mission.now }
    requires seat { IsSeatOf site.now.words.now seat }
    requires opening { seat_place seat ≡ At 0 0 }
    ensures thread { IfOk result (λ handle. (handle.promise.0.value ≡ site.now.words.now) × (handle.promise.1.value ≡ seat)) }
    ensures back { IfErr result (λ landing. Lands site.now.words.now seat landing) }
{
    let Site {
        mission,
        words,
        cell,
        asked: _,
    } = *site;
    let promise = Lander(Snapshot::of(words), Snapshot::of(&seat));
    let spawned = scope.spawn_with(
        promise,
        move || -> Landing
            requires mission { mission_in words.now ≡ mission.now }
            requires seat { IsSeatOf words.now seat }
            requires opening { seat_place seat ≡ At 0 0 }
            ensures { Lands words.entry.now seat result }
        { fly_seat(rt, mission, words, cell, seat) },
    );
    match spawned {
        Ok(handle) => Ok(handle),
        Err(refused) => {
            // The closure finds no pair in the cell. Therefore it returns the seat and flies nothing.
            let pair = cell.take(rt);
            let landing = (refused.value)();
            cell.put(rt, pair);
            Err(landing)
        }
    }
}

// Flies the processor of `seat` with the boxes from `cell`. If the cell is empty, returns a landing with the
// unchanged seat and with `flown` set to `false`.
#[tactic(auto, using(crate::proofs::Units::few))]
fn fly_seat<R: Wait>(
    rt: &R,
    mission: &Mission,
    words: &WordTable,
    cell: &RackCell,
    seat: Seat,
) -> Landing
    requires mission { mission_in words.now ≡ mission.now }
    requires seat { IsSeatOf words.now seat }
    requires opening { seat_place seat ≡ At 0 0 }
    ensures { Lands words.now seat result }
{
    match cell.take(rt) {
        Some(pair) => {
            let RackPair { rack, spare } = pair;
            let crew = Crew::processor(seat, rack, spare);
            Landing {
                seat: fly_crew(rt, mission, words, crew),
                flown: true,
            }
        }
        None => Landing { seat, flown: false },
    }
}

/// Returns the processor of `seat`, with the boxes from `cell`. There is no proof that the cell contains boxes. If
/// the cell is empty, the processor flies with racks without boxes.
#[tactic(auto, using(crate::proofs::Units::few))]
pub(crate) fn crew_from<R: Wait>(rt: &R, words: &WordTable, cell: &RackCell, seat: Seat) -> Crew
    requires seat { IsSeatOf words.now seat }
    requires opening { seat_place seat ≡ At 0 0 }
    ensures fits { IsCrewOf words.now result }
    ensures proc { proc_of result.seat ≡ proc_of seat }
{
    match cell.take(rt) {
        Some(pair) => {
            let RackPair { rack, spare } = pair;
            Crew::processor(seat, rack, spare)
        }
        None => Crew::processor(seat, empty_rack(cell.alloc), empty_rack(cell.alloc)),
    }
}

/// Returns the seat of a processor once the processor has landed. If the processor has not flown, the caller flies it
/// with the boxes from the cell. `was` is the seat with which the processor started.
pub(crate) fn land<R: Wait>(rt: &R, site: &Site<'_>, landing: Landing, was: Snapshot<Seat>) -> Seat
    requires mission { mission_in site.now.words.now ≡ site.now.mission.now }
    requires lands { Lands site.now.words.now was.value landing }
    requires seat { IsSeatOf site.now.words.now was.value }
    requires opening { seat_place was.value ≡ At 0 0 }
    ensures { IsLanded site.now.words.now (proc_of was.value) result }
{
    if landing.flown {
        return landing.seat;
    }
    let crew = crew_from(rt, site.words, site.cell, landing.seat);
    fly_crew(rt, site.mission, site.words, crew)
}
