//! Flights of missions on shared words.

ghost use Rattle.std.specs.Prelude.{◌≡◌, ◌≤◌, IfOk, length, vec_capacity, vec_len};
ghost use Rattle.trace_props.specs.Missions.{IsTraceOf};
ghost use Rattle.word_table.specs.Tables.{AreSeatsOf, IsKernelSeatOf, mission_in};
ghost use Rattle.word_deck.specs.Flights.{AreAtTable, AreLanded, AreOpen, IsAtTable};
ghost use Rattle.word_deck.specs.Kernels.{IsKernelDone, frames_noted};

use crate::kernels::KernelCrew;
use crate::landings::{RackCell, RackPair, Resources, Shared};
use crate::scopes::{Roster, fly};
use crate::watched::WatchedKernel;
use app_model::{Boxes, Rack};
use coverage_check::Mission;
use scram_kernel::Kernel;
use scram_types::{Flown, NoMemory};
use std::alloc::Global;
use std::sync::Wait;
use std::thread;
use std::thread::Threads;
use std::vec::IntoIter;
use telemetry_tap::Watch;
use trace_props::missions::reconfigurations_are_assured;
use word_table::{KSeat, Seat, WordTable, Words};

/// A flight of a mission, ready to start, with all memory that the flight needs. It has the words, the kernel, the
/// seats and the boxes of all processors, and room for the seats of the landed processors.
pub struct WordFlight<'a> {
    mission: &'a Mission,
    words: WordTable,
    kernel: KernelCrew<'a>,
    roster: Roster,
    cells: [RackCell; 8],
    ghost of: { mission_in words ≡ mission.now },
    ghost same: { kernel.mission.now ≡ mission.now },
    ghost seated: { IsAtTable words kernel.kseat },
    ghost fresh: { frames_noted (length mission.now.spec.procs) kernel.kseat ≡ 0 },
    ghost waiting: { AreAtTable words roster.waiting.items },
    ghost all: { vec_len roster.waiting ≡ length mission.now.spec.procs },
    ghost none_own: { vec_len roster.own ≡ 0 },
    ghost none_landed: { vec_len roster.landed ≡ 0 },
    ghost own_room: { vec_len roster.waiting ≤ vec_capacity roster.own },
    ghost room: { vec_len roster.waiting ≤ vec_capacity roster.landed },
}

// A derived drop is laid out in the proof of each function that drops the value, and this one is a call.
impl Drop for WordFlight<'_> {
    fn drop(self) {
        let WordFlight {
            mission: _,
            words: _,
            kernel: _,
            roster: _,
            cells: _,
        } = self;
    }
}

/// The result of a flight: the trace, and the words with all seats. The actors of the seats have no more steps. The
/// processors' seats are in the order of their numbers.
#[derive(Drop)]
pub struct Landed<'a> {
    pub flown: Flown,
    pub words: Words<'a>,
    pub kseat: KSeat,
    pub seats: Vec<Seat>,
}

impl<'a> WordFlight<'a> {
    /// Creates a flight of a mission. All memory of the flight is allocated here. Returns an error only if memory
    /// runs out.
    // Neither the body nor a postcondition depends on the precondition, which every `Boxes` satisfies. Without it,
    // Rattle lists this function, whose result contains boxes, under `hides` as a function that may create boxes.
    #[tactic(auto, using(crate::proofs::Outcomes::at_table))]
    pub fn open(
        alloc: Global,
        mission: &'a Mission,
        boxes: Boxes,
    ) -> Result<WordFlight<'a>, NoMemory>
        requires { vec_len boxes.racks ≡ 8 }
        ensures mission { IfOk result (λ flight. flight.mission ≡ mission.entry) }
    {
        mission.holds();
        let kernel = Kernel::new(alloc, mission.spec(), mission.script())?;
        let procs = mission.spec().procs.items().len();
        let own = Vec::with_capacity(alloc, procs)?;
        let landed = Vec::with_capacity(alloc, procs)?;
        let (words, kseat, waiting) = WordTable::open(alloc, mission)?;
        Ok(WordFlight {
            mission,
            words,
            kernel: KernelCrew::kernel(mission, kseat, kernel),
            roster: Roster {
                waiting,
                own,
                landed,
            },
            cells: cells(alloc, boxes),
        })
    }

    /// Flies the mission with a thread for each processor and the kernel on the caller's thread. A processor for
    /// which no thread can be created flies in the caller's turns. Returns the one-thread trace, for which the
    /// properties SP1 to SP6 hold, and the words with all seats. The actors of the seats have no more steps. This
    /// method blocks until the threads have ended, and cannot fail.
    pub fn run<R: Threads + Wait + Sync>(self, rt: &R) -> Landed<'a>
        ensures flown { IsTraceOf self.entry.mission.now result.flown }
        ensures mission { result.words.mission ≡ self.entry.mission }
        ensures table { result.words.table.table ≡ self.entry.words.table }
        ensures kernel { IsKernelSeatOf result.words.table result.kseat }
        ensures kernel_done { IsKernelDone self.entry.mission.now result.kseat }
        ensures seats { AreSeatsOf result.words.table result.seats.items }
        ensures landed { AreLanded result.words.table result.seats.items }
    {
        self.run_on(rt, [true; 8])
    }

    /// Flies as `run` does, but asks for a thread for processor `p` only if `asked[p]` is `true`.
    pub fn run_on<R: Threads + Wait + Sync>(self, rt: &R, asked: [bool; 8]) -> Landed<'a>
        ensures flown { IsTraceOf self.entry.mission.now result.flown }
        ensures mission { result.words.mission ≡ self.entry.mission }
        ensures table { result.words.table.table ≡ self.entry.words.table }
        ensures kernel { IsKernelSeatOf result.words.table result.kseat }
        ensures kernel_done { IsKernelDone self.entry.mission.now result.kseat }
        ensures seats { AreSeatsOf result.words.table result.seats.items }
        ensures landed { AreLanded result.words.table result.seats.items }
    {
        let mission = self.mission;
        let (resources, kernel, roster) = self.prepare(rt, asked);
        let shared = Shared {
            mission,
            resources: &resources,
        };
        let (kernel, seats) = fly(rt, &shared, kernel, roster);
        land_all(mission, resources, kernel, seats)
    }

    /// Flies as `run` does, and hands each row to a watch when the kernel writes it. When the call returns, the watch
    /// has taken all rows.
    pub fn run_watched<W: Watch, R: Threads + Wait + Sync>(
        self,
        rt: &R,
        watch: &mut W,
    ) -> Landed<'a>
        requires watched { W.watched watch.old ≡ self.mission.now }
        requires taken { W.taken watch.old ≡ 0 }
        ensures flown { IsTraceOf self.entry.mission.now result.flown }
        ensures mission { result.words.mission ≡ self.entry.mission }
        ensures table { result.words.table.table ≡ self.entry.words.table }
        ensures kernel { IsKernelSeatOf result.words.table result.kseat }
        ensures kernel_done { IsKernelDone self.entry.mission.now result.kseat }
        ensures seats { AreSeatsOf result.words.table result.seats.items }
        ensures landed { AreLanded result.words.table result.seats.items }
        ensures watched { W.watched watch.new ≡ self.entry.mission.now }
        ensures taken { W.taken watch.new ≡ self.entry.mission.now.script.frames }
    {
        let mission = self.mission;
        let (resources, kernel, roster) = self.prepare(rt, [true; 8]);
        let kernel = WatchedKernel { kernel, watch };
        let shared = Shared {
            mission,
            resources: &resources,
        };
        let (kernel, seats) = fly(rt, &shared, kernel, roster);
        // The name `_last` lets the proof refer to the value behind the reference.
        let WatchedKernel {
            kernel,
            watch: _last,
        } = kernel;
        land_all(mission, resources, kernel, seats)
    }

    // Returns the values with which a flight starts. A thread is asked for processor `p` if and only if `asked[p]` is
    // `true`.
    fn prepare<R: Threads>(self, rt: &R, asked: [bool; 8]) -> (Resources, KernelCrew<'a>, Roster)
        ensures table { result.0.words.table ≡ self.entry.words.table }
        ensures mission { mission_in result.0.words ≡ self.entry.mission.now }
        ensures same { result.1.mission.now ≡ self.entry.mission.now }
        ensures seated { IsKernelSeatOf result.0.words result.1.kseat }
        ensures fresh { frames_noted (length result.1.mission.now.spec.procs) result.1.kseat ≡ 0 }
        ensures waiting { AreOpen result.0.words result.2.waiting.items }
        ensures all { vec_len result.2.waiting ≡ length self.entry.mission.now.spec.procs }
        ensures own { vec_len result.2.own ≡ 0 }
        ensures landed { vec_len result.2.landed ≡ 0 }
        ensures own_room { vec_len result.2.waiting ≤ vec_capacity result.2.own }
        ensures room { vec_len result.2.waiting ≤ vec_capacity result.2.landed }
    {
        let WordFlight {
            mission,
            mut words,
            kernel,
            roster,
            cells,
        } = self;
        mission.holds();
        words.set_spins(spins_of(rt));
        let resources = Resources {
            words,
            cells,
            asked,
        };
        (resources, kernel, roster)
    }
}

// Returns the result of a flight whose kernel has made its last note and whose processors have landed.
fn land_all<'a>(
    mission: &'a Mission,
    resources: Resources,
    kernel: KernelCrew<'a>,
    seats: Vec<Seat>,
) -> Landed<'a>
    requires mission { mission_in resources.words ≡ mission.now }
    requires same { kernel.mission.now ≡ mission.now }
    requires seated { IsKernelSeatOf resources.words kernel.kseat }
    requires done { IsKernelDone mission.now kernel.kseat }
    requires seats { AreLanded resources.words seats.items }
    requires all { vec_len seats ≡ length mission.now.spec.procs }
    ensures flown { IsTraceOf mission.entry.now result.flown }
    ensures mission { result.words.mission ≡ mission.entry }
    ensures table { result.words.table.table ≡ resources.words.table }
    ensures kernel { IsKernelSeatOf result.words.table result.kseat }
    ensures kernel_done { IsKernelDone mission.entry.now result.kseat }
    ensures seats { AreSeatsOf result.words.table result.seats.items }
    ensures landed { AreLanded result.words.table result.seats.items }
{
    let Resources {
        words: table,
        cells: _,
        asked: _,
    } = resources;
    let (kseat, kernel) = kernel.into_parts();
    mission.holds();
    reconfigurations_are_assured();
    Landed {
        flown: kernel.finish(),
        words: Words { mission, table },
        kseat,
        seats,
    }
}

// The smallest measured number of spins (docs/PERFORMANCE.md) at which no thread parks if each thread has a processor.
const SPINS: u32 = 10_000;

// Returns the number of spins before a wait parks: `SPINS` if the machine is known to have several processors, or
// else 0.
fn spins_of<R: Threads>(rt: &R) -> u32 {
    match thread::available_parallelism(rt) {
        Ok(count) if count.get() > 1 => SPINS,
        _ => 0,
    }
}

// Returns the cells of the processors. Cell `p` contains rack `p` and spare rack `p`, or is empty if either is
// missing.
fn cells(alloc: Global, boxes: Boxes) -> [RackCell; 8] {
    let mut racks = boxes.racks.into_iter();
    let mut spares = boxes.spares.into_iter();
    [
        next_cell(alloc, &mut racks, &mut spares),
        next_cell(alloc, &mut racks, &mut spares),
        next_cell(alloc, &mut racks, &mut spares),
        next_cell(alloc, &mut racks, &mut spares),
        next_cell(alloc, &mut racks, &mut spares),
        next_cell(alloc, &mut racks, &mut spares),
        next_cell(alloc, &mut racks, &mut spares),
        next_cell(alloc, &mut racks, &mut spares),
    ]
}

fn next_cell(alloc: Global, racks: &mut IntoIter<Rack>, spares: &mut IntoIter<Rack>) -> RackCell {
    let pair = match (racks.next(), spares.next()) {
        (Some(rack), Some(spare)) => Some(RackPair { rack, spare }),
        _ => None,
    };
    RackCell::new(alloc, pair)
}
