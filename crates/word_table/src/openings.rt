//! The opening of a table.

ghost use Rattle.std.specs.Prelude.{◌≡◌, ◌∷◌, [], IfOk, OnOk};
ghost use Rattle.scram_types.specs.Eights.{eight};
ghost use Rattle.fault_script.specs.Times.{restart_of};
ghost use Rattle.word_table.specs.Actors.{with_actors};
ghost use Rattle.word_table.specs.Keeping.{IsFlown};
ghost use Rattle.word_table.specs.Rule.{first_view};
ghost use Rattle.word_table.specs.Tables.{AreOpening, AreSeatsOf, IsKernelSeatOf, mission_in, kernel_frame, kernel_steps};
ghost use Rattle.word_table.specs.declared.actors.Actor.TheVariants.{Kernel};

use crate::actors::{Deals, View, WordRule};
use crate::rests::Sleepers;
use crate::seats::{KSeat, Seat};
use crate::tables::WordTable;
use atomic_table::Table;
use bank_words::{kernel_encode, words};
use coverage_check::Mission;
use fail_stop::openings::{first_image, opening_words};
use fault_script::restart_of;
use frame_model::Sys;
use scram_types::{NoMemory, ProcId, Script};
use std::alloc::Global;

impl WordTable {
    /// Creates the table of a mission, as it is before the first frame. Returns the table, the kernel's seat, and the
    /// seats of the processors in order. Each actor is at its opening place. Returns an error only if memory runs
    /// out.
    pub fn open(alloc: Global, mission: &Mission) -> Result<(WordTable, KSeat, Vec<Seat>), NoMemory>
        ensures mission { IfOk result (λ t. mission_in t.0 ≡ mission.now) }
        ensures kernel { IfOk result (λ t. IsKernelSeatOf t.0 t.1) }
        ensures kernel_place { IfOk result (λ t. (kernel_frame t.1 ≡ 0) × (kernel_steps t.1 ≡ 0)) }
        ensures seats { IfOk result (λ t. AreSeatsOf t.0 t.2.items) }
        ensures opening { IfOk result (λ t. AreOpening t.2.items) }
    {
        let mut seats = Vec::with_capacity(alloc, mission.spec().procs.items().len())?;
        let (table, mut inner) = WordTable::lay(alloc, mission)?;
        table.deal(&mut inner, &mut seats)?;
        let kseat = KSeat {
            frame: 0,
            step: 0,
            inner,
        };
        Ok((table, kseat, seats))
    }

    // Creates the table and its first seat, which has all actors. Returns an error only if memory runs out.
    fn lay(
        alloc: Global,
        mission: &Mission,
    ) -> Result<(WordTable, atomic_table::Seat<(), View>), NoMemory>
        ensures holds { IfOk result (λ t. IsFlown (mission_in t.0)) }
        ensures mission { IfOk result (λ t. mission_in t.0 ≡ mission.now) }
        ensures table { IfOk result (λ t. t.1.table_id ≡ t.0.table.shared.table_id) }
        ensures seat { IfOk result (λ t. t.1.me ≡ (first_view mission.now, [])) }
    {
        mission.holds();
        let spec = mission.spec();
        let script = mission.script();
        let first = kernel_encode(&first_image(spec, script));
        let stored = opening_words(alloc, script.frames, &first, &Sys::start(spec))?;
        let (table, seat) = Table::<(), View, Mission, WordRule, Global>::of_words(
            alloc, &stored, mission,
        )?;
        let words = WordTable {
            table,
            frames: script.frames,
            procs: spec.procs.items().len() as u32,
            width: words(spec),
            restarts: restarts_of(script),
            spins: 0,
            sleepers: Sleepers::new(),
        };
        Ok((words, seat))
    }

    // Splits a seat for each processor off the first seat `rest`, and appends these seats to `seats` in order. The
    // kernel is then the only actor of `rest`. Returns an error only if memory runs out.
    fn deal(
        &self,
        rest: &mut atomic_table::Seat<(), View>,
        seats: &mut Vec<Seat>,
    ) -> Result<(), NoMemory>
        requires holds { IsFlown (mission_in self.now) }
        requires table { rest.old.table_id ≡ self.now.table.shared.table_id }
        requires seat { rest.old.me ≡ (first_view (mission_in self.now), []) }
        requires none { seats.old.items ≡ [] }
        ensures table { rest.new.table_id ≡ rest.old.table_id }
        ensures seat { OnOk result (rest.new.me ≡ (with_actors (first_view (mission_in self.now)) (Kernel 0 0 ∷ []), [])) }
        ensures seats { OnOk result (AreSeatsOf self.now seats.new.items) }
        ensures opening { OnOk result (AreOpening seats.new.items) }
    {
        for p in 0..self.procs {
            let inner = self.table.shared.split_seat::<Deals>(rest);
            seats.push(Seat {
                proc: ProcId(p as u8),
                frame: 0,
                step: 0,
                halted: false,
                inner,
            })?;
        }
        Ok(())
    }
}

fn restarts_of(script: &Script) -> [Option<u32>; 8]
    ensures { result ≡ eight (restart_of script.now) }
{
    [
        restart_of(script, ProcId(0)),
        restart_of(script, ProcId(1)),
        restart_of(script, ProcId(2)),
        restart_of(script, ProcId(3)),
        restart_of(script, ProcId(4)),
        restart_of(script, ProcId(5)),
        restart_of(script, ProcId(6)),
        restart_of(script, ProcId(7)),
    ]
}
