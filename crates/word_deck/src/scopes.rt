//! The flight of a mission with a thread for each processor. The kernel makes its turns while the threads run.

ghost use Rattle.std.specs.Prelude.{ℕ, List, ◌≡◌, ◌≤◌, ◌<◌, ◌+◌, vec_capacity, vec_len};
ghost use Rattle.fail_stop.specs.Events.{At};
ghost use Rattle.word_table.specs.Tables.{IsSeatOf, mission_in, proc_of, seat_place};
ghost use Rattle.word_deck.specs.Landing.{IsLanded};
ghost use Rattle.word_deck.specs.Flights.{AreCrewsOf, AreLanded, AreOpen, IsBoarded, IsBoardedLast, numbers_boarded, numbers_in};

use crate::crews::Crew;
use crate::kernel_actors::KernelActor;
use crate::landings::{Lander, Landing, Shared, Site, crew_from, fly_crew, land, start};
use crate::turns::Turn;
use coverage_check::Mission;
use std::snapshot::Snapshot;
use std::sync::Wait;
use std::thread;
use std::thread::{PromisedHandle, Scope, Threads};
use word_table::{Seat, WordTable};

/// The processors of a flight: the seats of those that have not started, the processors that fly in the caller's
/// turns, and the seats of those that have landed.
#[derive(Drop)]
pub(crate) struct Roster {
    pub(crate) waiting: Vec<Seat>,
    pub(crate) own: Vec<Crew>,
    pub(crate) landed: Vec<Seat>,
}

/// A thread that flies a processor.
#[derive(Drop)]
pub(crate) struct Flying {
    pub(crate) handle: PromisedHandle<Landing, Lander>,
}

/// The way in which a processor flies once it has been started: on a thread (`Threaded`), in the caller's turns as
/// the last of the processors there (`Own`), or not at all, since it has landed (`Landed`).
#[derive(Drop)]
pub(crate) enum Boarding {
    Threaded(Flying),
    Own,
    Landed(Seat),
}

/// Flies all processors and the kernel. Returns the kernel after its last note, and the seats of the processors in
/// the order of their numbers.
pub(crate) fn fly<K: KernelActor, R: Threads + Wait + Sync>(
    rt: &R,
    shared: &Shared<'_>,
    kernel: K,
    roster: Roster,
) -> (K, Vec<Seat>)
    requires mission { mission_in shared.now.resources.now.words ≡ shared.now.mission.now }
    requires kernel { K.mission_of kernel ≡ shared.now.mission.now }
    requires seated { K.seated shared.now.resources.now.words kernel }
    requires waiting { AreOpen shared.now.resources.now.words roster.waiting.items }
    requires own { vec_len roster.own ≡ 0 }
    requires landed { vec_len roster.landed ≡ 0 }
    requires own_room { vec_len roster.waiting ≤ vec_capacity roster.own }
    requires room { vec_len roster.waiting ≤ vec_capacity roster.landed }
    ensures mission { K.mission_of result.0 ≡ shared.now.mission.now }
    ensures seated { K.seated shared.now.resources.now.words result.0 }
    ensures done { K.done shared.now.resources.now.words result.0 }
    ensures lent { K.lent result.0 ≡ K.lent kernel }
    ensures seats { AreLanded shared.now.resources.now.words result.1.items }
    ensures count { vec_len result.1 ≡ vec_len roster.waiting }
{
    thread::scope(
        thread::scope_env(),
        rt,
        |scope| -> (K, Vec<Seat>)
            requires mission { mission_in shared.now.resources.now.words ≡ shared.now.mission.now }
            requires kernel { K.mission_of kernel ≡ shared.now.mission.now }
            requires seated { K.seated shared.now.resources.now.words kernel }
            requires waiting { AreOpen shared.now.resources.now.words roster.waiting.items }
            requires own { vec_len roster.own ≡ 0 }
            requires landed { vec_len roster.landed ≡ 0 }
            requires own_room { vec_len roster.waiting ≤ vec_capacity roster.own }
            requires room { vec_len roster.waiting ≤ vec_capacity roster.landed }
            ensures mission { K.mission_of result.0 ≡ shared.entry.now.mission.now }
            ensures seated { K.seated shared.entry.now.resources.now.words result.0 }
            ensures done { K.done shared.entry.now.resources.now.words result.0 }
            ensures lent { K.lent result.0 ≡ K.lent kernel }
            ensures seats { AreLanded shared.entry.now.resources.now.words result.1.items }
            ensures count { vec_len result.1 ≡ vec_len roster.waiting }
        {
            let mut roster = roster;
            let kernel = fly_rest(scope, rt, shared, kernel, &mut roster);
            let Roster {
                waiting: _,
                own: _,
                landed,
            } = roster;
            (kernel, landed)
        },
    )
}

// Starts the waiting processors from the last to the first, then flies the kernel, and then lands the processors.
// Returns the kernel after its last note.
fn fly_rest<'s, E, K: KernelActor, R: Threads + Wait + Sync>(
    scope: &Scope<'s, E>,
    rt: &'s R,
    shared: &Shared<'s>,
    kernel: K,
    roster: &mut Roster,
) -> K
    requires mission { mission_in shared.now.resources.now.words ≡ shared.now.mission.now }
    requires kernel { K.mission_of kernel ≡ shared.now.mission.now }
    requires seated { K.seated shared.now.resources.now.words kernel }
    requires waiting { AreOpen shared.now.resources.now.words roster.old.waiting.items }
    requires own { AreCrewsOf shared.now.resources.now.words roster.old.own.items }
    requires landed { vec_len roster.old.landed ≡ 0 }
    requires own_room { vec_len roster.old.own + vec_len roster.old.waiting ≤ vec_capacity roster.old.own }
    requires room { vec_len roster.old.waiting ≤ vec_capacity roster.old.landed }
    ensures mission { K.mission_of result ≡ shared.now.mission.now }
    ensures seated { K.seated shared.now.resources.now.words result }
    ensures done { K.done shared.now.resources.now.words result }
    ensures lent { K.lent result ≡ K.lent kernel }
    ensures own { AreCrewsOf shared.now.resources.now.words roster.new.own.items }
    ensures numbers { numbers_in roster.new.own.items ≡ numbers_in roster.old.own.items }
    ensures seats { AreLanded shared.now.resources.now.words roster.new.landed.items }
    ensures count { vec_len roster.new.landed ≡ vec_len roster.old.waiting }
    ensures capacity { vec_capacity roster.new.landed ≡ vec_capacity roster.old.landed }
{
    let seat = match roster.waiting.pop() {
        Some(seat) => seat,
        None => return fly_kernel(rt, shared, kernel, &mut roster.own),
    };
    let p = roster.waiting.len() % 8;
    let resources = shared.resources;
    let site = Site {
        mission: shared.mission,
        words: &resources.words,
        cell: &resources.cells[p],
        asked: resources.asked[p],
    };
    let was = Snapshot::of(&seat);
    let boarding = board(scope, rt, &site, &mut roster.own, seat);
    let kernel = fly_rest(scope, rt, shared, kernel, roster);
    let seat = land_boarded(rt, &site, boarding, was, &mut roster.own);
    roster.landed.push_reserved(seat);
    kernel
}

// Returns the seat of a started processor, once the processor has landed. The caller waits for the processor's
// thread, or makes the processor's turns until it has landed. `was` is the seat with which the processor started.
fn land_boarded<R: Threads + Wait>(
    rt: &R,
    site: &Site<'_>,
    boarding: Boarding,
    was: Snapshot<Seat>,
    own: &mut Vec<Crew>,
) -> Seat
    requires mission { mission_in site.now.words.now ≡ site.now.mission.now }
    requires seat { IsSeatOf site.now.words.now was.value }
    requires opening { seat_place was.value ≡ At 0 0 }
    requires boarded { IsBoarded site.now.words.now was.value boarding }
    requires own { AreCrewsOf site.now.words.now own.old.items }
    requires last { IsBoardedLast boarding (proc_of was.value) (numbers_in own.old.items) }
    ensures landed { IsLanded site.now.words.now (proc_of was.value) result }
    ensures own { AreCrewsOf site.now.words.now own.new.items }
    ensures numbers { (front : List ℕ) → numbers_in own.old.items ≡ numbers_boarded boarding (proc_of was.value) front → numbers_in own.new.items ≡ front }
{
    match boarding {
        Boarding::Threaded(flying) => {
            let landing = flying.handle.join(rt);
            land(rt, site, landing, was)
        }
        Boarding::Own => match own.pop() {
            Some(crew) => fly_crew(rt, site.mission, site.words, crew),
            None => unreachable!(),
        },
        Boarding::Landed(seat) => seat,
    }
}

// Makes turns of the kernel, and of the processors that fly in the caller's turns, until a turn of the kernel is
// `Finished`. Returns the kernel. The caller sleeps only if no processor flies in the caller's turns.
fn fly_kernel<K: KernelActor, R: Wait>(
    rt: &R,
    shared: &Shared<'_>,
    mut kernel: K,
    own: &mut Vec<Crew>,
) -> K
    requires mission { mission_in shared.now.resources.now.words ≡ shared.now.mission.now }
    requires kernel { K.mission_of kernel ≡ shared.now.mission.now }
    requires seated { K.seated shared.now.resources.now.words kernel }
    requires own { AreCrewsOf shared.now.resources.now.words own.old.items }
    ensures mission { K.mission_of result ≡ shared.now.mission.now }
    ensures seated { K.seated shared.now.resources.now.words result }
    ensures done { K.done shared.now.resources.now.words result }
    ensures lent { K.lent result ≡ K.lent kernel }
    ensures own { AreCrewsOf shared.now.resources.now.words own.new.items }
    ensures numbers { numbers_in own.new.items ≡ numbers_in own.old.items }
{
    let words = &shared.resources.words;
    for _ in rt.forever() {
        match kernel.work(words) {
            Turn::Finished => return kernel,
            Turn::Worked => {}
            Turn::NotYet => {
                if own.is_empty() {
                    kernel.rest(rt, words);
                }
            }
        }
        turn_all(shared.mission, words, own);
    }
    unreachable!()
}

// Makes one turn of each processor in `own`.
fn turn_all(mission: &Mission, words: &WordTable, own: &mut Vec<Crew>)
    requires mission { mission_in words.now ≡ mission.now }
    requires own { AreCrewsOf words.now own.old.items }
    ensures own { AreCrewsOf words.now own.new.items }
    ensures numbers { numbers_in own.new.items ≡ numbers_in own.old.items }
{
    for i in 0..own.len() {
        own[i].turn(mission, words);
    }
}

// Starts a thread for a processor if `site.asked` is `true` and a thread can be created. Otherwise the processor
// flies in the caller's turns.
fn board<'s, E, R: Threads + Wait + Sync>(
    scope: &Scope<'s, E>,
    rt: &'s R,
    site: &Site<'s>,
    own: &mut Vec<Crew>,
    seat: Seat,
) -> Boarding
    requires mission { mission_in site.now.words.now ≡ site.now.mission.now }
    requires seat { IsSeatOf site.now.words.now seat }
    requires opening { seat_place seat ≡ At 0 0 }
    requires own { AreCrewsOf site.now.words.now own.old.items }
    requires room { vec_len own.old < vec_capacity own.old }
    ensures boarded { IsBoarded site.now.words.now seat result }
    ensures own { AreCrewsOf site.now.words.now own.new.items }
    ensures numbers { numbers_in own.new.items ≡ numbers_boarded result (proc_of seat) (numbers_in own.old.items) }
    ensures capacity { vec_capacity own.new ≡ vec_capacity own.old }
    ensures len { vec_len own.new ≤ vec_len own.old + 1 }
{
    if !site.asked {
        own.push_reserved(crew_from(rt, site.words, site.cell, seat));
        return Boarding::Own;
    }
    match start(scope, rt, site, seat) {
        Ok(handle) => Boarding::Threaded(Flying { handle }),
        Err(landing) => {
            if landing.flown {
                return Boarding::Landed(landing.seat);
            }
            own.push_reserved(crew_from(rt, site.words, site.cell, landing.seat));
            Boarding::Own
        }
    }
}
