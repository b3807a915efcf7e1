//! A flight with a thread for each processor.

ghost use Rattle.std.specs.Prelude.{◌≡◌, ◌≤◌, ◌<◌, ◌+◌, [], All, IfOk, IfSome, OnOk, Some, vec_capacity, vec_len};
ghost use Rattle.coverage_check.specs.Missions.{MissionParts, mission_of};
ghost use Rattle.event_core.specs.Cores.{IsOverIn};
ghost use Rattle.frame_model.specs.Flights.{reports_of, rows_of};
ghost use Rattle.lock_deck.specs.Members.{AreMembersOf, MemberFits};
ghost use Rattle.trace_props.specs.Properties.{HoldsAll};

use crate::members::Member;
use crate::shared_cores::{FlightOf, SharedCore};
use crate::steps::make_any;
use crate::turns::{fly_kernel, fly_processor};
use app_model::{Boxes, Rack};
use coverage_check::Mission;
use crossbeam_utils::CachePadded;
use event_core::Core;
use scram_types::{NoMemory, ProcId};
use std::alloc::Global;
use std::marker::Brand;
use std::sync::atomic::{AtomicBool, Ordering};
use std::sync::{Condvar, Mutex, Wait};
use std::thread;
use std::thread::{Scope, Threads};
use trace_props::missions::reconfigurations_are_assured;

/// A flight of a mission before its first step, with all memory that the flight needs. Contracts state that the
/// processors belong to the mission. The fields `mission` and `members` are public because contracts refer to them.
#[derive(Drop)]
pub struct LockFlight<'a> {
    pub mission: &'a Mission,
    pub members: Vec<CachePadded<Member>>,
    core: Core<'a>,
    kept: Vec<Member>,
    ghost own: { mission_of core.spec core.script ≡ mission.now },
    ghost none_kept: { kept.items ≡ [] },
    ghost room: { vec_len members ≤ vec_capacity kept },
}

impl<'a> LockFlight<'a> {
    /// Returns a flight of a mission before its first step. Allocates all memory that the flight needs. Returns an
    /// error only if memory runs out.
    // Neither the body nor a postcondition depends on the precondition, which every `Boxes` satisfies. Without it,
    // Rattle lists this function, whose result contains boxes, under `hides` as a function that may create boxes.
    pub fn open(
        alloc: Global,
        mission: &'a Mission,
        boxes: Boxes,
    ) -> Result<LockFlight<'a>, NoMemory>
        requires { vec_len boxes.racks ≡ 8 }
        ensures mission { IfOk result (λ flight. flight.mission.now ≡ mission.now) }
        ensures fits { IfOk result (λ flight. AreMembersOf flight.mission.now flight.members.items) }
    {
        mission.holds();
        let core = Core::open(alloc, mission.spec(), mission.script())?;
        let members = make_members(alloc, mission, boxes)?;
        let kept = Vec::with_capacity(alloc, members.len())?;
        Ok(LockFlight {
            mission,
            members,
            core,
            kept,
        })
    }

    /// Flies the mission until the flight is over, and returns the core of the flight. Each processor has a thread,
    /// and the kernel runs on the caller's thread. The caller flies, round-robin, the processors whose threads cannot
    /// be started. This method may block.
    pub fn run<R: Threads + Wait + Sync>(self, rt: &R) -> Core<'a>
        requires fits { AreMembersOf self.mission.now self.members.items }
        ensures spec { result.spec ≡ self.entry.mission.now.spec }
        ensures script { result.script ≡ self.entry.mission.now.script }
        ensures over { IsOverIn result }
        ensures assured { let m = self.entry.mission.now in HoldsAll m.spec (rows_of m.spec m.script) (reports_of m.spec m.script) }
    {
        self.run_on(rt, [true; 8])
    }

    /// Flies the mission as `run` does, but asks for a thread for processor `p` only if `asked[p]` is `true`. The
    /// caller flies the other processors round-robin.
    pub fn run_on<R: Threads + Wait + Sync>(self, rt: &R, asked: [bool; 8]) -> Core<'a>
        requires fits { AreMembersOf self.mission.now self.members.items }
        ensures spec { result.spec ≡ self.entry.mission.now.spec }
        ensures script { result.script ≡ self.entry.mission.now.script }
        ensures over { IsOverIn result }
        ensures assured { let m = self.entry.mission.now in HoldsAll m.spec (rows_of m.spec m.script) (reports_of m.spec m.script) }
    {
        self.mission.holds();
        reconfigurations_are_assured();
        let roster = Roster {
            members: self.members,
            kept: self.kept,
            asked,
        };
        fly::<Brand, R>(rt, self.mission, self.core, roster)
    }
}

// The processors that wait for a thread, the processors that the caller flies, and for each processor whether a
// thread is requested for it.
#[derive(Drop)]
struct Roster {
    members: Vec<CachePadded<Member>>,
    kept: Vec<Member>,
    asked: [bool; 8],
}

// Returns the processors of a mission with their racks, from the last processor down. Returns an error only if memory
// runs out.
fn make_members(
    alloc: Global,
    mission: &Mission,
    boxes: Boxes,
) -> Result<Vec<CachePadded<Member>>, NoMemory>
    requires { vec_len boxes.racks ≡ 8 }
    ensures fits { IfOk result (λ members. AreMembersOf mission.now members.items) }
{
    let Boxes {
        mut racks,
        mut spares,
    } = boxes;
    let mut members = Vec::with_capacity(alloc, racks.len())?;
    for _ in 0..8u8 {
        add_next(mission, &mut racks, &mut spares, &mut members)?;
    }
    Ok(members)
}

// Takes the last rack and the last spare rack, and adds the processor with these racks if the mission has it. The
// number of the processor is the number of racks that remain. Returns an error only if memory runs out.
fn add_next(
    mission: &Mission,
    racks: &mut Vec<Rack>,
    spares: &mut Vec<Rack>,
    members: &mut Vec<CachePadded<Member>>,
) -> Result<(), NoMemory>
    requires few { vec_len racks.old ≤ 8 }
    requires members { AreMembersOf mission.now members.old.items }
    ensures few { vec_len racks.new ≤ 8 }
    ensures members { OnOk result (AreMembersOf mission.now members.new.items) }
{
    match next_member(mission, racks, spares) {
        Some(member) => add_member(members, member),
        None => Ok(()),
    }
}

// Takes the last rack and the last spare rack, and returns the processor with these racks. The number of the
// processor is the number of racks that remain. Returns `None` if a rack is missing or the mission has no processor
// of that number.
fn next_member(mission: &Mission, racks: &mut Vec<Rack>, spares: &mut Vec<Rack>) -> Option<Member>
    requires few { vec_len racks.old ≤ 8 }
    ensures few { vec_len racks.new ≤ 8 }
    ensures fits { IfSome result (MemberFits mission.now) }
{
    let rack = take_rack(racks)?;
    let spare = take_rack(spares)?;
    let p = racks.len();
    if p < mission.spec().procs.items().len() {
        Some(Member::new(mission, ProcId(p as u8), rack, spare))
    } else {
        None
    }
}

// Removes the last rack from `racks` and returns it, or returns `None` if `racks` is empty.
fn take_rack(racks: &mut Vec<Rack>) -> Option<Rack>
    ensures fewer { vec_len racks.new ≤ vec_len racks.old }
    ensures one { IfSome result (λ _. vec_len racks.new < vec_len racks.old) }
{
    racks.pop()
}

// Adds `member` to the processors that wait for a thread. Returns an error only if memory runs out.
fn add_member(members: &mut Vec<CachePadded<Member>>, member: Member) -> Result<(), NoMemory>
    ensures { OnOk result ((mission : MissionParts) → MemberFits mission member → AreMembersOf mission members.old.items
        → AreMembersOf mission members.new.items) }
{
    members.push(CachePadded::new(member))?;
    Ok(())
}

fn fly<'a, J: FlightOf + Send + Sync, R: Threads + Wait + Sync>(
    rt: &R,
    mission: &Mission,
    core: Core<'a>,
    roster: Roster,
) -> Core<'a>
    requires own { J.mission ≡ Some mission.now }
    requires core { mission_of core.spec core.script ≡ mission.now }
    requires fits { AreMembersOf mission.now roster.members.items }
    requires kept { (roster.kept.items ≡ []) × (vec_len roster.members ≤ vec_capacity roster.kept) }
    ensures core { mission_of result.spec result.script ≡ mission.now }
    ensures over { IsOverIn result }
{
    let shared: Mutex<SharedCore<'a, J>> = Mutex::new(SharedCore::new(core));
    let moved = Condvar::new();
    fly_shared(rt, mission, &shared, &moved, roster);
    finish(rt, shared.into_inner().into_core())
}

// Makes the remaining steps of the flight. No step remains if all threads have flown to the end of the flight.
fn finish<'a, R: Wait>(rt: &R, core: Core<'a>) -> Core<'a>
    ensures spec { result.spec ≡ core.entry.spec }
    ensures script { result.script ≡ core.entry.script }
    ensures over { IsOverIn result }
{
    let mut core = core;
    for _ in rt.forever() {
        if core.over() {
            return core;
        }
        make_any(&mut core);
    }
    unreachable!()
}

fn fly_shared<'a, J: FlightOf + Send + Sync, R: Threads + Wait + Sync>(
    rt: &R,
    mission: &Mission,
    shared: &Mutex<SharedCore<'a, J>>,
    moved: &Condvar,
    roster: Roster,
)
    requires own { J.mission ≡ Some mission.now }
    requires fits { AreMembersOf mission.now roster.members.items }
    requires kept { (roster.kept.items ≡ []) × (vec_len roster.members ≤ vec_capacity roster.kept) }
{
    let flags = flown_by_caller(roster.asked);
    let by_caller = &flags;
    thread::scope(
        thread::scope_env(),
        rt,
        |scope|
            requires own { J.mission ≡ Some mission.now }
            requires fits { AreMembersOf mission.now roster.members.items }
            requires kept { (roster.kept.items ≡ []) × (vec_len roster.members ≤ vec_capacity roster.kept) }
        {
            let flight = SharedFlight {
                mission,
                core: shared,
                moved,
            };
            let kept = start_all(scope, rt, flight, by_caller, roster);
            fly_kernel(rt, mission, shared, moved, kept);
        },
    );
}

// The data that the actors of a flight share: the mission, the core under its lock, and the signal that an actor has
// moved.
struct SharedFlight<'s, 'a, J: FlightOf> {
    mission: &'s Mission,
    core: &'s Mutex<SharedCore<'a, J>>,
    moved: &'s Condvar,
}

// Starts the threads that are requested. Returns the processors that the caller flies, including those whose threads
// cannot be started.
fn start_all<'s, 'a, E, J: FlightOf + Send + Sync, R: Threads + Wait + Sync>(
    scope: &Scope<'s, E>,
    rt: &'s R,
    flight: SharedFlight<'s, 'a, J>,
    by_caller: &'s [AtomicBool; 8],
    roster: Roster,
) -> Vec<Member>
    requires own { J.mission ≡ Some flight.mission.now }
    requires fits { AreMembersOf flight.mission.now roster.members.items }
    requires kept { (roster.kept.items ≡ []) × (vec_len roster.members ≤ vec_capacity roster.kept) }
    ensures { All (MemberFits flight.entry.mission.now) result.items }
{
    let SharedFlight {
        mission,
        core: shared,
        moved,
    } = flight;
    let mut members = roster.members;
    let mut kept = roster.kept;
    while let Some(member) = take_member(&mut members) {
        let own = &by_caller[usize::from(member.proc().0 % 8)];
        let fly = move |member: Member|
            requires { (J.mission ≡ Some mission.now) × MemberFits mission.now member }
        {
            fly_processor(rt, mission, shared, moved, member);
        };
        keep_member(&mut kept, start(scope, own, fly, member));
    }
    kept
}

// Starts a thread that flies the processor `member`, unless `by_caller` is `true`. If no thread can be started, sets
// `by_caller` to `true`. Returns the processor if the caller must fly it.
fn start<'s, E, M: Send + Drop + 's, F: FnOnce(M) + Send + Drop + 's>(
    scope: &Scope<'s, E>,
    by_caller: &'s AtomicBool,
    fly: F,
    member: M,
) -> Option<M>
    requires fly { F.pre fly member }
    ensures { IfSome result (λ kept. kept ≡ member) }
{
    if by_caller.load(Ordering::SeqCst) {
        return Some(member);
    }
    let spawned = scope.spawn(
        move || -> Option<M>
            requires { F.pre fly member }
            ensures { IfSome result (λ kept. kept ≡ member) }
        {
            if by_caller.load(Ordering::SeqCst) {
                return Some(member);
            }
            fly(member);
            None
        },
    );
    match spawned {
        Ok(_) => None,
        Err(refused) => {
            by_caller.store(true, Ordering::SeqCst);
            (refused.value)()
        }
    }
}

// Removes the last processor from `members` and returns it, or returns `None` if `members` is empty.
fn take_member(members: &mut Vec<CachePadded<Member>>) -> Option<Member>
    ensures fits { (mission : MissionParts) → All (λ member. MemberFits mission member.value) members.old.items → IfSome result (MemberFits mission) }
    ensures rest { (mission : MissionParts) → All (λ member. MemberFits mission member.value) members.old.items
        → All (λ member. MemberFits mission member.value) members.new.items }
    ensures fewer { IfSome result (λ member. vec_len members.new + 1 ≡ vec_len members.old) }
{
    match members.pop() {
        Some(member) => Some(member.into_inner()),
        None => None,
    }
}

// Adds `member`, if there is one, to `kept`, the processors that the caller flies.
fn keep_member(kept: &mut Vec<Member>, member: Option<Member>)
    requires room { vec_len kept.old < vec_capacity kept.old }
    ensures fits { (mission : MissionParts) → IfSome member (MemberFits mission) → All (MemberFits mission) kept.old.items
        → All (MemberFits mission) kept.new.items }
    ensures more { vec_len kept.new ≤ vec_len kept.old + 1 }
    ensures room { vec_capacity kept.new ≡ vec_capacity kept.old }
{
    match member {
        Some(member) => kept.push_reserved(member),
        None => {}
    }
}

// Returns, for each processor, whether the caller flies it because no thread is requested for it.
fn flown_by_caller(asked: [bool; 8]) -> [AtomicBool; 8] {
    [
        AtomicBool::new(!asked[0]),
        AtomicBool::new(!asked[1]),
        AtomicBool::new(!asked[2]),
        AtomicBool::new(!asked[3]),
        AtomicBool::new(!asked[4]),
        AtomicBool::new(!asked[5]),
        AtomicBool::new(!asked[6]),
        AtomicBool::new(!asked[7]),
    ]
}
