//! Turns at the lock, and the threads that make them.

ghost use Rattle.std.specs.Prelude.{◌≡◌, All, Some};
ghost use Rattle.lock_deck.specs.Members.{MemberFits};

use crate::made::Made;
use crate::members::Member;
use crate::shared_cores::{FlightOf, SharedCore};
use bank_words::Event;
use coverage_check::Mission;
use std::sync::{Condvar, Mutex, MutexGuard, Wait};

/// Flies the processor `member` until the flight is over.
pub(crate) fn fly_processor<'a, J: FlightOf, R: Wait>(
    rt: &R,
    mission: &Mission,
    shared: &Mutex<SharedCore<'a, J>>,
    moved: &Condvar,
    member: Member,
)
    requires own { J.mission ≡ Some mission.now }
    requires fits { MemberFits mission.now member }
{
    let mut member = member;
    for _ in rt.forever() {
        let p = member.proc();
        let shared = moved.wait_while(rt, shared.lock(rt), |shared| shared.waits(p));
        if !make_turn(mission, shared, moved, &mut member) {
            return;
        }
    }
}

/// Flies the kernel and, round-robin, the processors that no thread flies, until the flight is over.
pub(crate) fn fly_kernel<'a, J: FlightOf, R: Wait>(
    rt: &R,
    mission: &Mission,
    shared: &Mutex<SharedCore<'a, J>>,
    moved: &Condvar,
    members: Vec<Member>,
)
    requires own { J.mission ≡ Some mission.now }
    requires fits { All (MemberFits mission.now) members.items }
{
    let mut members = members;
    for _ in rt.forever() {
        let shared_now = moved.wait_while(rt, shared.lock(rt), |shared| shared.all_wait(&members));
        if !make_turn_of_kernel(shared_now, moved) {
            return;
        }
        make_turn_of_each(rt, mission, shared, moved, &mut members);
    }
}

// Makes a step of the kernel, if one is next. Wakes the waiting threads after a release and when the flight is over.
// Returns `false` if the flight is over.
fn make_turn_of_kernel<'a, J: FlightOf>(
    shared: MutexGuard<'_, SharedCore<'a, J>>,
    moved: &Condvar,
) -> bool {
    let mut shared = shared;
    if shared.is_over() {
        moved.notify_all();
        return false;
    }
    if shared.make_kernel() == Some(Event::Release) {
        moved.notify_all();
    }
    true
}

// Makes one turn of each processor in `members`.
fn make_turn_of_each<'a, J: FlightOf, R: Wait>(
    rt: &R,
    mission: &Mission,
    shared: &Mutex<SharedCore<'a, J>>,
    moved: &Condvar,
    members: &mut [Member],
)
    requires own { J.mission ≡ Some mission.now }
    requires fits { All (MemberFits mission.now) members.old }
    ensures fits { All (MemberFits mission.now) members.new }
{
    for place in 0..members.len() {
        make_turn(mission, shared.lock(rt), moved, &mut members[place]);
    }
}

// Makes a step of the processor `member` under the lock, if one is next, and acts on the result of the step outside
// the lock. Returns `false` if no step was next.
fn make_turn<'a, J: FlightOf>(
    mission: &Mission,
    shared: MutexGuard<'_, SharedCore<'a, J>>,
    moved: &Condvar,
    member: &mut Member,
) -> bool
    requires own { J.mission ≡ Some mission.now }
    requires fits { MemberFits mission.now member.old }
    ensures fits { MemberFits mission.now member.new }
{
    let mut shared = shared;
    let made = shared.make_step(member.proc(), member.drafted.as_ref());
    drop(shared);
    if is_awaited(&made) {
        moved.notify_all();
    }
    member.follow(mission, &made);
    is_something(&made)
}

// Returns `true` if the kernel may be waiting for the result `made` of a turn.
fn is_awaited(made: &Made) -> bool {
    match made {
        Made::Done => true,
        Made::Halted(_) => true,
        Made::Nothing => false,
        Made::Started => false,
        Made::Moved => false,
        Made::Saw(_) => false,
    }
}

fn is_something(made: &Made) -> bool {
    match made {
        Made::Nothing => false,
        Made::Started => true,
        Made::Moved => true,
        Made::Saw(_) => true,
        Made::Done => true,
        Made::Halted(_) => true,
    }
}
