//! The steps of a core, and the storing of a draft.

ghost use Rattle.std.specs.Prelude.{◌≡◌, ◌<◌, IfSome, IsTrue, Some, length, ℕ};
ghost use Rattle.bank_words.specs.declared.events.Event.TheVariants.{KStore};
ghost use Rattle.coverage_check.specs.Missions.{MissionParts, mission_of};
ghost use Rattle.event_core.specs.Cores.{IsNextIn, IsWordIn, core_places, core_flight};
ghost use Rattle.event_core.specs.Places.{HasLooked};
ghost use Rattle.event_core.specs.Stores.{IsEventWord};
ghost use Rattle.fail_stop.specs.Events.{Places, next_kernel};
ghost use Rattle.fail_stop.specs.Flights.{Flight};
ghost use Rattle.lock_deck.specs.SharedCores.{IfSaw, IsDraftOf, IsDraftWord, IsSnapshotOf};

use crate::made::Made;
use bank_words::{Event, encode};
use event_core::Core;
use fail_stop::Draft;
use scram_types::ProcId;

// Applies `event` with `word` if the event is the next event of its actor. Returns `true` if the event was applied.
fn make(core: &mut Core, event: Event, word: u64) -> bool
    requires { IsNextIn core.old event → IsWordIn core.old event word }
    ensures spec { core.new.spec ≡ core.old.spec }
    ensures script { core.new.script ≡ core.old.script }
{
    core.step(event, word).is_ok()
}

// Returns `true` if `event` needs no word.
fn is_plain(event: Event) -> bool
    ensures { IsTrue result → (m : Flight) (at : Places) (word : ℕ) → IsEventWord m at event word }
{
    match event {
        Event::Store(_, _) => false,
        Event::KStore(_) => false,
        Event::Start(_) => true,
        Event::Look(_, _) => true,
        Event::Flip(_) => true,
        Event::Done(_) => true,
        Event::Halt(_) => true,
        Event::KNote(_) => true,
        Event::Release => true,
    }
}

// Applies `event` if it needs no word and is the next event of its actor. Returns `true` if the event was applied.
fn make_plain(core: &mut Core, event: Event) -> bool
    ensures spec { core.new.spec ≡ core.old.spec }
    ensures script { core.new.script ≡ core.old.script }
{
    is_plain(event) && core.step(event, 0).is_ok()
}

/// Makes the next step of the kernel and returns it, or returns `None` if there is none.
pub(crate) fn make_kernel(core: &mut Core) -> Option<Event>
    ensures spec { core.new.spec ≡ core.old.spec }
    ensures script { core.new.script ≡ core.old.script }
{
    let next = core.next_kernel();
    match next {
        Some(Event::KStore(i)) => {
            let word = core.kernel_word(i);
            make(core, Event::KStore(i), word);
        }
        Some(event) => {
            make_plain(core, event);
        }
        None => {}
    }
    next
}

/// Makes the next step of the kernel. If the kernel has none, makes the next step of each processor whose step needs no
/// draft.
pub(crate) fn make_any(core: &mut Core)
    ensures spec { core.new.spec ≡ core.old.spec }
    ensures script { core.new.script ≡ core.old.script }
{
    if make_kernel(core).is_some() {
        return;
    }
    for p in 0..8 {
        if let Some(event) = core.next_of(ProcId(p)) {
            make_plain(core, event);
        }
    }
}

/// Makes the next step of processor `p`, if there is one, and returns the result. If a store is next and `drafted` is
/// not a draft of the processor's current frame, makes no step and returns the snapshot of that frame.
pub(crate) fn make_step(core: &mut Core, p: ProcId, drafted: Option<&Draft>) -> Made
    requires drafted { IfSome drafted (λ draft. IsDraftOf (mission_of core.old.spec core.old.script) p.0 draft.now) }
    ensures saw { IfSaw result (IsSnapshotOf (mission_of core.old.spec core.old.script)) }
    ensures spec { core.new.spec ≡ core.old.spec }
    ensures script { core.new.script ≡ core.old.script }
{
    match core.next_of(p) {
        Some(Event::Store(_, i)) => make_store(core, p, i, drafted),
        Some(event) => make_other(core, p, event),
        None => Made::Nothing,
    }
}

fn make_store(core: &mut Core, p: ProcId, i: u8, drafted: Option<&Draft>) -> Made
    requires known { p.0 < length core.old.spec.procs }
    requires looked { HasLooked (core_flight core.old) ((core_places core.old).proc p.0) }
    requires drafted { IfSome drafted (λ draft. IsDraftOf (mission_of core.old.spec core.old.script) p.0 draft.now) }
    ensures saw { IfSaw result (IsSnapshotOf (mission_of core.old.spec core.old.script)) }
    ensures spec { core.new.spec ≡ core.old.spec }
    ensures script { core.new.script ≡ core.old.script }
{
    match word_of(drafted, core.frame_of(p), i) {
        Some(word) => {
            make(core, Event::Store(p, i), word);
            Made::Moved
        }
        None => Made::Saw(core.snapshot(p)),
    }
}

fn make_other(core: &mut Core, p: ProcId, event: Event) -> Made
    requires known { p.0 < length core.old.spec.procs }
    ensures saw { (mission : MissionParts) → IfSaw result (IsSnapshotOf mission) }
    ensures spec { core.new.spec ≡ core.old.spec }
    ensures script { core.new.script ≡ core.old.script }
{
    let frame = core.frame_of(p);
    if !make_plain(core, event) {
        return Made::Nothing;
    }
    match event {
        Event::Start(_) => Made::Started,
        Event::Done(_) => Made::Done,
        Event::Halt(_) => Made::Halted(frame),
        _ => Made::Moved,
    }
}

// Returns word `i` of the draft `drafted`, encoded for storage. Returns `None` if there is no draft, if it is of
// another frame than `frame`, or if it has no word `i`.
fn word_of(drafted: Option<&Draft>, frame: u32, i: u8) -> Option<u64>
    ensures { (mission : MissionParts) (p : ℕ) → IfSome drafted.entry (λ draft. IsDraftOf mission p draft.now)
        → IfSome result (λ word. IsDraftWord mission p frame i word) }
{
    let draft = drafted?;
    if draft.frame == frame {
        Some(encode(*draft.image.get(usize::from(i))?))
    } else {
        None
    }
}
