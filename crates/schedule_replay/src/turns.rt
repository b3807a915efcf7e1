//! The round-robin schedule.

ghost use Rattle.std.specs.Prelude.{◌≡◌, ◌*◌, ◌<◌, ◌∷◌, ◌++◌, [], IfOk, None, OnOk, Some, ℕ, length, option_map};
ghost use Rattle.bank_words.specs.declared.events.Event.TheVariants.{KNote, KStore, Look, Release, Store};
ghost use Rattle.fail_stop.specs.Flights.{Flight, stores_by};
ghost use Rattle.fail_stop.specs.ScriptFlights.{flight_of};
ghost use Rattle.scram_types.specs.Lookups.{proc_id};
ghost use Rattle.scram_types.specs.Scripts.{ScriptParts};
ghost use Rattle.scram_types.specs.Searches.{listed_below};
ghost use Rattle.scram_types.specs.declared.scripts.HaltAt.{HaltAt};
ghost use Rattle.schedule_replay.specs.Events.{HasEvents};
ghost use Rattle.schedule_replay.specs.Turns.{Adds, ending, in_turns, releasing, steps_by, turn_of_kernel, turn_of_proc, turns_of_procs};
ghost use Rattle.bank_words.specs.declared.events.Event.{Event};

use bank_words::Event;
use fault_script::{halt_in, up_at};
use scram_types::{HaltAt, NoMemory, ProcId, Script, Spec};
use std::alloc::Global;

/// Returns the round-robin schedule. In each frame, each processor in order makes all its steps, and then the kernel
/// makes all its steps. A processor that is down makes no step. A processor that restarts does so in its turn.
///
/// # Errors
///
/// Returns an error if memory runs out.
pub fn in_turns(alloc: Global, spec: &Spec, script: &Script) -> Result<Vec<Event>, NoMemory>
    ensures turns { IfOk result (λ list. list.items ≡ in_turns spec.now script.now) }
    ensures known { IfOk result (λ list. HasEvents spec.now list.items) }
{
    // From the use of a field, the prover knows that the specification satisfies its invariant.
    let _ = &spec.procs;
    add_frames(alloc, spec, script)
}

fn add_frames(alloc: Global, spec: &Spec, script: &Script) -> Result<Vec<Event>, NoMemory>
    ensures { IfOk result (λ list. list.items ≡ in_turns spec.now script.now) }
{
    let mut list = Vec::new(alloc);
    for frame in 0..script.frames {
        add_procs(&mut list, spec, script, frame)?;
        add_kernel(&mut list, spec, script, frame)?;
    }
    Ok(list)
}

fn add_procs(
    list: &mut Vec<Event>,
    spec: &Spec,
    script: &Script,
    frame: u32,
) -> Result<(), NoMemory>
    ensures { OnOk result (let m = flight_of spec.now script.now in Adds list.old.items list.new.items (turns_of_procs m frame m.procs)) }
{
    let procs = spec.count_procs();
    for p in 0..procs {
        add_turn(list, spec, script, ProcId(p), frame)?;
    }
    Ok(())
}

fn add_turn(
    list: &mut Vec<Event>,
    spec: &Spec,
    script: &Script,
    p: ProcId,
    frame: u32,
) -> Result<(), NoMemory>
    ensures { OnOk result (Adds list.old.items list.new.items (turn_of_proc (flight_of spec.now script.now) p.0 frame)) }
{
    if up_at(script, p, frame) {
        add_steps(list, spec, p, halt_in(script, p, frame))
    } else {
        Ok(())
    }
}

fn add_steps(
    list: &mut Vec<Event>,
    spec: &Spec,
    p: ProcId,
    halt: Option<HaltAt>,
) -> Result<(), NoMemory>
    ensures { (script : ScriptParts) → OnOk result (Adds list.old.items list.new.items
        (steps_by (flight_of spec.now script) p.0 (option_map (λ (halt : HaltAt). halt.step) halt))) }
{
    let width = image_words(spec);
    add(list, Event::Start(p))?;
    add_looks(list, p, spec.count_procs())?;
    match halt {
        None => add_all_stores(list, p, width),
        Some(halt) => add_until_halt(list, p, width, halt.step),
    }
}

fn add_all_stores(list: &mut Vec<Event>, p: ProcId, width: u8) -> Result<(), NoMemory>
    ensures { (m : Flight) → m.width ≡ width → OnOk result (Adds list.old.items list.new.items
        (listed_below (λ (i : ℕ). Store (proc_id p.0) i) (stores_by m.width None) ++ ending m p.0 None)) }
{
    add_stores(list, p, width)?;
    add(list, Event::Flip(p))?;
    add(list, Event::Done(p))
}

fn add_until_halt(list: &mut Vec<Event>, p: ProcId, width: u8, step: u8) -> Result<(), NoMemory>
    ensures { (m : Flight) → m.width ≡ width → OnOk result (Adds list.old.items list.new.items
        (listed_below (λ (i : ℕ). Store (proc_id p.0) i) (stores_by m.width (Some step)) ++ ending m p.0 (Some step))) }
{
    if width < step {
        add_stores(list, p, width)?;
        add(list, Event::Flip(p))?;
        add(list, Event::Halt(p))
    } else {
        add_stores(list, p, step)?;
        add(list, Event::Halt(p))
    }
}

fn add_looks(list: &mut Vec<Event>, p: ProcId, procs: u8) -> Result<(), NoMemory>
    ensures { OnOk result (Adds list.old.items list.new.items (listed_below (λ (q : ℕ). Look (proc_id p.0) (proc_id q)) procs)) }
{
    for q in 0..procs {
        add(list, Event::Look(p, ProcId(q)))?;
    }
    Ok(())
}

fn add_stores(list: &mut Vec<Event>, p: ProcId, stores: u8) -> Result<(), NoMemory>
    ensures { OnOk result (Adds list.old.items list.new.items (listed_below (λ (i : ℕ). Store (proc_id p.0) i) stores)) }
{
    for i in 0..stores {
        add(list, Event::Store(p, i))?;
    }
    Ok(())
}

fn add_kernel(
    list: &mut Vec<Event>,
    spec: &Spec,
    script: &Script,
    frame: u32,
) -> Result<(), NoMemory>
    requires { frame < script.now.frames }
    ensures { OnOk result (Adds list.old.items list.new.items (turn_of_kernel (flight_of spec.now script.now) frame)) }
{
    add_notes(list, spec.count_procs())?;
    add_releasing(list, script, frame)
}

fn add_releasing(list: &mut Vec<Event>, script: &Script, frame: u32) -> Result<(), NoMemory>
    requires { frame < script.now.frames }
    ensures { (m : Flight) → m.frames ≡ script.now.frames → OnOk result (Adds list.old.items list.new.items (releasing m frame)) }
{
    let frames = script.frames;
    if frame + 1 < frames {
        add_release(list)
    } else {
        Ok(())
    }
}

fn add_release(list: &mut Vec<Event>) -> Result<(), NoMemory>
    ensures { OnOk result (Adds list.old.items list.new.items (listed_below KStore 20 ++ Release ∷ [])) }
{
    add_kernel_stores(list)?;
    add(list, Event::Release)
}

fn add_notes(list: &mut Vec<Event>, procs: u8) -> Result<(), NoMemory>
    ensures { OnOk result (Adds list.old.items list.new.items (listed_below (λ (p : ℕ). KNote (proc_id p)) procs)) }
{
    for p in 0..procs {
        add(list, Event::KNote(ProcId(p)))?;
    }
    Ok(())
}

fn add_kernel_stores(list: &mut Vec<Event>) -> Result<(), NoMemory>
    ensures { OnOk result (Adds list.old.items list.new.items (listed_below KStore 20)) }
{
    for i in 0..20 {
        add(list, Event::KStore(i))?;
    }
    Ok(())
}

fn add(list: &mut Vec<Event>, event: Event) -> Result<(), NoMemory>
    ensures { OnOk result (Adds list.old.items list.new.items (event ∷ [])) }
{
    list.push(event)?;
    Ok(())
}

// Returns the number of words of an image.
fn image_words(spec: &Spec) -> u8
    ensures { result ≡ 8 * length spec.now.apps }
{
    8 * spec.apps.items().len() as u8
}
