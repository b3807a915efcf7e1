//! The one-thread trace of a script.

ghost use Rattle.std.specs.Prelude.{◌≡◌, ◌<◌, ◌+◌, IfOk, length};
ghost use Rattle.fault_script.specs.Fits.{Fits};
ghost use Rattle.frame_model.specs.Flights.{row_at, rows_of};
ghost use Rattle.frame_model.specs.Standing.{StandsBefore};

use crate::frames::frame;
use crate::systems::Sys;
use app_model::Rack;
use fault_script::Walk;
use scram_types::{NoMemory, Row, Script, Spec};
use std::alloc::Global;

/// Returns the one-thread trace of a script: the rows of all its frames, in order. Returns an error only if memory
/// runs out.
pub fn rows(
    alloc: Global,
    spec: &Spec,
    script: &Script,
    mut racks: Vec<Rack>,
) -> Result<Vec<Row>, NoMemory>
    requires script { Fits spec.now script.now }
    ensures rows { IfOk result (λ rows. rows.items ≡ rows_of spec.now script.now) }
    ensures count { IfOk result (λ rows. length rows.items ≡ script.now.frames) }
{
    fly_all(alloc, spec, script, &mut racks)
}

#[tactic(auto, using(scram_types::proofs::Searches::length_listed))]
fn fly_all(
    alloc: Global,
    spec: &Spec,
    script: &Script,
    racks: &mut [Rack],
) -> Result<Vec<Row>, NoMemory>
    requires script { Fits spec.now script.now }
    ensures rows { IfOk result (λ rows. rows.items ≡ rows_of spec.now script.now) }
    ensures count { IfOk result (λ rows. length rows.items ≡ script.now.frames) }
{
    let mut rows = Vec::with_capacity(alloc, script.frames as usize)?;
    let mut sys = Sys::start(spec);
    let mut walk = Walk::first(spec, script);
    for _frame in 0..script.frames {
        rows.push(fly(spec, script, &mut sys, &mut walk, racks))?;
    }
    Ok(rows)
}

// Flies the next frame of the script and returns its row.
fn fly(spec: &Spec, script: &Script, sys: &mut Sys, walk: &mut Walk, racks: &mut [Rack]) -> Row
    requires script { Fits spec.now script.now }
    requires frame { sys.old.frame < script.now.frames }
    requires before { StandsBefore spec.now script.now sys.old.frame sys.old walk.old }
    ensures row { result ≡ row_at spec.now script.now sys.old.frame }
    ensures after { StandsBefore spec.now script.now (sys.old.frame + 1) sys.new walk.new }
{
    let input = walk.input(spec, script);
    *walk = walk.next(spec, script);
    frame(spec, sys, &input, racks)
}
