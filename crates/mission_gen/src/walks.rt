//! The changes of a generated script, made block by block.

ghost use Rattle.std.specs.Prelude.{◌≡◌, ◌<◌, ◌≤◌, ◌∷◌, [], IfOk, OnOk};
ghost use Rattle.scram_types.specs.declared.limits.TheConstants.{MAX_FRAMES};
ghost use Rattle.mission_gen.specs.Blocks.{first_frame, next_random, turns_both};
ghost use Rattle.mission_gen.specs.Changes.{changes_of, last_block, next_value};
ghost use Rattle.mission_gen.specs.Turns.{aux_turns, other_turns, turn, turns_in};
ghost use Rattle.mission_gen.specs.Walks.{Turned, WalkedBlock};

use crate::random::{alternator, delay, first_frame, next_random, turns_both};
use scram_types::{Change, FactorId, NoMemory};
use std::alloc::Global;

/// The state of the generator: the random number of its last block, the current values of the factors, and the
/// changes so far.
#[derive(Drop)]
pub(crate) struct Walk {
    random: u32,
    values: [u8; 6],
    changes: Vec<Change>,
}

/// Returns the value of a factor that follows `value`, or the first value if `value` is the last. Alternators have
/// two values, the further factors four.
fn next_value(factor: u8, value: u8) -> u8
    ensures { result ≡ next_value factor value }
{
    let count = if factor < 2 { 2 } else { 4 };
    ((u32::from(value) + 1) % count) as u8
}

/// Changes factor `factor`, which must be below 6, to its next value in a frame.
fn add_turn(walk: &mut Walk, frame: u32, factor: u8) -> Result<(), NoMemory>
    requires { factor < 6 }
    ensures { OnOk result (Turned walk.old walk.new (turn frame factor ∷ [])) }
{
    let value = next_value(factor, walk.values[usize::from(factor)]);
    walk.values[usize::from(factor)] = value;
    walk.changes.push(Change {
        frame,
        factor: FactorId(factor),
        value,
    })?;
    Ok(())
}

/// Adds the change of one of the four further factors in a frame, if `k`, the number of the block, is a multiple of
/// three.
fn add_aux_turn(walk: &mut Walk, k: u32, frame: u32) -> Result<(), NoMemory>
    ensures { OnOk result (Turned walk.old walk.new (aux_turns k frame)) }
{
    if k % 3 == 0 {
        add_turn(walk, frame, 2 + (k / 3 % 4) as u8)
    } else {
        Ok(())
    }
}

/// Adds the change of the other alternator, `delay(x)` frames after `frame`, if the block with random number `x`
/// turns both alternators.
fn add_other_turn(walk: &mut Walk, frame: u32, x: u32) -> Result<(), NoMemory>
    requires { frame ≤ 100000 }
    ensures { OnOk result (Turned walk.old walk.new (other_turns frame x)) }
{
    if turns_both(x) {
        add_turn(walk, frame + delay(x), 1 - alternator(x))
    } else {
        Ok(())
    }
}

/// Adds the changes of block `k`. Block 5 has no changes. The walk has the block's random number.
fn add_turns(walk: &mut Walk, k: u32) -> Result<(), NoMemory>
    requires { k ≤ 1000 }
    ensures { OnOk result (Turned walk.old walk.new (turns_in k walk.old.random)) }
{
    if k == 5 {
        return Ok(());
    }
    let x = walk.random;
    let frame = first_frame(k, x);
    add_turn(walk, frame, alternator(x))?;
    add_aux_turn(walk, k, frame)?;
    add_other_turn(walk, frame, x)
}

/// Advances the walk by a block: draws the next random number and adds the changes of block `k`.
fn add_block(walk: &mut Walk, k: u32) -> Result<(), NoMemory>
    requires { k ≤ 1000 }
    ensures { OnOk result (WalkedBlock k walk.old walk.new) }
{
    walk.random = next_random(walk.random);
    add_turns(walk, k)
}

/// Returns the changes of the script of mission `n`, which has `frames` frames.
pub(crate) fn make_changes(alloc: Global, n: u32, frames: u32) -> Result<Vec<Change>, NoMemory>
    requires { frames ≤ MAX_FRAMES }
    ensures { IfOk result (λ changes. changes.items ≡ changes_of n frames) }
{
    let mut walk = Walk {
        random: n,
        values: [0; 6],
        changes: Vec::new(alloc),
    };
    for done in 0..last_block(frames) {
        add_block(&mut walk, done + 1)?;
    }
    Ok(walk.changes)
}

/// Returns the number of the last block that begins at least 20 frames before the end of a script with `frames`
/// frames. The blocks are numbered from 0.
fn last_block(frames: u32) -> u32
    requires { frames ≤ MAX_FRAMES }
    ensures value { result ≡ last_block frames }
    ensures most { result ≤ 333 }
{
    frames.saturating_sub(20) / 60
}
