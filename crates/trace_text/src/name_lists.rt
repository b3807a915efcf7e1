//! Lists of names in a row's line: the values of the factors, and the processors that are up.

ghost use Rattle.std.specs.Prelude.{◌≡◌, ◌≤◌, ◌==◌, length, option_map};
ghost use Rattle.std.specs.List.{list_all};
ghost use Rattle.trace_text.specs.Pieces.{pieces_of, pieces_left, items_of};
ghost use Rattle.trace_text.specs.RowReading.{is_next, names_left, up_in, values_in, is_proc_name};

use crate::pieces::{first_piece, is_dash};
use scram_types::{Proc, Spec};

// Returns the names of a list, or `None` for the empty list `-`.
fn start_of(list: &[u8]) -> Option<&[u8]>
    ensures { pieces_left 44 (option_map (λ b. b.now) result) ≡ items_of list.now }
{
    if is_dash(list) { None } else { Some(list) }
}

/// Returns `true` if a list has `count` names. The text `-` counts as one name.
pub fn has_names(list: &[u8], count: usize) -> bool
    ensures { result ≡ (length (pieces_of 44 list.now) == count) }
{
    let mut wanted = count;
    let mut left = Some(list);
    while let Some(names) = left {
        if wanted == 0 {
            return false;
        }
        left = first_piece(names, b',').1;
        wanted -= 1;
    }
    wanted == 0
}

/// Returns `true` if each name in a list is the name of a processor.
pub fn are_procs(spec: &Spec, list: &[u8]) -> bool
    ensures { result ≡ list_all (is_proc_name spec.now) (items_of list.now) }
{
    let mut left = start_of(list);
    while let Some(names) = left {
        let (name, behind) = first_piece(names, b',');
        if spec.proc_named(name).is_none() {
            return false;
        }
        left = behind;
    }
    true
}

/// Returns the numbers of the values that a list names, one for each factor, followed by zeros. Returns `None` if a
/// name is unknown or missing.
pub fn find_values(spec: &Spec, list: &[u8]) -> Option<[u8; 6]>
    ensures { result ≡ values_in spec.now.factors list.now }
{
    let mut values = [0; 6];
    let mut left = Some(list);
    for (i, factor) in spec.factors.items().iter().enumerate() {
        let (name, behind) = first_piece(left?, b',');
        values[i] = factor.value_named(name)?;
        left = behind;
    }
    Some(values)
}

/// Returns the bits of the processors that a list names, or `None` if a name is unknown or the names are not in the
/// order of the processors.
pub fn read_up(procs: &[Proc], list: &[u8]) -> Option<u8>
    requires { length procs.now ≤ 8 }
    ensures { result ≡ up_in procs.now list.now }
{
    let mut up: u8 = 0;
    let mut bit: u16 = 1;
    let mut left = start_of(list);
    for proc in procs {
        let (named, behind) = pass(proc, left);
        if named {
            up += bit as u8;
        }
        left = behind;
        bit *= 2;
    }
    match left {
        Some(_) => None,
        None => Some(up),
    }
}

// Returns `true` and the remaining names if the first name of `left` is the name of the processor. Returns `false`
// and all names otherwise.
fn pass<'a>(proc: &Proc, left: Option<&'a [u8]>) -> (bool, Option<&'a [u8]>)
    ensures named { result.0 ≡ is_next proc.now (pieces_left 44 (option_map (λ b. b.now) left.entry)) }
    ensures left { pieces_left 44 (option_map (λ b. b.now) result.1) ≡ names_left proc.now (pieces_left 44 (option_map (λ b. b.now) left.entry)) }
{
    match left {
        Some(names) => {
            let (name, behind) = first_piece(names, b',');
            if proc.name.as_str().as_bytes() == name {
                (true, behind)
            } else {
                (false, left)
            }
        }
        None => (false, None),
    }
}
