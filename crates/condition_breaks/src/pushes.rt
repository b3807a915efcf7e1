//! Functions that append to a list of places.

ghost use Rattle.std.specs.Prelude.{◌≡◌, ◌++◌, OnOk};
ghost use Rattle.std.specs.Option.{option_to_list};
ghost use Rattle.condition_breaks.specs.Lists.{one_if};

use crate::breaks::Break;
use scram_types::NoMemory;

// Appends the place `found` if `test` is `true`.
pub(crate) fn push_if(breaks: &mut Vec<Break>, test: bool, found: Break) -> Result<(), NoMemory>
    ensures { OnOk result (breaks.new.items ≡ breaks.old.items ++ one_if test found) }
{
    if test {
        breaks.push(found)?;
    }
    Ok(())
}

// Appends the place `found` if it is not `None`.
pub(crate) fn push_found(breaks: &mut Vec<Break>, found: Option<Break>) -> Result<(), NoMemory>
    ensures { OnOk result (breaks.new.items ≡ breaks.old.items ++ option_to_list found) }
{
    match found {
        Some(found) => {
            breaks.push(found)?;
            Ok(())
        }
        None => Ok(()),
    }
}
