//! The places at which the conditions A5 to A8 on the choice table do not hold.

ghost use Rattle.std.specs.Prelude.{◌≡◌, ◌++◌, ◌<◌, IfOk, OnOk, length, option_map};
ghost use Rattle.coverage_check.specs.Choosing.{first_unmet_env, leaves_start};
ghost use Rattle.condition_breaks.specs.declared.breaks.Break.TheVariants as broken;
ghost use Rattle.condition_breaks.specs.Breaks.{start_breaks, unmet_breaks};

use crate::breaks::Break;
use crate::pushes::{push_found, push_if};
use choice_table::choose;
use coverage_check::choosing::{Requirement, unmet_of_cover};
use cube_cover::cover;
use scram_types::{ConfId, Env, NoMemory, Spec};
use std::alloc::Global;

// Appends the place of A5, A6 or A7 for each configuration that does not meet the requirement `asked` in some
// environment in scope. A place contains the first environment in scope in which the requirement is not met.
pub(crate) fn add_unmet_breaks(
    alloc: Global,
    breaks: &mut Vec<Break>,
    spec: &Spec,
    asked: Requirement,
) -> Result<(), NoMemory>
    ensures { OnOk result (breaks.new.items ≡ breaks.old.items ++ unmet_breaks spec.now asked) }
{
    for c in 0..spec.count_confs() {
        let unmet = first_unmet_env(alloc, spec, asked, ConfId(c))?;
        push_found(breaks, unmet_in(asked, ConfId(c), unmet))?;
    }
    Ok(())
}

// Returns the first environment in scope in which configuration `c` does not meet the requirement `asked`, or `None`
// if there is none.
fn first_unmet_env(
    alloc: Global,
    spec: &Spec,
    asked: Requirement,
    c: ConfId,
) -> Result<Option<Env>, NoMemory>
    requires { c.0 < length spec.now.confs }
    ensures { IfOk result (λ unmet. unmet ≡ first_unmet_env spec.now asked c) }
{
    let _known = spec.count_confs();
    let found = cover(alloc, spec, c)?;
    Ok(unmet_of_cover(&found, asked))
}

fn unmet_in(asked: Requirement, c: ConfId, unmet: Option<Env>) -> Option<Break>
    ensures { result ≡ option_map (λ v. broken.Unmet asked c v) unmet }
{
    match unmet {
        Some(env) => Some(Break::Unmet(asked, c, env)),
        None => None,
    }
}

// Appends the place of A8 if the table leaves the start configuration in the opening environment.
pub(crate) fn add_start_breaks(breaks: &mut Vec<Break>, spec: &Spec) -> Result<(), NoMemory>
    ensures { OnOk result (breaks.new.items ≡ breaks.old.items ++ start_breaks spec.now) }
{
    push_if(breaks, leaves_start(spec), Break::StartLeft)
}

fn leaves_start(spec: &Spec) -> bool
    ensures { result ≡ leaves_start spec.now }
{
    choose(spec, spec.start, &spec.opening_env()).0 != spec.start.0
}
