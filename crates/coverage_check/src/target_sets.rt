//! The covers of configurations, and their possible targets.

ghost use Rattle.std.specs.Prelude.{◌≡◌, ◌<◌, IfOk, length};
ghost use Rattle.coverage_check.specs.TargetSets.{AreTargets, HasCovers};
ghost use Rattle.coverage_check.specs.Timing.{targets};

use cube_cover::{Cover, cover};
use scram_types::{ConfId, NoMemory, Spec};
use std::alloc::Global;

/// Returns the possible targets of configuration `i` as bits. Bit `j` is set if and only if the table chooses `j` from
/// `i` in some environment in scope.
///
/// # Errors
///
/// Returns an error if memory runs out.
pub fn targets(alloc: Global, spec: &Spec, i: ConfId) -> Result<u16, NoMemory>
    requires { i.0 < length spec.now.confs }
    ensures set { IfOk result (λ set. set ≡ targets spec.now i) }
    ensures members { IfOk result (λ set. AreTargets spec.now i set) }
{
    let _known = spec.count_confs();
    let found = cover(alloc, spec, i)?;
    Ok(found.targets)
}

// Returns the cover of each configuration. The entries past the last configuration are empty covers. The memory of a
// cover is freed before the next one is computed.
pub(crate) fn find_covers(alloc: Global, spec: &Spec) -> Result<[Cover; 12], NoMemory>
    ensures { IfOk result (λ covers. HasCovers spec.now covers) }
{
    let mut covers = [Cover {
        targets: 0,
        unfit: None,
        not_runnable: None,
        unsettled: None,
    }; 12];
    for i in 0..spec.count_confs() {
        covers[usize::from(i)] = cover(alloc, spec, ConfId(i))?;
    }
    Ok(covers)
}
