//! Bounds on reconfigurations.

ghost use Rattle.std.specs.Prelude.{◌≡◌, ◌≤◌, None, codes, length, is_some, IfOk};
ghost use Rattle.serde_json.specs.View.{view};
ghost use Rattle.scram_types.specs.Specification.{IsIn, bound_in};
ghost use Rattle.scram_doc.specs.Faults.{Answers};
ghost use Rattle.spec_reading.specs.Bounds.{read_new_target, read_bound, read_bounds};
ghost use Rattle.spec_reading.specs.Members.{member_in};
ghost use Rattle.scram_doc.specs.Lists.{AllAfter};
ghost use Rattle.spec_reading.specs.TableFacts.{IsNewBound};
ghost use Rattle.spec_reading.specs.Found.{AreMembers};

use crate::choices::read_conf_id;
use crate::members::Members;
use crate::names::ByName;
use crate::numbered::Numbered;
use crate::rule;
use crate::vocabulary::Vocabulary;
use scram_doc::{DocError, DocFault, Elements, Lengths, Path, exactly_three, read_list, whole_in};
use scram_types::limits::{MAX_BOUND, MAX_BOUNDS};
use scram_types::{Bound, Conf, ConfId};
use serde_json::Value;
use std::alloc::Global;

fn is_bounded(bounds: &[Bound], from: ConfId, to: ConfId) -> bool
    ensures { result ≡ is_some (bound_in bounds.now from.0 to.0) }
{
    for bound in bounds {
        if bound.from.0 == from.0 && bound.to.0 == to.0 {
            return true;
        }
    }
    false
}

fn read_new_target(
    confs: &Numbered<Conf, ByName>,
    done: &[Bound],
    from: ConfId,
    v: &Value,
    at: &Path,
) -> Result<ConfId, DocFault>
    requires few { length confs.now ≤ 12 }
    ensures value { result ≡ read_new_target confs.now done.now from at.now (view v.now) }
    ensures there { IfOk result (λ to. IsIn confs.now to) }
    ensures new { IfOk result (λ to. bound_in done.now from.0 to.0 ≡ None) }
{
    let to = read_conf_id(confs, v, at)?;
    if is_bounded(done, from, to) {
        Err(DocFault::new(rule::TWICE_IN_LIST, at))
    } else {
        Ok(to)
    }
}

#[derive(Clone, Copy)]
struct Bounds<'a> {
    vocabulary: &'a Vocabulary,
}

impl Elements<Bound> for Bounds<'_> {
    ghost room = { 40 };

    ghost reading = { λ bounds. read_bound bounds.vocabulary.now.confs };

    ghost Fits = { λ bounds. IsNewBound bounds.vocabulary.now.confs };

    fn read(
        &self,
        _alloc: Global,
        done: &[Bound],
        v: &Value,
        at: &Path,
    ) -> Result<Bound, DocError> {
        let (from, to, frames) = exactly_three(v, ("from", "to", "frames"), at)?;
        let vocabulary = self.vocabulary;
        let confs = &vocabulary.confs;
        let from = read_conf_id(confs, from, &at.member("from"))?;
        let to = read_new_target(confs, done, from, to, &at.member("to"))?;
        let frames = whole_in(frames, 1, MAX_BOUND + 1, &at.member("frames"))?;
        Ok(Bound { from, to, frames })
    }
}

/// Reads the 0 to 144 bounds of a document. Returns an error with the first broken rule, or `NoMemory` if memory runs
/// out.
pub fn read_bounds(
    alloc: Global,
    vocabulary: &Vocabulary,
    members: &Members<'_>,
) -> Result<Vec<Bound>, DocError>
    requires members { AreMembers members.now }
    ensures value { Answers (member_in (codes "bounds") (read_bounds vocabulary.now.confs) (view members.now.document.now)) (λ l. l.items) result }
    ensures few { IfOk result (λ l. length l.items ≤ 144) }
    ensures fits { IfOk result (λ l. AllAfter (IsNewBound vocabulary.now.confs) l.items) }
{
    let at = Path::root().member("bounds");
    read_list(
        alloc,
        &Bounds { vocabulary },
        members.bounds,
        Lengths::up_to(MAX_BOUNDS),
        &at,
    )
}
