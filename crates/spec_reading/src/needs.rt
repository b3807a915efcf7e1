//! The needs of applications, read by name and ranked.

ghost use Rattle.std.specs.Prelude.{◌≡◌, ◌≤◌, ◌<◌, ℕ, length, All, Ok, Some, codes, option_map, slice_get, IfErr, IfOk, OnOk, true};
ghost use Rattle.serde_json.specs.View.{view};
ghost use Rattle.scram_types.specs.declared.ids.AppId.{AppId};
ghost use Rattle.scram_types.specs.Specification.{Each};
ghost use Rattle.scram_doc.specs.Faults.{Answers};
ghost use Rattle.spec_reading.specs.Members.{member_in};
ghost use Rattle.spec_reading.specs.Names.{name_of_app};
ghost use Rattle.spec_reading.specs.Needs.{apps_in, are_ranked, read_need, read_needs, with_needs, with_ranks, ranked_at, read_unranked};
ghost use Rattle.dep_order.specs.Timetables.{is_named};
ghost use Rattle.spec_reading.specs.AppFacts.{IsNewNeed, AreNeeds};
ghost use Rattle.dep_order.specs.Ranks.{IsCycle, IsRanking, RanksFall};
ghost use Rattle.spec_reading.specs.Answers.{AreNamed, AnswersSpec, ShowsCycle, HasNoCycle};
ghost use Rattle.spec_reading.specs.Kept.{AreApps};
ghost use Rattle.spec_reading.specs.Unranked.{AreUnranked};
ghost use Rattle.spec_reading.specs.Found.{AreMembers};

use crate::applications::Apps;
use crate::fault::{SpecError, SpecFault};
use crate::members::Members;
use crate::names::{ByName, read_named};
use crate::numbered::{Numbered, read_named_items};
use crate::rule;
use arrayvec::ArrayVec;
use dep_order::timetables::is_named;
use dep_order::{Cycle, rank};
use scram_doc::{
    DocError, DocFault, Elements, Lengths, Path, list, read_items, read_list, required,
};
use scram_types::limits::MAX_APPLICATIONS;
use scram_types::{AppId, AppSpec, List, Name};
use serde_json::Value;
use std::alloc::Global;

/// A reader of the needs of an application. Each need is the name of an application of `apps`.
#[derive(Clone, Copy)]
struct Needs<'a> {
    apps: &'a Numbered<AppSpec, ByName>,

    ghost few: { length apps.now ≤ 8 },
}

impl Elements<AppId> for Needs<'_> {
    ghost room = { 40 };

    ghost reading = { λ needs. read_need needs.apps.now };

    ghost Fits = { λ needs. IsNewNeed needs.apps.now };

    fn read(
        &self,
        _alloc: Global,
        done: &[AppId],
        v: &Value,
        at: &Path,
    ) -> Result<AppId, DocError> {
        let app = AppId(read_named(self.apps, rule::UNKNOWN_APPLICATION, v, at)?);
        if is_named(done, usize::from(app.0)) {
            Err(DocError::from(DocFault::new(rule::TWICE_IN_LIST, at)))
        } else {
            Ok(app)
        }
    }
}

impl Elements<List<AppId>> for Needs<'_> {
    ghost room = { 24 };

    ghost reading = { λ needs. read_needs needs.apps.now };

    ghost Fits = { λ needs _. AreNeeds needs.apps.now };

    fn read(
        &self,
        alloc: Global,
        _done: &[List<AppId>],
        v: &Value,
        at: &Path,
    ) -> Result<List<AppId>, DocError> {
        let needs = required(v, "needs", at)?;
        let at = at.member("needs");
        let needs: Vec<AppId> = read_list(
            alloc,
            self,
            needs,
            Lengths::up_to(MAX_APPLICATIONS),
            &at,
        )?;
        Ok(List::of(needs))
    }
}

/// Sets the needs of each application, in the order of `apps`. `needs` must not be longer than `apps`.
fn set_needs(apps: &mut [AppSpec], needs: Vec<List<AppId>>)
    requires { length needs.items ≤ length apps.old }
    ensures { apps.new ≡ with_needs apps.old needs.items }
{
    let mut needs = needs;
    while let Some(named) = needs.pop() {
        apps[needs.len()].needs = named;
    }
}

/// Sets the rank of each application, in the order of `apps`. `ranks` must not be longer than `apps`.
fn set_ranks(apps: &mut [AppSpec], ranks: ArrayVec<u8, 8>)
    requires { length ranks.items ≤ length apps.old }
    ensures { apps.new ≡ with_ranks apps.old ranks.items }
{
    let mut ranks = ranks;
    while let Some(rank) = ranks.pop() {
        apps[ranks.len()].rank = rank;
    }
}

/// Reads the applications with their needs but without their ranks.
fn read_unranked(alloc: Global, v: &Value, at: &Path) -> Result<Numbered<AppSpec, ByName>, DocError>
    requires room { length at.now ≤ 18 }
    ensures value { Answers (read_unranked at.now (view v.now)) (λ apps. apps) result }
    ensures fits { IfOk result (λ apps. AreUnranked apps) }
{
    let items = list(v, 1, MAX_APPLICATIONS, at)?;
    let apps: Numbered<AppSpec, ByName> = read_named_items(alloc, &Apps, items, at)?;
    let known = Needs { apps: &apps };
    let needs: Vec<List<AppId>> = read_items(alloc, &known, items, at)?;
    let (mut apps, numbers) = apps.into_parts();
    set_needs(&mut apps, needs);
    Ok(Numbered::of(apps, numbers))
}

fn name_of(apps: &[AppSpec], app: AppId) -> Name
    requires { app.0 < length apps.now }
    ensures { option_map name_of_app (slice_get apps.now app.0) ≡ Some result }
{
    apps[usize::from(app.0)].name.copy()
}

/// Returns the names of the listed applications, in order. There must be at most eight of them, and each must exist.
fn names_of(apps: &[AppSpec], listed: &[AppId]) -> ArrayVec<Name, 8>
    requires there { Each (λ (app : AppId). app.0 < length apps.now) listed.now }
    requires few { length listed.now ≤ 8 }
    ensures { AreNamed apps.now listed.now result.items }
{
    let mut names = ArrayVec::new();
    for app in listed {
        names.push(name_of(apps, *app));
    }
    names
}

/// Returns the applications with their ranks, or an error with the cycle that prevents a ranking.
fn finish_apps(
    apps: Numbered<AppSpec, ByName>,
    ranked: Result<ArrayVec<u8, 8>, Cycle>,
    at: &Path,
) -> Result<Numbered<AppSpec, ByName>, SpecError>
    requires fits { AreUnranked apps }
    requires ranks { IfOk ranked (λ ranks. IsRanking apps ranks.items) }
    requires falls { IfOk ranked (λ ranks. RanksFall apps ranks.items) }
    requires small { IfOk ranked (λ ranks. All (λ (rank : ℕ). rank < 8) ranks.items) }
    requires cycle { IfErr ranked (λ cycle. IsCycle apps cycle.0.items) }
    ensures value { AnswersSpec (ranked_at at.now apps) result }
    ensures cycle { IfErr result (λ error. ShowsCycle (Ok apps) error) }
    ensures no_cycle { OnOk result (are_ranked apps ≡ true) }
    ensures fits { IfOk result (λ l. AreApps l) }
{
    match ranked {
        Ok(ranks) => {
            let (mut apps, numbers) = apps.into_parts();
            set_ranks(&mut apps, ranks);
            Ok(Numbered::of(apps, numbers))
        }
        Err(cycle) => {
            let names = names_of(apps.items(), &cycle.0);
            Err(SpecError::Fault(SpecFault {
                rule: rule::CYCLE_OF_NEEDS,
                path: at.copy(),
                cycle: cycle.0,
                names,
            }))
        }
    }
}

/// Reads the 1 to 8 applications of a document and ranks them by their needs.
///
/// # Errors
///
/// Returns an error with the first broken rule and its path, and `NoMemory` if memory runs out. If the needs have a
/// cycle, the error contains a cycle.
pub fn read_apps(
    alloc: Global,
    members: &Members<'_>,
) -> Result<Numbered<AppSpec, ByName>, SpecError>
    requires members { AreMembers members.now }
    ensures value { AnswersSpec (apps_in (view members.now.document.now)) result }
    ensures cycle { IfErr result (λ error. ShowsCycle (member_in (codes "apps") read_unranked (view members.now.document.now)) error) }
    ensures no_cycle { OnOk result (HasNoCycle (member_in (codes "apps") read_unranked (view members.now.document.now))) }
    ensures fits { IfOk result (λ l. AreApps l) }
{
    let at = Path::root().member("apps");
    let apps = read_unranked(alloc, members.apps, &at)?;
    let ranked = rank(apps.items());
    finish_apps(apps, ranked, &at)
}
