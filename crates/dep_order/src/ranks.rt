//! Ranks of applications by their needs.

ghost use Rattle.std.specs.Prelude.{◌≡◌, ℕ, ◌++◌, ◌<◌, ◌≤◌, drop, find, length, slice_get, slice_index_or, take, true, All, IfErr, IfOk, IfSome, MatchOption, None};
ghost use Rattle.dep_order.specs.Ranks.{IsCycle, IsRanking, Needs, NeedsInRange, RanksFall};
ghost use Rattle.dep_order.specs.Ranking.{AreSmall, IsReady, IsSound, IsStuck, IsWaiting, is_unranked, rank_in, ready};
ghost use Rattle.dep_order.specs.Timetables.{is_named};

use crate::timetables::is_named;
use arrayvec::ArrayVec;
use scram_types::{AppId, AppSpec};

/// A cycle of needs: each application needs the next, and the last needs the first. No application occurs twice, and
/// the lowest-numbered application is first.
#[derive(Drop)]
pub struct Cycle(pub ArrayVec<AppId, 8>);

/// Returns the rank of each application: 0 if it needs none, else one more than the maximum rank of the applications
/// that it needs. Returns an error with a cycle if and only if the needs have a cycle. Ranks that the applications
/// already have are ignored.
pub fn rank(apps: &[AppSpec]) -> Result<ArrayVec<u8, 8>, Cycle>
    requires few { length apps.now ≤ 8 }
    requires needs { NeedsInRange apps.now }
    ensures ranks { IfOk result (λ ranks. IsRanking apps.now ranks.items) }
    ensures falls { IfOk result (λ ranks. RanksFall apps.now ranks.items) }
    ensures small { IfOk result (λ ranks. All (λ (r : ℕ). r < 8) ranks.items) }
    ensures cycle { IfErr result (λ cycle. IsCycle apps.now cycle.0.items) }
{
    let ranks = ranks_of_unbound(apps);
    match list_ranks(apps.len(), &ranks) {
        Ok(listed) => Ok(listed),
        Err(waiting) => Err(Cycle(find_cycle(apps, &ranks, AppId(waiting)))),
    }
}

// The rank of each application, or `None` if it has not been found.
type Ranks = [Option<u8>; 8];

// Returns the rank of each application that does not need, directly or indirectly, an application of a cycle of
// needs. For each other application, including those of a cycle, returns `None`.
fn ranks_of_unbound(apps: &[AppSpec]) -> Ranks
    requires few { length apps.now ≤ 8 }
    requires needs { NeedsInRange apps.now }
    ensures sound { IsSound apps.now result }
    ensures small { AreSmall result }
    ensures stuck { IsStuck apps.now result }
{
    let mut ranks = [None; 8];
    while let Some((a, rank)) = find_ready(apps, &ranks) {
        ranks[a] = Some(rank);
    }
    ranks
}

// Returns the first application without a rank whose needs all have a rank, together with the rank that they
// determine, or `None` if there is no such application.
fn find_ready(apps: &[AppSpec], ranks: &Ranks) -> Option<(usize, u8)>
    requires few { length apps.now ≤ 8 }
    requires small { AreSmall ranks.now }
    ensures ready { IfSome result (λ found. IsReady apps.now ranks.now found.0 found.1) }
    ensures stuck { MatchOption result (IsStuck apps.now ranks.now) (λ found. found.0 < length apps.now) }
{
    for (a, app) in apps.iter().enumerate() {
        if is_without_rank(ranks, a) {
            if let Some(rank) = rank_after(ranks, app.needs.items()) {
                return Some((a, rank));
            }
        }
    }
    None
}

fn is_without_rank(ranks: &Ranks, a: usize) -> bool
    requires { a < 8 }
    ensures { result ≡ is_unranked ranks.now a }
{
    ranks[a].is_none()
}

// Returns one more than the maximum rank of the needed applications, or 0 if no application is needed. Returns `None`
// if a needed application has no rank.
fn rank_after(ranks: &Ranks, needs: &[AppId]) -> Option<u8>
    requires { AreSmall ranks.now }
    ensures { result ≡ ready 0 ranks.now needs.now }
{
    let mut rank = 0;
    for needed in needs {
        match rank_of(ranks, *needed) {
            Some(lower) => rank = rank.max(lower + 1),
            None => return None,
        }
    }
    Some(rank)
}

fn rank_of(ranks: &Ranks, app: AppId) -> Option<u8>
    ensures { result ≡ rank_in ranks.now app.0 }
{
    match ranks.get(usize::from(app.0)) {
        Some(rank) => *rank,
        None => None,
    }
}

// Returns the ranks of the first `count` applications, in order, or `Err` with the number of the first application
// without a rank.
fn list_ranks(count: usize, ranks: &Ranks) -> Result<ArrayVec<u8, 8>, u8>
    requires { count ≤ 8 }
    ensures count { IfOk result (λ listed. length listed.items ≡ count) }
    ensures ranks { IfOk result (λ listed. ((a : ℕ) → a < count → rank_in ranks.now a ≡ slice_get listed.items a)) }
    ensures waiting { IfErr result (λ a. a < count) }
    ensures unranked { IfErr result (λ a. rank_in ranks.now a ≡ None) }
{
    let mut listed = ArrayVec::new();
    for a in 0..count as u8 {
        match rank_of(ranks, AppId(a)) {
            Some(rank) => listed.push(rank),
            None => return Err(a),
        }
    }
    Ok(listed)
}

// Returns the first needed application that has no rank, or `None` if each needed application has a rank.
fn find_waiting(ranks: &Ranks, needs: &[AppId]) -> Option<AppId>
    ensures { result ≡ find (λ needed. is_unranked ranks.now needed.0) needs.now }
{
    for needed in needs {
        if rank_of(ranks, *needed).is_none() {
            return Some(*needed);
        }
    }
    None
}

// Returns the first application without a rank among the needs of application `a`. Application `a` itself must have
// no rank.
fn wait_of(apps: &[AppSpec], ranks: &Ranks, a: AppId) -> AppId
    requires needs { NeedsInRange apps.now }
    requires stuck { IsStuck apps.now ranks.now }
    requires waiting { IsWaiting apps.now ranks.now a.0 }
    ensures needs { Needs apps.now a result }
    ensures waiting { IsWaiting apps.now ranks.now result.0 }
{
    match find_waiting(ranks, apps[usize::from(a.0)].needs.items()) {
        Some(needed) => needed,
        None => unreachable!(),
    }
}

// Returns a cycle of needs. The search begins with `start`, which has no rank. Each step leads to an application
// without a rank that the current application needs. The search ends when it reaches an application already visited.
fn find_cycle(apps: &[AppSpec], ranks: &Ranks, start: AppId) -> ArrayVec<AppId, 8>
    requires few { length apps.now ≤ 8 }
    requires needs { NeedsInRange apps.now }
    requires stuck { IsStuck apps.now ranks.now }
    requires waiting { IsWaiting apps.now ranks.now start.0 }
    ensures { IsCycle apps.now result.items }
{
    let mut path: ArrayVec<AppId, 8> = ArrayVec::new();
    let mut at = start;
    while !is_named(path.as_slice(), usize::from(at.0)) {
        path.push(at);
        at = wait_of(apps, ranks, at);
    }
    let path = path.as_slice();
    let cycle = &path[place_of(path, at)..];
    rotated_to(cycle, place_of_least(cycle))
}

// Returns the index of application `at` in a list that contains it.
fn place_of(path: &[AppId], at: AppId) -> usize
    requires { is_named path.now at.0 ≡ true }
    ensures inside { result < length path.now }
    ensures found { (d : AppId) → (slice_index_or path.now result d) ≡ at }
{
    let mut place = 0;
    while path[place].0 != at.0 {
        place += 1;
    }
    place
}

// Returns the index of the lowest-numbered application in a list that is not empty.
fn place_of_least(cycle: &[AppId]) -> usize
    requires { 0 < length cycle.now }
    ensures inside { result < length cycle.now }
    ensures least { (k : ℕ) (d : AppId) → k < length cycle.now → (slice_index_or cycle.now result d).0 ≤ (slice_index_or cycle.now k d).0 }
{
    let mut least = 0;
    for k in 1..cycle.len() {
        if cycle[k].0 < cycle[least].0 {
            least = k;
        }
    }
    least
}

// Returns the list rotated so that the element at `place` is first.
fn rotated_to(cycle: &[AppId], place: usize) -> ArrayVec<AppId, 8>
    requires few { length cycle.now ≤ 8 }
    requires place { place ≤ length cycle.now }
    ensures { result.items ≡ drop place cycle.now ++ take place cycle.now }
{
    let mut rotated: ArrayVec<AppId, 8> = ArrayVec::new();
    let _back = rotated.try_extend_from_slice(&cycle[place..]);
    let _front = rotated.try_extend_from_slice(&cycle[..place]);
    rotated
}
