//! How the parts of a document are read and joined to a specification.

ghost use Rattle.std.specs.Prelude.{◌≡◌, ◌≤◌, ◌+◌, length, IfOk};
ghost use Rattle.serde_json.specs.View.{view};
ghost use Rattle.scram_types.specs.Specification.{IsGoal};
ghost use Rattle.spec_reading.specs.RestFacts.{FitsAssumption, FitsLimitParts, FitsRest, FitsTableParts};
ghost use Rattle.spec_reading.specs.Writable.{IsWritable};
ghost use Rattle.scram_doc.specs.Faults.{Answers};
ghost use Rattle.scram_doc.specs.Values.{whole_at};
ghost use Rattle.spec_reading.specs.Documents.{read_goal, read_assumption, read_policy, policy_in, demands_in, check_version, limit_parts_in, rest_in, table_parts_in, with_rest};
ghost use Rattle.scram_doc.specs.Lists.{AllAfter};
ghost use Rattle.spec_reading.specs.Found.{AreMembers};
ghost use Rattle.spec_reading.specs.TableFacts.{IsNewDemand};

use crate::bounds::read_bounds;
use crate::choices::{read_choices, read_conf_id};
use crate::demands::read_demands;
use crate::intervals::{read_invariants, read_preconditions};
use crate::members::Members;
use crate::rule;
use crate::vocabulary::Vocabulary;
use scram_doc::{DocError, DocFault, Path, exactly_three, exactly_two, int_in, text, whole_in};
use scram_types::limits::{
    MAX_ALTITUDE, MAX_ASSUMED_CHANGES, MAX_ASSUMED_HALTS, MAX_HEADING, MAX_WINDOW,
};
use scram_types::{
    Bound, Choice, ConfId, Demand, Goal, Invariant, List, Policy, Precondition, Spec,
};
use serde_json::Value;
use std::alloc::Global;

fn read_goal(v: &Value, at: &Path) -> Result<Goal, DocFault>
    requires room { length at.now ≤ 40 }
    ensures value { result ≡ read_goal at.now (view v.now) }
    ensures fits { IfOk result (λ goal. IsGoal goal) }
{
    let (altitude, heading) = exactly_two(v, ("altitude", "heading"), at)?;
    let altitude = int_in(altitude, 0, MAX_ALTITUDE, &at.member("altitude"))?;
    let heading = int_in(heading, 0, MAX_HEADING, &at.member("heading"))?;
    Ok(Goal { altitude, heading })
}

/// Reads a whole number from 0 to `most`.
fn read_count(v: &Value, most: u8, at: &Path) -> Result<u8, DocFault>
    ensures value { result ≡ whole_at 0 (most + 1) at.now (view v.now) }
    ensures most { IfOk result (λ count. count ≤ most) }
{
    let count = whole_in(v, 0, u32::from(most) + 1, at)?;
    Ok(count as u8)
}

/// The failure assumption of a document.
#[derive(Clone, Copy)]
pub struct Assumption {
    pub halts: u8,
    pub changes: u8,
    pub window: u32,
}

fn read_assumption(v: &Value, at: &Path) -> Result<Assumption, DocFault>
    requires room { length at.now ≤ 40 }
    ensures value { result ≡ read_assumption at.now (view v.now) }
    ensures fits { IfOk result (λ assumed. FitsAssumption assumed) }
{
    let (halts, changes, window) = exactly_three(v, ("halts", "changes", "window"), at)?;
    let halts = read_count(halts, MAX_ASSUMED_HALTS, &at.member("halts"))?;
    let changes = read_count(changes, MAX_ASSUMED_CHANGES, &at.member("changes"))?;
    let window = whole_in(window, 1, MAX_WINDOW + 1, &at.member("window"))?;
    Ok(Assumption {
        halts,
        changes,
        window,
    })
}

fn read_policy(v: &Value, at: &Path) -> Result<Policy, DocFault>
    ensures { result ≡ read_policy at.now (view v.now) }
{
    match text(v, at)? {
        "retarget" => Ok(Policy::Retarget),
        "settle" => Ok(Policy::Settle),
        _ => Err(DocFault::new(rule::UNKNOWN_POLICY, at)),
    }
}

pub(crate) fn check_version(v: &Value, at: &Path) -> Result<(), DocFault>
    ensures { result ≡ check_version at.now (view v.now) }
{
    let version = whole_in(v, 0, 1001, at)?;
    if 1 <= version && version <= 3 {
        Ok(())
    } else {
        Err(DocFault::new(rule::UNKNOWN_VERSION, at))
    }
}

fn read_policy_of(members: &Members<'_>) -> Result<Policy, DocFault>
    requires members { AreMembers members.now }
    ensures { result ≡ policy_in (view members.now.document.now) }
{
    match members.policy {
        Some(policy) => read_policy(policy, &Path::root().member("policy")),
        None => Ok(Policy::Retarget),
    }
}

/// Returns the demands of a document. The list is empty if the document's version has no demands.
fn read_demands_of(
    alloc: Global,
    vocabulary: &Vocabulary,
    members: &Members<'_>,
) -> Result<Vec<Demand>, DocError>
    requires members { AreMembers members.now }
    ensures value { Answers (demands_in vocabulary.now (view members.now.document.now)) (λ l. l.items) result }
    ensures few { IfOk result (λ l. length l.items ≤ 64) }
    ensures fits { IfOk result (λ l. AllAfter (IsNewDemand vocabulary.now.procs vocabulary.now.apps vocabulary.now.confs vocabulary.now.factors) l.items) }
{
    match members.demands {
        Some(demands) => read_demands(alloc, vocabulary, demands, &Path::root().member("demands")),
        None => Ok(Vec::new(alloc)),
    }
}

/// The choice table, the bounds, the start and the goal of a document.
#[derive(Drop)]
pub struct TableParts {
    pub rules: List<Choice>,
    pub bounds: List<Bound>,
    pub start: ConfId,
    pub goal: Goal,
}

fn read_table_parts(
    alloc: Global,
    vocabulary: &Vocabulary,
    members: &Members<'_>,
) -> Result<TableParts, DocError>
    requires members { AreMembers members.now }
    ensures value { Answers (table_parts_in vocabulary.now (view members.now.document.now)) (λ parts. parts) result }
    ensures fits { IfOk result (FitsTableParts vocabulary.now.procs vocabulary.now.confs vocabulary.now.factors) }
{
    let root = Path::root();
    let rules = read_choices(alloc, vocabulary, members)?;
    let bounds = read_bounds(alloc, vocabulary, members)?;
    let start = read_conf_id(&vocabulary.confs, members.start, &root.member("start"))?;
    let goal = read_goal(members.goal, &root.member("goal"))?;
    Ok(TableParts {
        rules: List::of(rules),
        bounds: List::of(bounds),
        start,
        goal,
    })
}

/// The invariants, the preconditions and the failure assumption of a document.
#[derive(Drop)]
pub struct LimitParts {
    pub invariants: List<Invariant>,
    pub preconditions: List<Precondition>,
    pub assumed: Assumption,
}

fn read_limit_parts(
    alloc: Global,
    vocabulary: &Vocabulary,
    members: &Members<'_>,
) -> Result<LimitParts, DocError>
    requires members { AreMembers members.now }
    ensures value { Answers (limit_parts_in vocabulary.now (view members.now.document.now)) (λ parts. parts) result }
    ensures fits { IfOk result (FitsLimitParts vocabulary.now.apps vocabulary.now.confs) }
{
    let invariants = read_invariants(alloc, vocabulary, members)?;
    let preconditions = read_preconditions(alloc, vocabulary, members)?;
    let assumed = read_assumption(members.assumption, &Path::root().member("assumption"))?;
    Ok(LimitParts {
        invariants: List::of(invariants),
        preconditions: List::of(preconditions),
        assumed,
    })
}

/// The part of a document that follows its processors, applications, configurations and factors.
#[derive(Drop)]
pub struct Rest {
    pub table: TableParts,
    pub limits: LimitParts,
    pub policy: Policy,
    pub demands: List<Demand>,
}

fn read_after_names(
    alloc: Global,
    vocabulary: &Vocabulary,
    members: &Members<'_>,
) -> Result<Rest, DocError>
    requires members { AreMembers members.now }
    ensures value { Answers (rest_in vocabulary.now (view members.now.document.now)) (with_rest vocabulary.now) result }
    ensures fits { IfOk result (FitsRest vocabulary.now.procs vocabulary.now.apps vocabulary.now.confs vocabulary.now.factors) }
{
    let table = read_table_parts(alloc, vocabulary, members)?;
    let limits = read_limit_parts(alloc, vocabulary, members)?;
    let policy = read_policy_of(members)?;
    let demands = read_demands_of(alloc, vocabulary, members)?;
    Ok(Rest {
        table,
        limits,
        policy,
        demands: List::of(demands),
    })
}

/// Returns the specification with the items of `vocabulary` and the other parts `rest`.
fn join(vocabulary: Vocabulary, rest: Rest) -> Spec
    requires fits { FitsRest vocabulary.procs vocabulary.apps vocabulary.confs vocabulary.factors rest }
    ensures value { result ≡ with_rest vocabulary rest }
    ensures writable { IsWritable result }
{
    let table = rest.table;
    let limits = rest.limits;
    Spec {
        procs: List::of(vocabulary.procs.into_items()),
        apps: List::of(vocabulary.apps.into_items()),
        confs: List::of(vocabulary.confs.into_items()),
        factors: List::of(vocabulary.factors.into_items()),
        rules: table.rules,
        bounds: table.bounds,
        start: table.start,
        goal: table.goal,
        invariants: limits.invariants,
        preconditions: limits.preconditions,
        policy: rest.policy,
        demands: rest.demands,
        halts: limits.assumed.halts,
        changes: limits.assumed.changes,
        window: limits.assumed.window,
    }
}

/// Reads the members other than the items of `vocabulary`, and returns the specification that they form with these
/// items.
pub(crate) fn read_rest(
    alloc: Global,
    vocabulary: Vocabulary,
    members: &Members<'_>,
) -> Result<Spec, DocError>
    requires members { AreMembers members.now }
    ensures value { Answers (rest_in vocabulary (view members.now.document.now)) (λ spec. spec) result }
    ensures writable { IfOk result IsWritable }
{
    let rest = read_after_names(alloc, &vocabulary, members)?;
    Ok(join(vocabulary, rest))
}
