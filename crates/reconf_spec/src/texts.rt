//! Writing specifications as JSON documents.

ghost use Rattle.std.specs.Prelude.{◌≡◌, [], Some, IfOk};
ghost use Rattle.std.specs.Str.{IsUtf8};
ghost use Rattle.serde_json.specs.Read.{read};
ghost use Rattle.serde_json.specs.View.{view};
ghost use Rattle.scram_doc.specs.Objects.{members_of};
ghost use Rattle.reconf_spec.specs.Texts.{assumption_data, goal_data, spec_data, spec_text, with_demands, with_limits, with_named, with_table, with_version};

use crate::items::Writer;
use crate::values::policy_name;
use scram_doc::Object;
use scram_types::{Goal, NoMemory, Policy, Spec};
use serde_json::Value;
use std::alloc::{AllocError, Global};

fn make_goal(alloc: Global, goal: &Goal) -> Result<Value, AllocError>
    ensures { IfOk result (λ v. view v ≡ goal_data goal.now) }
{
    let object = Object::new(alloc)
        .integer("altitude", &goal.altitude)?
        .integer("heading", &goal.heading)?;
    Ok(object.into_value())
}

fn make_assumption(alloc: Global, spec: &Spec) -> Result<Value, AllocError>
    ensures { IfOk result (λ v. view v ≡ assumption_data spec.now) }
{
    let object = Object::new(alloc)
        .count("changes", u32::from(spec.changes))?
        .count("halts", u32::from(spec.halts))?
        .count("window", spec.window)?;
    Ok(object.into_value())
}

/// Sets the members to which the other members refer by name: processors, applications, configurations and factors.
fn with_named(object: Object, spec: &Spec) -> Result<Object, AllocError>
    ensures { IfOk result (λ o. members_of o ≡ with_named spec.now (members_of object)) }
{
    let writer = Writer { spec };
    object
        .list("processors", &writer, spec.procs.items())?
        .list("apps", &writer, spec.apps.items())?
        .list("configurations", &writer, spec.confs.items())?
        .list("factors", &writer, spec.factors.items())
}

/// Sets the members that hold the choice table, the bounds, the start and the goal.
fn with_table(object: Object, alloc: Global, spec: &Spec) -> Result<Object, AllocError>
    ensures { IfOk result (λ o. members_of o ≡ with_table spec.now (members_of object)) }
{
    let writer = Writer { spec };
    let object = object
        .list("rules", &writer, spec.rules.items())?
        .list("bounds", &writer, spec.bounds.items())?
        .text("start", spec.conf_name(spec.start))?;
    let goal = make_goal(alloc, &spec.goal)?;
    object.value("goal", goal)
}

/// Sets the members that hold the invariants, the preconditions and the failure assumption.
fn with_limits(object: Object, alloc: Global, spec: &Spec) -> Result<Object, AllocError>
    ensures { IfOk result (λ o. members_of o ≡ with_limits spec.now (members_of object)) }
{
    let writer = Writer { spec };
    let object = object
        .list("invariants", &writer, spec.invariants.items())?
        .list("preconditions", &writer, spec.preconditions.items())?;
    let assumption = make_assumption(alloc, spec)?;
    object.value("assumption", assumption)
}

/// Sets the member `scram` of a specification without demands, and the member `policy` unless the policy is to
/// retarget.
fn with_policy(object: Object, spec: &Spec) -> Result<Object, AllocError>
    ensures { IfOk result (λ o. members_of o ≡ with_version [] spec.now.policy spec.now (members_of object)) }
{
    match spec.policy {
        Policy::Retarget => object.count("scram", 1),
        Policy::Settle => object.text("policy", "settle")?.count("scram", 2),
    }
}

/// Sets the members `demands`, `policy` and `scram` of a specification with demands.
fn with_demands(object: Object, spec: &Spec) -> Result<Object, AllocError>
    ensures { IfOk result (λ o. members_of o ≡ with_demands spec.now.demands spec.now.policy spec.now (members_of object)) }
{
    object
        .list("demands", &Writer { spec }, spec.demands.items())?
        .text("policy", policy_name(spec.policy))?
        .count("scram", 3)
}

/// Sets the member `scram`, which holds the version, and the members `policy` and `demands` if the version has them.
fn with_version(object: Object, spec: &Spec) -> Result<Object, AllocError>
    ensures { IfOk result (λ o. members_of o ≡ with_version spec.now.demands spec.now.policy spec.now (members_of object)) }
{
    match spec.demands.items() {
        [] => with_policy(object, spec),
        [_first, _rest @ ..] => with_demands(object, spec),
    }
}

fn make_spec(alloc: Global, spec: &Spec) -> Result<Value, AllocError>
    ensures { IfOk result (λ v. view v ≡ spec_data spec.now) }
{
    let object = with_named(Object::new(alloc), spec)?;
    let object = with_table(object, alloc, spec)?;
    let object = with_limits(object, alloc, spec)?;
    let object = with_version(object, spec)?;
    Ok(object.into_value())
}

/// Returns the canonical text of a specification, which is compact JSON. With demands it is of version 3. Without
/// demands it is of version 1 if the policy is to retarget, and of version 2 if it is to settle. The places of a
/// configuration, the applications of a demand, and sets of processors, applications and configurations are in the
/// order of their items. Every other list keeps its order. Returns an error if memory runs out.
pub fn write_text(alloc: Global, spec: &Spec) -> Result<Vec<u8>, NoMemory>
    ensures text { IfOk result (λ text. text.items ≡ spec_text spec.now) }
    ensures value { IfOk result (λ text. read text.items ≡ Some (spec_data spec.now)) }
    ensures utf8 { IfOk result (λ text. IsUtf8 text.items) }
{
    // From the use of a field, the prover knows that the specification satisfies its invariant.
    let _ = &spec.procs;
    let Ok(value) = make_spec(alloc, spec) else {
        return Err(NoMemory);
    };
    match value.to_vec(alloc) {
        Ok(text) => Ok(text),
        Err(_) => Err(NoMemory),
    }
}
