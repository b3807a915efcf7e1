//! The members of a document. Each member is looked up once.

ghost use Rattle.std.specs.Prelude.{◌≡◌, [], Ok, Some, codes, option_map, IfOk};
ghost use Rattle.serde_json.specs.View.{view};
ghost use Rattle.scram_doc.specs.Chain.{ok_map};
ghost use Rattle.scram_doc.specs.Members.{required_at, no_more_than};
ghost use Rattle.spec_reading.specs.Found.{AreLimitMembers, AreMembers, AreNamingMembers, AreTableMembers};
ghost use Rattle.spec_reading.specs.Versions.{AreDemands, IsPolicy, demands_tested, each_needed, is_version_in, limit_members, members_count, members_tested, naming_members, policy_tested, table_members};

use scram_doc::{DocFault, Path, no_more_than, object, required, required_four};
use serde_json::Value;

/// The values of a document's members. `policy` is `None` unless the version is 2 or 3, and `demands` is `None`
/// unless the version is 3.
#[derive(Clone, Copy)]
pub struct Members<'a> {
    pub document: &'a Value,
    pub scram: &'a Value,
    pub procs: &'a Value,
    pub apps: &'a Value,
    pub confs: &'a Value,
    pub factors: &'a Value,
    pub rules: &'a Value,
    pub bounds: &'a Value,
    pub start: &'a Value,
    pub goal: &'a Value,
    pub invariants: &'a Value,
    pub preconditions: &'a Value,
    pub assumption: &'a Value,
    pub policy: Option<&'a Value>,
    pub demands: Option<&'a Value>,
}

/// Returns `true` if the value of the member `scram` is the given version number.
fn is_version(scram: &Value, number: u64) -> bool
    ensures { result ≡ is_version_in number (Some (view scram.now)) }
{
    scram.as_u64() == Some(number)
}

/// Returns the policy of a document, or `None` if the document's version has no policy. Returns an error if its
/// version has a policy and the member is missing.
fn find_policy<'a>(document: &'a Value, scram: &Value) -> Result<Option<&'a Value>, DocFault>
    requires scram { required_at (codes "scram") [] (view document.now) ≡ Ok (view scram.now) }
    ensures tested { ok_map (λ _. tt) result ≡ policy_tested (view document.now) }
    ensures policy { IfOk result (λ policy. IsPolicy (view document.now) (option_map (λ d. view d.now) policy)) }
{
    if is_version(scram, 2) || is_version(scram, 3) {
        Ok(Some(required(document, "policy", &Path::root())?))
    } else {
        Ok(None)
    }
}

/// Returns the demands of a document, or `None` if the document's version has no demands. Returns an error if its
/// version has demands and the member is missing.
fn find_demands<'a>(document: &'a Value, scram: &Value) -> Result<Option<&'a Value>, DocFault>
    requires scram { required_at (codes "scram") [] (view document.now) ≡ Ok (view scram.now) }
    ensures tested { ok_map (λ _. tt) result ≡ demands_tested (view document.now) }
    ensures demands { IfOk result (λ demands. AreDemands (view document.now) (option_map (λ d. view d.now) demands)) }
{
    if is_version(scram, 3) {
        Ok(Some(required(document, "demands", &Path::root())?))
    } else {
        Ok(None)
    }
}

/// Checks that a document has no more members than its version allows.
fn check_count(document: &Value, scram: &Value) -> Result<(), DocFault>
    requires scram { required_at (codes "scram") [] (view document.now) ≡ Ok (view scram.now) }
    ensures { result ≡ no_more_than (members_count (view document.now)) [] (view document.now) }
{
    let count = if is_version(scram, 3) {
        14
    } else if is_version(scram, 2) {
        13
    } else {
        12
    };
    no_more_than(document, count, &Path::root())
}

/// The values of the version and of the members that contain names.
#[derive(Clone, Copy)]
struct NamingMembers<'a> {
    scram: &'a Value,
    procs: &'a Value,
    apps: &'a Value,
    confs: &'a Value,
    factors: &'a Value,
}

fn find_naming(document: &Value) -> Result<NamingMembers<'_>, DocFault>
    ensures tested { ok_map (λ _. tt) result ≡ each_needed naming_members (view document.now) }
    ensures members { IfOk result (AreNamingMembers (view document.now)) }
{
    let root = Path::root();
    let scram = required(document, "scram", &root)?;
    let names = ("processors", "apps", "configurations", "factors");
    let (procs, apps, confs, factors) = required_four(document, names, &root)?;
    Ok(NamingMembers {
        scram,
        procs,
        apps,
        confs,
        factors,
    })
}

/// The values of the choice table, the bounds, the start and the goal.
#[derive(Clone, Copy)]
struct TableMembers<'a> {
    rules: &'a Value,
    bounds: &'a Value,
    start: &'a Value,
    goal: &'a Value,
}

fn find_table(document: &Value) -> Result<TableMembers<'_>, DocFault>
    ensures tested { ok_map (λ _. tt) result ≡ each_needed table_members (view document.now) }
    ensures members { IfOk result (AreTableMembers (view document.now)) }
{
    let names = ("rules", "bounds", "start", "goal");
    let (rules, bounds, start, goal) = required_four(document, names, &Path::root())?;
    Ok(TableMembers {
        rules,
        bounds,
        start,
        goal,
    })
}

/// The values of the invariants, the preconditions and the failure assumption.
#[derive(Clone, Copy)]
struct LimitMembers<'a> {
    invariants: &'a Value,
    preconditions: &'a Value,
    assumption: &'a Value,
}

fn find_limits(document: &Value) -> Result<LimitMembers<'_>, DocFault>
    ensures tested { ok_map (λ _. tt) result ≡ each_needed limit_members (view document.now) }
    ensures members { IfOk result (AreLimitMembers (view document.now)) }
{
    let root = Path::root();
    let invariants = required(document, "invariants", &root)?;
    let preconditions = required(document, "preconditions", &root)?;
    let assumption = required(document, "assumption", &root)?;
    Ok(LimitMembers {
        invariants,
        preconditions,
        assumption,
    })
}

/// Returns the members of a document. The document must be an object with the members of its version and no others.
///
/// # Errors
///
/// Returns an error if the document is not an object, lacks a member of its version, or has another member.
pub fn find_members(document: &Value) -> Result<Members<'_>, DocFault>
    ensures tested { ok_map (λ _. tt) result ≡ members_tested (view document.now) }
    ensures document { IfOk result (λ members. members.document.now ≡ document.now) }
    ensures members { IfOk result (λ members. AreMembers members) }
{
    object(document, &Path::root())?;
    let naming = find_naming(document)?;
    let table = find_table(document)?;
    let limits = find_limits(document)?;
    let policy = find_policy(document, naming.scram)?;
    let demands = find_demands(document, naming.scram)?;
    check_count(document, naming.scram)?;
    Ok(Members {
        document,
        scram: naming.scram,
        procs: naming.procs,
        apps: naming.apps,
        confs: naming.confs,
        factors: naming.factors,
        rules: table.rules,
        bounds: table.bounds,
        start: table.start,
        goal: table.goal,
        invariants: limits.invariants,
        preconditions: limits.preconditions,
        assumption: limits.assumption,
        policy,
        demands,
    })
}
