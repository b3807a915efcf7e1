//! Invariants and preconditions, which are intervals for a variable of an application.

ghost use Rattle.std.specs.Prelude.{◌≡◌, ◌≤◌, ◌≤ℤ◌, ◌<◌, pos, codes, length, IfOk};
ghost use Rattle.std.specs.Option.{option_copied};
ghost use Rattle.serde_json.specs.View.{view};
ghost use Rattle.scram_types.specs.Numbers.{minus};
ghost use Rattle.scram_doc.specs.Faults.{Answers};
ghost use Rattle.spec_reading.specs.Intervals.{read_app_id, read_variable, read_end, read_ends, read_interval, read_invariant, read_invariants, read_precondition, read_preconditions};
ghost use Rattle.spec_reading.specs.Members.{member_in};
ghost use Rattle.scram_doc.specs.Lists.{AllAfter};
ghost use Rattle.spec_reading.specs.TableFacts.{IsVariable, FitsEnds, FitsInterval, FitsInvariant, FitsPrecondition};
ghost use Rattle.spec_reading.specs.Found.{AreMembers};

use crate::choices::{read_conf_id, read_source};
use crate::configurations::find_app;
use crate::members::Members;
use crate::names::{ByName, read_named};
use crate::numbered::Numbered;
use crate::rule;
use crate::vocabulary::Vocabulary;
use kind_table::variable_named;
use scram_doc::{
    DocError, DocFault, Elements, Lengths, Path, exactly_five, int_in, read_list, text,
};
use scram_types::limits::{MAX_INTERVAL_END, MAX_INTERVALS};
use scram_types::{AppId, AppSpec, Invariant, Precondition};
use serde_json::Value;
use std::alloc::Global;

fn read_app_id(apps: &Numbered<AppSpec, ByName>, v: &Value, at: &Path) -> Result<AppId, DocFault>
    requires few { length apps.now ≤ 8 }
    ensures value { result ≡ read_app_id apps.now at.now (view v.now) }
    ensures there { IfOk result (λ app. app.0 < length apps.now) }
{
    Ok(AppId(read_named(apps, rule::UNKNOWN_APPLICATION, v, at)?))
}

fn read_variable(app: Option<&AppSpec>, v: &Value, at: &Path) -> Result<u8, DocFault>
    ensures value { result ≡ read_variable (option_copied app.entry) at.now (view v.now) }
    ensures is { IfOk result (λ variable. IsVariable (option_copied app.entry) variable) }
{
    let Some(app) = app else {
        return Err(DocFault::new(rule::UNKNOWN_VARIABLE, at));
    };
    match variable_named(app.kind, text(v, at)?) {
        Some(variable) => Ok(variable),
        None => Err(DocFault::new(rule::UNKNOWN_VARIABLE, at)),
    }
}

fn read_end(v: &Value, at: &Path) -> Result<i64, DocFault>
    ensures value { result ≡ read_end at.now (view v.now) }
    ensures least { IfOk result (λ end. minus 1000000000 ≤ℤ end) }
    ensures most { IfOk result (λ end. end ≤ℤ pos 1000000000) }
{
    int_in(v, -MAX_INTERVAL_END, MAX_INTERVAL_END, at)
}

/// The ends of a non-empty interval.
#[derive(Clone, Copy)]
struct Ends {
    least: i64,
    greatest: i64,
}

/// Reads the ends of an interval from the members of the object at this path.
fn read_ends(least: &Value, greatest: &Value, at: &Path) -> Result<Ends, DocFault>
    requires room { length at.now ≤ 40 }
    ensures value { result ≡ read_ends at.now (view least.now) (view greatest.now) }
    ensures fits { IfOk result (λ ends. FitsEnds ends) }
{
    let least = read_end(least, &at.member("least"))?;
    let at = at.member("greatest");
    let greatest = read_end(greatest, &at)?;
    if least <= greatest {
        Ok(Ends { least, greatest })
    } else {
        Err(DocFault::new(rule::EMPTY_INTERVAL, &at))
    }
}

/// The common part of an invariant and a precondition: an interval for a variable of an application.
#[derive(Clone, Copy)]
struct Interval {
    app: AppId,
    variable: u8,
    ends: Ends,
}

/// The values of the members of an object that describe an interval.
#[derive(Clone, Copy)]
struct IntervalMembers<'a> {
    app: &'a Value,
    variable: &'a Value,
    least: &'a Value,
    greatest: &'a Value,
}

/// Reads an interval from the members of the object at this path.
fn read_interval(
    apps: &Numbered<AppSpec, ByName>,
    members: &IntervalMembers<'_>,
    at: &Path,
) -> Result<Interval, DocFault>
    requires room { length at.now ≤ 40 }
    requires few { length apps.now ≤ 8 }
    ensures value { result ≡ read_interval apps.now at.now (view members.now.app.now) (view members.now.variable.now)
        (view members.now.least.now) (view members.now.greatest.now) }
    ensures fits { IfOk result (λ i. FitsInterval apps.now i) }
{
    let app = read_app_id(apps, members.app, &at.member("app"))?;
    let found = find_app(apps, app);
    let variable = read_variable(found, members.variable, &at.member("variable"))?;
    let ends = read_ends(members.least, members.greatest, at)?;
    Ok(Interval {
        app,
        variable,
        ends,
    })
}

#[derive(Clone, Copy)]
struct Intervals<'a> {
    vocabulary: &'a Vocabulary,
}

impl Elements<Invariant> for Intervals<'_> {
    ghost room = { 40 };

    ghost reading = { λ i. read_invariant i.vocabulary.now.apps i.vocabulary.now.confs };

    ghost Fits = { λ i _. FitsInvariant i.vocabulary.now.apps i.vocabulary.now.confs };

    fn read(
        &self,
        _alloc: Global,
        _done: &[Invariant],
        v: &Value,
        at: &Path,
    ) -> Result<Invariant, DocError> {
        let names = ("from", "app", "variable", "least", "greatest");
        let (from, app, variable, least, greatest) = exactly_five(v, names, at)?;
        let vocabulary = self.vocabulary;
        let from = read_source(&vocabulary.confs, from, &at.member("from"))?;
        let apps = &vocabulary.apps;
        let members = IntervalMembers {
            app,
            variable,
            least,
            greatest,
        };
        let interval = read_interval(apps, &members, at)?;
        Ok(Invariant {
            from,
            app: interval.app,
            variable: interval.variable,
            least: interval.ends.least,
            greatest: interval.ends.greatest,
        })
    }
}

impl Elements<Precondition> for Intervals<'_> {
    ghost room = { 40 };

    ghost reading = { λ i. read_precondition i.vocabulary.now.apps i.vocabulary.now.confs };

    ghost Fits = { λ i _. FitsPrecondition i.vocabulary.now.apps i.vocabulary.now.confs };

    fn read(
        &self,
        _alloc: Global,
        _done: &[Precondition],
        v: &Value,
        at: &Path,
    ) -> Result<Precondition, DocError> {
        let names = ("configuration", "app", "variable", "least", "greatest");
        let (conf, app, variable, least, greatest) = exactly_five(v, names, at)?;
        let vocabulary = self.vocabulary;
        let conf = read_conf_id(&vocabulary.confs, conf, &at.member("configuration"))?;
        let apps = &vocabulary.apps;
        let members = IntervalMembers {
            app,
            variable,
            least,
            greatest,
        };
        let interval = read_interval(apps, &members, at)?;
        Ok(Precondition {
            conf,
            app: interval.app,
            variable: interval.variable,
            least: interval.ends.least,
            greatest: interval.ends.greatest,
        })
    }
}

/// Reads the 0 to 64 invariants of a document. Returns an error with the first broken rule, or `NoMemory` if memory
/// runs out.
pub fn read_invariants(
    alloc: Global,
    vocabulary: &Vocabulary,
    members: &Members<'_>,
) -> Result<Vec<Invariant>, DocError>
    requires members { AreMembers members.now }
    ensures value { Answers (member_in (codes "invariants") (read_invariants vocabulary.now.apps vocabulary.now.confs) (view members.now.document.now))
        (λ l. l.items) result }
    ensures few { IfOk result (λ l. length l.items ≤ 64) }
    ensures fits { IfOk result (λ l. AllAfter (λ _. FitsInvariant vocabulary.now.apps vocabulary.now.confs) l.items) }
{
    let at = Path::root().member("invariants");
    let intervals = Intervals { vocabulary };
    read_list(
        alloc,
        &intervals,
        members.invariants,
        Lengths::up_to(MAX_INTERVALS),
        &at,
    )
}

/// Reads the 0 to 64 preconditions of a document. Returns an error with the first broken rule, or `NoMemory` if
/// memory runs out.
pub fn read_preconditions(
    alloc: Global,
    vocabulary: &Vocabulary,
    members: &Members<'_>,
) -> Result<Vec<Precondition>, DocError>
    requires members { AreMembers members.now }
    ensures value { Answers (member_in (codes "preconditions") (read_preconditions vocabulary.now.apps vocabulary.now.confs)
        (view members.now.document.now)) (λ l. l.items) result }
    ensures few { IfOk result (λ l. length l.items ≤ 64) }
    ensures fits { IfOk result (λ l. AllAfter (λ _. FitsPrecondition vocabulary.now.apps vocabulary.now.confs) l.items) }
{
    let at = Path::root().member("preconditions");
    let intervals = Intervals { vocabulary };
    read_list(
        alloc,
        &intervals,
        members.preconditions,
        Lengths::up_to(MAX_INTERVALS),
        &at,
    )
}
