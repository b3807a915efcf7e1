//! Configurations and the places of applications in them.

ghost use Rattle.std.specs.Prelude.{◌≡◌, ◌≤◌, ◌<◌, None, codes, is_some, length, replicate, slice_get, IfOk};
ghost use Rattle.std.specs.Option.{option_copied};
ghost use Rattle.serde_json.specs.View.{view, items_view};
ghost use Rattle.scram_doc.specs.Chain.{ok_map};
ghost use Rattle.scram_doc.specs.Faults.{Answers};
ghost use Rattle.scram_doc.specs.Lists.{folded_from, AllAfter};
ghost use Rattle.spec_reading.specs.Configurations.{given, read_new_app, read_listed_mode, read_place, read_conf, read_confs};
ghost use Rattle.spec_reading.specs.Members.{member_in};
ghost use Rattle.spec_reading.specs.TableFacts.{ListsMode, IsPlacedAfter, ArePlaces, IsNewConf};
ghost use Rattle.spec_reading.specs.Found.{AreMembers};

use crate::members::Members;
use crate::modes::read_kind_mode;
use crate::names::{ByName, read_named, read_new_name};
use crate::numbered::{NamedElements, Numbered, read_named_list};
use crate::rule;
use scram_doc::{DocError, DocFault, Lengths, Path, exactly_three, exactly_two, list};
use scram_types::limits::{MAX_APPLICATIONS, MAX_CONFIGURATIONS};
use scram_types::{AppId, AppSpec, Conf, Mode, Place, Proc, ProcId};
use serde_json::Value;
use std::alloc::Global;

type Places = [Option<Place>; 8];

/// Returns `true` if there is an item for an application.
pub(crate) fn is_given<T>(items: &[Option<T>; 8], app: AppId) -> bool
    ensures { result ≡ is_some (given items.now app.0) }
{
    match items.get(usize::from(app.0)) {
        Some(item) => item.is_some(),
        None => false,
    }
}

/// Reads an application from its name. Returns an error if the value is not a text, no application has this name, or
/// there is an item for the application.
pub(crate) fn read_new_app<T>(
    apps: &Numbered<AppSpec, ByName>,
    items: &[Option<T>; 8],
    v: &Value,
    at: &Path,
) -> Result<AppId, DocFault>
    requires few { length apps.now ≤ 8 }
    ensures value { ok_map (λ app. app.0) result ≡ read_new_app apps.now items.now at.now (view v.now) }
    ensures there { IfOk result (λ app. app.0 < length apps.now) }
{
    let app = AppId(read_named(apps, rule::UNKNOWN_APPLICATION, v, at)?);
    if is_given(items, app) {
        Err(DocFault::new(rule::TWICE_IN_LIST, at))
    } else {
        Ok(app)
    }
}

/// Returns the application with this number, or `None` if there is no such application.
pub(crate) fn find_app(apps: &Numbered<AppSpec, ByName>, app: AppId) -> Option<&AppSpec>
    ensures { option_copied result ≡ slice_get apps.now app.0 }
{
    apps.items().get(usize::from(app.0))
}

/// Reads a mode from its name. Returns an error if the value does not name a mode of the application's kind, or the
/// application does not list the mode.
pub(crate) fn read_listed_mode(
    app: Option<&AppSpec>,
    v: &Value,
    at: &Path,
) -> Result<Mode, DocFault>
    ensures value { ok_map (λ mode. mode.0) result ≡ read_listed_mode (option_copied app.entry) at.now (view v.now) }
    ensures listed { IfOk result (λ mode. ListsMode (option_copied app.entry) mode.0) }
{
    let Some(app) = app else {
        return Err(DocFault::new(rule::MODE_NOT_LISTED, at));
    };
    let mode = read_kind_mode(app.kind, v, at)?;
    match app.mode(mode) {
        Some(_) => Ok(mode),
        None => Err(DocFault::new(rule::MODE_NOT_LISTED, at)),
    }
}

/// Reads the place of an application, and adds it to the places.
fn read_place(
    procs: &Numbered<Proc, ByName>,
    apps: &Numbered<AppSpec, ByName>,
    places: Places,
    v: &Value,
    at: &Path,
) -> Result<Places, DocFault>
    requires room { length at.now ≤ 40 }
    requires procs { length procs.now ≤ 8 }
    requires apps { length apps.now ≤ 8 }
    ensures value { result ≡ read_place procs.now apps.now at.now places (view v.now) }
    ensures fits { IfOk result (λ more. IsPlacedAfter procs.now apps.now places more) }
{
    let (app, mode, on) = exactly_three(v, ("app", "mode", "on"), at)?;
    let app = read_new_app(apps, &places, app, &at.member("app"))?;
    let mode = read_listed_mode(find_app(apps, app), mode, &at.member("mode"))?;
    let proc = ProcId(read_named(procs, rule::UNKNOWN_PROCESSOR, on, &at.member("on"))?);
    let mut places = places;
    places[usize::from(app.0)] = Some(Place { mode, proc });
    Ok(places)
}

fn read_places(
    procs: &Numbered<Proc, ByName>,
    apps: &Numbered<AppSpec, ByName>,
    items: &[Value],
    at: &Path,
) -> Result<Places, DocFault>
    requires room { length at.now ≤ 34 }
    requires few { length items.now ≤ 8 }
    requires procs { length procs.now ≤ 8 }
    requires apps { length apps.now ≤ 8 }
    ensures value { result ≡ folded_from (read_place procs.now apps.now) at.now 0 (replicate 8 None) (items_view items.now) }
    ensures fits { IfOk result (λ places. ArePlaces procs.now apps.now places) }
{
    let mut places = [None; 8];
    for (i, v) in items.iter().enumerate() {
        places = read_place(procs, apps, places, v, &at.item(i))?;
    }
    Ok(places)
}

#[derive(Clone, Copy)]
struct Confs<'a> {
    procs: &'a Numbered<Proc, ByName>,
    apps: &'a Numbered<AppSpec, ByName>,

    ghost few_procs: { length procs.now ≤ 8 },
    ghost few_apps: { length apps.now ≤ 8 },
}

impl NamedElements<Conf, ByName> for Confs<'_> {
    ghost room = { 24 };

    ghost reading = { λ confs. read_conf confs.procs.now confs.apps.now };

    ghost Fits = { λ confs. IsNewConf confs.procs.now confs.apps.now };

    ghost is_new = { λ e done x fits. fits.name.new };

    fn read(
        &self,
        _alloc: Global,
        done: &Numbered<Conf, ByName>,
        v: &Value,
        at: &Path,
    ) -> Result<Conf, DocError> {
        let (name, places) = exactly_two(v, ("name", "apps"), at)?;
        let name = read_new_name(done, name, &at.member("name"))?;
        let at = at.member("apps");
        let items = list(places, 0, MAX_APPLICATIONS, &at)?;
        let places = read_places(self.procs, self.apps, items, &at)?;
        Ok(Conf { name, places })
    }
}

/// Reads the 1 to 12 configurations of a document. Returns an error with the first broken rule, or `NoMemory` if
/// memory runs out.
pub fn read_confs(
    alloc: Global,
    procs: &Numbered<Proc, ByName>,
    apps: &Numbered<AppSpec, ByName>,
    members: &Members<'_>,
) -> Result<Numbered<Conf, ByName>, DocError>
    requires members { AreMembers members.now }
    requires procs { length procs.now ≤ 8 }
    requires apps { length apps.now ≤ 8 }
    ensures value { Answers (member_in (codes "configurations") (read_confs procs.now apps.now) (view members.now.document.now)) (λ l. l) result }
    ensures least { IfOk result (λ l. 1 ≤ length l) }
    ensures few { IfOk result (λ l. length l ≤ 12) }
    ensures fits { IfOk result (λ l. AllAfter (IsNewConf procs.now apps.now) l) }
{
    let at = Path::root().member("configurations");
    read_named_list(
        alloc,
        &Confs { procs, apps },
        members.confs,
        Lengths {
            least: 1,
            most: MAX_CONFIGURATIONS,
        },
        &at,
    )
}
