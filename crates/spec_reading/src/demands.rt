//! Demands: requirements on the configuration that is chosen in an environment.

ghost use Rattle.std.specs.Prelude.{◌≡◌, ◌≤◌, ◌<◌, None, length, IfOk};
ghost use Rattle.std.specs.Option.{option_copied};
ghost use Rattle.serde_json.specs.View.{view};
ghost use Rattle.scram_doc.specs.Chain.{ok_map};
ghost use Rattle.scram_doc.specs.Faults.{Answers};
ghost use Rattle.scram_doc.specs.Lists.{AllAfter};
ghost use Rattle.spec_reading.specs.Demands.{find_demand_members, make_demand_members, on_set, read_demand, read_demands, read_modes_on, read_on_app, read_on_mode, read_on_modes, read_requirements};
ghost use Rattle.spec_reading.specs.TableFacts.{AreOn, FitsRequirements, HasMoreModes, IsNewDemand, IsNewOn, IsOnAfter};

use crate::choices::Wants;
use crate::configurations::{find_app, is_given, read_listed_mode, read_new_app};
use crate::names::{ByName, read_new_name};
use crate::numbered::{NamedElements, Numbered, read_named_list};
use crate::rule;
use crate::sets::{read_apps_set, read_confs_set, read_procs_set};
use crate::vocabulary::Vocabulary;
use scram_doc::{
    DocError, DocFault, Lengths, Path, exactly_two, list, no_more_than, object, read_list,
    required_four,
};
use scram_types::limits::{MAX_APPLICATIONS, MAX_DEMANDS, MAX_FACTORS, MAX_MODES};
use scram_types::{AppId, AppSpec, Demand, List, Mode, Modes};
use serde_json::Value;
use std::alloc::Global;

type On = [Option<Modes>; 8];

/// Reads a mode from its name, and appends it to `modes`, which must have fewer than three modes.
fn read_on_mode(
    app: Option<&AppSpec>,
    modes: Modes,
    v: &Value,
    at: &Path,
) -> Result<Modes, DocFault>
    requires room { length modes < 3 }
    ensures value { result ≡ read_on_mode (option_copied app.entry) at.now modes (view v.now) }
    ensures more { IfOk result (HasMoreModes (option_copied app.entry) modes) }
{
    let mode = read_listed_mode(app, v, at)?;
    if modes.has(mode) {
        return Err(DocFault::new(rule::MODE_TWICE, at));
    }
    let mut modes = modes;
    modes.push(mode);
    Ok(modes)
}

/// Reads a list of 0 to 3 modes, each of which the application lists.
fn read_on_modes(app: Option<&AppSpec>, v: &Value, at: &Path) -> Result<Modes, DocFault>
    requires room { length at.now ≤ 46 }
    ensures value { result ≡ read_on_modes (option_copied app.entry) at.now (view v.now) }
    ensures few { IfOk result (λ modes. length modes ≤ 3) }
    ensures each { IfOk result (λ modes. AllAfter (IsNewOn (option_copied app.entry)) modes) }
{
    let items = list(v, 0, MAX_MODES, at)?;
    let mut modes = Modes::new();
    for (i, v) in items.iter().enumerate() {
        modes = read_on_mode(app, modes, v, &at.item(i))?;
    }
    Ok(modes)
}

/// Reads an application that must be on, and adds its modes to `on`.
fn read_on_app(
    apps: &Numbered<AppSpec, ByName>,
    on: On,
    v: &Value,
    at: &Path,
) -> Result<On, DocFault>
    requires room { length at.now ≤ 40 }
    requires few { length apps.now ≤ 8 }
    ensures value { result ≡ read_on_app apps.now at.now on (view v.now) }
    ensures fits { IfOk result (λ more. IsOnAfter apps.now on more) }
{
    let (app, modes) = exactly_two(v, ("app", "modes"), at)?;
    let app = read_new_app(apps, &on, app, &at.member("app"))?;
    let modes = read_on_modes(find_app(apps, app), modes, &at.member("modes"))?;
    let mut on = on;
    on[usize::from(app.0)] = Some(modes);
    Ok(on)
}

/// Reads the 0 to 8 applications that must be on, with the modes of each.
fn read_modes_on(apps: &Numbered<AppSpec, ByName>, v: &Value, at: &Path) -> Result<On, DocFault>
    requires room { length at.now ≤ 34 }
    requires few { length apps.now ≤ 8 }
    ensures value { result ≡ read_modes_on apps.now at.now (view v.now) }
    ensures fits { IfOk result (λ on. AreOn apps.now on) }
{
    let items = list(v, 0, MAX_APPLICATIONS, at)?;
    let mut on = [None; 8];
    for (i, v) in items.iter().enumerate() {
        on = read_on_app(apps, on, v, &at.item(i))?;
    }
    Ok(on)
}

/// Returns the set of the applications that must be on.
fn on_set(on: &On) -> u8
    ensures { result ≡ on_set on.now }
{
    let mut set = 0;
    for a in 0..8 {
        if is_given(on, AppId(a)) {
            set += 1 << a;
        }
    }
    set
}

/// The requirements of a demand on the processors of an environment and on the configuration that is chosen.
#[derive(Clone, Copy)]
struct Requirements {
    up: u8,
    down: u8,
    to: u16,
    on: On,
    off: u8,
}

/// The values of the members of a demand.
#[derive(Clone, Copy)]
struct DemandMembers<'a> {
    name: &'a Value,
    from: &'a Value,
    wants: &'a Value,
    up: &'a Value,
    down: &'a Value,
    to: &'a Value,
    on: &'a Value,
    off: &'a Value,
}

/// Returns the members of the demand at this path. Returns an error if the value is not an object, lacks a member of a
/// demand, or has further members.
fn find_demand_members<'a>(v: &'a Value, at: &Path) -> Result<DemandMembers<'a>, DocFault>
    requires { length at.now ≤ 24 }
    ensures { ok_map (λ m. make_demand_members (view m.name.now) (view m.from.now) (view m.wants.now) (view m.up.now) (view m.down.now) (view m.to.now)
        (view m.on.now) (view m.off.now)) result ≡ find_demand_members at.now (view v.now) }
{
    object(v, at)?;
    let (name, from, wants, up) = required_four(v, ("name", "from", "when", "up"), at)?;
    let (down, to, on, off) = required_four(v, ("down", "to", "on", "off"), at)?;
    no_more_than(v, 8, at)?;
    Ok(DemandMembers {
        name,
        from,
        wants,
        up,
        down,
        to,
        on,
        off,
    })
}

/// Reads the requirements of the demand at this path from its members.
fn read_requirements(
    vocabulary: &Vocabulary,
    members: &DemandMembers<'_>,
    at: &Path,
) -> Result<Requirements, DocFault>
    requires room { length at.now ≤ 24 }
    ensures value { result ≡ read_requirements vocabulary.now.procs vocabulary.now.apps vocabulary.now.confs at.now
        (make_demand_members (view members.now.name.now) (view members.now.from.now) (view members.now.wants.now) (view members.now.up.now)
        (view members.now.down.now) (view members.now.to.now) (view members.now.on.now) (view members.now.off.now)) }
    ensures fits { IfOk result (FitsRequirements vocabulary.now.procs vocabulary.now.apps vocabulary.now.confs) }
{
    let procs = &vocabulary.procs;
    let up = read_procs_set(procs, 0, members.up, &at.member("up"))?;
    let down = read_procs_set(procs, up, members.down, &at.member("down"))?;
    let to = read_confs_set(&vocabulary.confs, members.to, &at.member("to"))?;
    let apps = &vocabulary.apps;
    let on = read_modes_on(apps, members.on, &at.member("on"))?;
    let off = read_apps_set(apps, on_set(&on), members.off, &at.member("off"))?;
    Ok(Requirements {
        up,
        down,
        to,
        on,
        off,
    })
}

#[derive(Clone, Copy)]
struct Demands<'a> {
    vocabulary: &'a Vocabulary,
}

impl NamedElements<Demand, ByName> for Demands<'_> {
    ghost room = { 24 };

    ghost reading = { λ demands. read_demand demands.vocabulary.now.procs demands.vocabulary.now.apps demands.vocabulary.now.confs
        demands.vocabulary.now.factors };

    ghost Fits = { λ demands. IsNewDemand demands.vocabulary.now.procs demands.vocabulary.now.apps demands.vocabulary.now.confs
        demands.vocabulary.now.factors };

    ghost is_new = { λ e done x fits. fits.name.new };

    fn read(
        &self,
        alloc: Global,
        done: &Numbered<Demand, ByName>,
        v: &Value,
        at: &Path,
    ) -> Result<Demand, DocError> {
        let members = find_demand_members(v, at)?;
        let vocabulary = self.vocabulary;
        let name = read_new_name(done, members.name, &at.member("name"))?;
        let from = read_confs_set(&vocabulary.confs, members.from, &at.member("from"))?;
        let few = Lengths::up_to(MAX_FACTORS);
        let wants = Wants { vocabulary };
        let wants = read_list(alloc, &wants, members.wants, few, &at.member("when"))?;
        let Requirements {
            up,
            down,
            to,
            on,
            off,
        } = read_requirements(vocabulary, &members, at)?;
        Ok(Demand {
            name,
            from,
            wants: List::of(wants),
            up,
            down,
            to,
            on,
            off,
        })
    }
}

/// Reads the 0 to 64 demands in a list. Returns an error with the first broken rule, or `NoMemory` if memory runs
/// out.
pub fn read_demands(
    alloc: Global,
    vocabulary: &Vocabulary,
    v: &Value,
    at: &Path,
) -> Result<Vec<Demand>, DocError>
    requires room { length at.now ≤ 18 }
    ensures value { Answers (read_demands vocabulary.now.procs vocabulary.now.apps vocabulary.now.confs vocabulary.now.factors at.now (view v.now))
        (λ l. l.items) result }
    ensures few { IfOk result (λ l. length l.items ≤ 64) }
    ensures fits { IfOk result (λ l. AllAfter (IsNewDemand vocabulary.now.procs vocabulary.now.apps vocabulary.now.confs vocabulary.now.factors) l.items) }
{
    let demands = read_named_list(
        alloc,
        &Demands { vocabulary },
        v,
        Lengths::up_to(MAX_DEMANDS),
        at,
    )?;
    Ok(demands.into_items())
}
