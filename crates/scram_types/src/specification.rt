//! Specifications: processors, applications, configurations, the choice table and the bounds.

ghost use Rattle.std.specs.Prelude.{◌≡◌, ◌≤◌, length, slice_get};
ghost use Rattle.std.specs.Option.{option_copied};
ghost use Rattle.scram_types.specs.Specification.{greater_of};

use crate::demands::Demand;
use crate::ids::{AppId, ConfId, FactorId, KindId, Mode, ProcId};
use crate::lists::List;
use crate::names::Name;
use crate::rows::Goal;

/// A processor with its name and its capacity, 0 to 1,000,000 load units.
#[derive(Drop)]
pub struct Proc {
    pub name: Name,
    pub capacity: u32,
}

/// The costs of a mode of an application: its load, 0 to 1,000,000 load units, and the lengths of its halt, prepare
/// and init phases, 1 to 16 frames each.
#[derive(Clone, Copy)]
pub struct ModeSpec {
    pub mode: Mode,
    pub load: u32,
    pub halt: u8,
    pub prepare: u8,
    pub init: u8,
}

/// An application: its kind, the applications that it needs, and the modes of its kind that it lists. Its rank is
/// above the rank of each application that it needs.
pub struct AppSpec {
    pub name: Name,
    pub kind: KindId,
    pub needs: List<AppId>,
    pub modes: List<ModeSpec>,
    pub rank: u8,
}

// A derived drop is laid out in the proof of each function that drops the value, and this one is a call.
impl Drop for AppSpec {
    fn drop(self) {
        let AppSpec {
            name: _,
            kind: _,
            needs: _,
            modes: _,
            rank: _,
        } = self;
    }
}

/// The mode and the processor of an application in a configuration in which it is on.
#[derive(Clone, Copy)]
pub struct Place {
    pub mode: Mode,
    pub proc: ProcId,
}

/// A configuration: the place of each application, in the order of the applications, or `None` if the application is
/// off.
#[derive(Drop)]
pub struct Conf {
    pub name: Name,
    pub places: [Option<Place>; 8],
}

/// An environment factor and its possible values. At the start of a flight the factor has its first value.
pub struct Factor {
    pub name: Name,
    pub values: List<Name>,
}

// A derived drop is laid out in the proof of each function that drops the value, and this one is a call.
impl Drop for Factor {
    fn drop(self) {
        let Factor { name: _, values: _ } = self;
    }
}

/// A requirement that a factor has a value, given as an index into the factor's values.
#[derive(Clone, Copy)]
pub struct Want {
    pub factor: FactorId,
    pub value: u8,
}

/// A rule of the choice table, whose target is `to`. The rule applies if the source is `from` (`None` for any
/// source), each required factor has the required value, and each processor whose bit is set in `up` is up.
pub struct Choice {
    pub from: Option<ConfId>,
    pub wants: List<Want>,
    pub up: u8,
    pub to: ConfId,
}

// A derived drop is laid out in the proof of each function that drops the value, and this one is a call.
impl Drop for Choice {
    fn drop(self) {
        let Choice {
            from: _,
            wants: _,
            up: _,
            to: _,
        } = self;
    }
}

/// The maximum length of a reconfiguration from configuration `from` to configuration `to`: 1 to 1,000 frames.
#[derive(Clone, Copy)]
pub struct Bound {
    pub from: ConfId,
    pub to: ConfId,
    pub frames: u32,
}

/// An invariant: while a reconfiguration leaves `from` (`None` for any configuration), this variable of this
/// application lies between `least` and `greatest`, both within 1,000,000,000 of 0.
#[derive(Clone, Copy)]
pub struct Invariant {
    pub from: Option<ConfId>,
    pub app: AppId,
    pub variable: u8,
    pub least: i64,
    pub greatest: i64,
}

/// A precondition: when a configuration begins to run, this variable of this application lies between `least` and
/// `greatest`, both within 1,000,000,000 of 0.
#[derive(Clone, Copy)]
pub struct Precondition {
    pub conf: ConfId,
    pub app: AppId,
    pub variable: u8,
    pub least: i64,
    pub greatest: i64,
}

/// The policy for a failure during a reconfiguration. `Retarget` chooses a new target at each change; `Settle` keeps
/// the target as long as it can run.
#[derive(Clone, Copy)]
pub enum Policy {
    Retarget,
    Settle,
}

/// A specification. Its creator proves `IsSpec`: names differ within their class, indexes are in range, the limits
/// hold, and a needed application has a lower rank. Modes are modes of their kind, and the mode of a place is listed
/// by its application.
///
/// `halts`, `changes` and `window` are the failure assumption. At most `halts` processors are down at once, and any
/// `window` consecutive frames hold at most `changes + 1` frames in which the environment changes.
pub struct Spec {
    pub procs: List<Proc>,
    pub apps: List<AppSpec>,
    pub confs: List<Conf>,
    pub factors: List<Factor>,
    pub rules: List<Choice>,
    pub bounds: List<Bound>,
    pub start: ConfId,
    pub goal: Goal,
    pub invariants: List<Invariant>,
    pub preconditions: List<Precondition>,
    pub policy: Policy,
    pub demands: List<Demand>,
    pub halts: u8,
    pub changes: u8,
    pub window: u32,
}

// A derived drop is laid out in the proof of each function that drops the value, and this one is a call.
impl Drop for Spec {
    fn drop(self) {
        let Spec {
            procs: _,
            apps: _,
            confs: _,
            factors: _,
            rules: _,
            bounds: _,
            start: _,
            goal: _,
            invariants: _,
            preconditions: _,
            policy: _,
            demands: _,
            halts: _,
            changes: _,
            window: _,
        } = self;
    }
}

impl std::marker::Model for Spec {
    ghost use Rattle.scram_types.specs.Specification.{Parts, IsSpec};

    ghost Value = { Parts };

    ghost view = { λ s. record {
      procs = s.procs;
      apps = s.apps;
      confs = s.confs;
      factors = s.factors;
      rules = s.rules;
      bounds = s.bounds;
      start = s.start;
      goal = s.goal;
      invariants = s.invariants;
      preconditions = s.preconditions;
      policy = s.policy;
      demands = s.demands;
      halts = s.halts;
      changes = s.changes;
      window = s.window;
    } };

    ghost invariant = { λ s. IsSpec (record {
      procs = s.procs;
      apps = s.apps;
      confs = s.confs;
      factors = s.factors;
      rules = s.rules;
      bounds = s.bounds;
      start = s.start;
      goal = s.goal;
      invariants = s.invariants;
      preconditions = s.preconditions;
      policy = s.policy;
      demands = s.demands;
      halts = s.halts;
      changes = s.changes;
      window = s.window;
    }) };
}

impl Conf {
    ghost use Rattle.scram_types.specs.Specification.{place_in};

    /// Returns the place of an application in the configuration, or `None` if the application is off.
    pub fn place(&self, app: AppId) -> Option<Place>
        ensures { result ≡ place_in self.now app.0 }
    {
        match self.places.get(usize::from(app.0)) {
            Some(place) => *place,
            None => None,
        }
    }
}

impl AppSpec {
    ghost use Rattle.scram_types.specs.Specification.{mode_in};

    /// Returns the costs of a mode of the application, or `None` if the application does not list the mode.
    pub fn mode(&self, mode: Mode) -> Option<ModeSpec>
        ensures { result ≡ mode_in self.now.modes mode.0 }
    {
        for listed in self.modes.items() {
            if listed.mode.0 == mode.0 {
                return Some(*listed);
            }
        }
        None
    }
}

impl Spec {
    ghost use Rattle.scram_types.specs.Specification.{IsSpec, bound_in, greatest_bound_in};

    /// Returns the number of processors, at most 8.
    pub fn count_procs(&self) -> u8
        ensures value { result ≡ length self.now.procs }
        ensures most { result ≤ 8 }
        ensures known { IsSpec self.now }
    {
        self.procs.items().len() as u8
    }

    /// Returns the number of applications, at most 8.
    pub fn count_apps(&self) -> u8
        ensures value { result ≡ length self.now.apps }
        ensures most { result ≤ 8 }
        ensures known { IsSpec self.now }
    {
        self.apps.items().len() as u8
    }

    /// Returns the number of configurations, at most 12.
    pub fn count_confs(&self) -> u8
        ensures value { result ≡ length self.now.confs }
        ensures most { result ≤ 12 }
        ensures known { IsSpec self.now }
    {
        self.confs.items().len() as u8
    }

    /// Returns the number of factors, at most 6.
    pub fn count_factors(&self) -> u8
        ensures value { result ≡ length self.now.factors }
        ensures most { result ≤ 6 }
        ensures known { IsSpec self.now }
    {
        self.factors.items().len() as u8
    }

    /// Returns the bound, in frames, on a reconfiguration from one configuration to another, or `None` if the
    /// specification gives no bound for the pair.
    pub fn bound(&self, from: ConfId, to: ConfId) -> Option<u32>
        ensures { result ≡ bound_in self.now.bounds from.0 to.0 }
    {
        for bound in self.bounds.items() {
            if bound.from.0 == from.0 && bound.to.0 == to.0 {
                return Some(bound.frames);
            }
        }
        None
    }

    /// Returns the greatest bound, in frames, on a reconfiguration from a configuration, or `None` if the
    /// specification gives no such bound.
    pub fn greatest_bound(&self, from: ConfId) -> Option<u32>
        ensures { result ≡ greatest_bound_in self.now.bounds from.0 }
    {
        let mut greatest = None;
        for bound in self.bounds.items() {
            if bound.from.0 == from.0 {
                greatest = Some(greater(greatest, bound.frames));
            }
        }
        greatest
    }

    /// Returns the processor with this number, or `None` if there is no such processor.
    pub fn proc(&self, proc: ProcId) -> Option<&Proc>
        ensures { option_copied result ≡ slice_get self.now.procs proc.0 }
    {
        self.procs.items().get(usize::from(proc.0))
    }

    /// Returns the application with this number, or `None` if there is no such application.
    pub fn app(&self, app: AppId) -> Option<&AppSpec>
        ensures { option_copied result ≡ slice_get self.now.apps app.0 }
    {
        self.apps.items().get(usize::from(app.0))
    }

    /// Returns the configuration with this number, or `None` if there is no such configuration.
    pub fn conf(&self, conf: ConfId) -> Option<&Conf>
        ensures { option_copied result ≡ slice_get self.now.confs conf.0 }
    {
        self.confs.items().get(usize::from(conf.0))
    }

    /// Returns the factor with this number, or `None` if there is no such factor.
    pub fn factor(&self, factor: FactorId) -> Option<&Factor>
        ensures { option_copied result ≡ slice_get self.now.factors factor.0 }
    {
        self.factors.items().get(usize::from(factor.0))
    }
}

fn greater(greatest: Option<u32>, frames: u32) -> u32
    ensures { result ≡ greater_of greatest frames }
{
    match greatest {
        Some(most) => { if most < frames { frames } else { most } }
        None => frames,
    }
}
