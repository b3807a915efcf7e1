//! Lookups in a specification, by number and by name.

ghost use Rattle.std.specs.Prelude.{◌≡◌, ◌<◌, ◌≤◌, IfSome, length};
ghost use Rattle.scram_types.specs.Lookups.{app_name, app_named, conf_name, conf_named, env_before, env_in, factor_name, factor_named, is_on, kind_of_app, mode_of, mode_of_app, number_named, opening_env, place_of, proc_name, proc_named, value_name, value_named};

use crate::ids::{AppId, ConfId, FactorId, KindId, Mode, ProcId};
use crate::names::Name;
use crate::rows::{Env, Row};
use crate::specification::{AppSpec, Conf, Factor, ModeSpec, Place, Proc, Spec};

impl Spec {
    /// Returns the application with this name, or `None` if there is no such application.
    pub fn app_named(&self, text: &[u8]) -> Option<AppId>
        ensures app { result ≡ app_named self.now text.now }
        ensures below { IfSome result (λ app. app.0 < length self.now.apps) }
    {
        number_named(self.apps.items(), text).map(AppId)
    }

    /// Returns the processor with this name, or `None` if there is no such processor.
    pub fn proc_named(&self, text: &[u8]) -> Option<ProcId>
        ensures proc { result ≡ proc_named self.now text.now }
        ensures below { IfSome result (λ proc. proc.0 < length self.now.procs) }
    {
        number_named(self.procs.items(), text).map(ProcId)
    }

    /// Returns the configuration with this name, or `None` if there is no such configuration.
    pub fn conf_named(&self, text: &[u8]) -> Option<ConfId>
        ensures conf { result ≡ conf_named self.now text.now }
        ensures below { IfSome result (λ conf. conf.0 < length self.now.confs) }
    {
        number_named(self.confs.items(), text).map(ConfId)
    }

    /// Returns the factor with this name, or `None` if there is no such factor.
    pub fn factor_named(&self, text: &[u8]) -> Option<FactorId>
        ensures factor { result ≡ factor_named self.now text.now }
        ensures below { IfSome result (λ factor. factor.0 < length self.now.factors) }
    {
        number_named(self.factors.items(), text).map(FactorId)
    }

    /// Returns the name of an application, at most 16 bytes, or an empty string if there is no such application.
    pub fn app_name(&self, app: AppId) -> &str
        ensures name { result.now ≡ app_name self.now app.0 }
        ensures short { length result.now ≤ 16 }
    {
        match self.app(app) {
            Some(app) => app.name.as_str(),
            None => "",
        }
    }

    /// Returns the name of a processor, at most 16 bytes, or an empty string if there is no such processor.
    pub fn proc_name(&self, proc: ProcId) -> &str
        ensures name { result.now ≡ proc_name self.now proc.0 }
        ensures short { length result.now ≤ 16 }
    {
        match self.proc(proc) {
            Some(proc) => proc.name.as_str(),
            None => "",
        }
    }

    /// Returns the name of a configuration, at most 16 bytes, or an empty string if there is no such configuration.
    pub fn conf_name(&self, conf: ConfId) -> &str
        ensures name { result.now ≡ conf_name self.now conf.0 }
        ensures short { length result.now ≤ 16 }
    {
        match self.conf(conf) {
            Some(conf) => conf.name.as_str(),
            None => "",
        }
    }

    /// Returns the name of a factor, at most 16 bytes, or an empty string if there is no such factor.
    pub fn factor_name(&self, factor: FactorId) -> &str
        ensures name { result.now ≡ factor_name self.now factor.0 }
        ensures short { length result.now ≤ 16 }
    {
        match self.factor(factor) {
            Some(factor) => factor.name.as_str(),
            None => "",
        }
    }

    /// Returns the kind of an application, or 0 if there is no such application.
    pub fn kind_of_app(&self, app: AppId) -> KindId
        ensures kind { result.0 ≡ kind_of_app self.now app.0 }
        ensures built { result.0 < 6 }
    {
        match self.apps.items().get(usize::from(app.0)) {
            Some(app) => app.kind,
            None => KindId(0),
        }
    }

    /// Returns the place of application `app` in configuration `c`. Returns `None` if the application is off there,
    /// or if the application or the configuration does not exist.
    pub fn place_of(&self, c: ConfId, app: AppId) -> Option<Place>
        ensures place { result ≡ place_of self.now c app.0 }
        ensures proc { IfSome result (λ place. place.proc.0 < 8) }
    {
        match self.confs.items().get(usize::from(c.0)) {
            Some(conf) => conf.place(app),
            None => None,
        }
    }

    /// Returns `true` if an application is on in a configuration.
    pub fn is_on(&self, conf: ConfId, app: AppId) -> bool
        ensures { result ≡ is_on self.now conf app.0 }
    {
        self.place_of(conf, app).is_some()
    }

    /// Returns the costs of a mode of an application, or `None` if the application does not list the mode or does not
    /// exist.
    pub fn mode_of_app(&self, app: AppId, mode: Mode) -> Option<ModeSpec>
        ensures { result ≡ mode_of_app self.now app.0 mode.0 }
    {
        self.app(app)?.mode(mode)
    }

    /// Returns the costs of an application's mode in a configuration, or `None` if the application has no place
    /// there.
    pub fn mode_of(&self, conf: ConfId, app: AppId) -> Option<ModeSpec>
        ensures { result ≡ mode_of self.now conf app.0 }
    {
        let place = self.place_of(conf, app)?;
        self.mode_of_app(app, place.mode)
    }

    /// Returns the environment at the start of a flight: each processor is up and each factor has its first value.
    pub fn opening_env(&self) -> Env
        ensures { result ≡ opening_env self.now }
    {
        Env {
            up: ((1u16 << self.procs.items().len()) - 1) as u8,
            factors: [0; 6],
        }
    }
}

impl Factor {
    /// Returns the number of the value with this name, or `None` if there is no such value. The factor must have at
    /// most 255 values.
    pub fn value_named(&self, text: &[u8]) -> Option<u8>
        requires { length self.now.values ≤ 255 }
        ensures value { result ≡ value_named self.now text.now }
        ensures below { IfSome result (λ value. value < length self.now.values) }
    {
        number_named(self.values.items(), text)
    }

    /// Returns the name of a value of the factor, at most 16 bytes, or an empty string if the factor has no such
    /// value.
    pub fn value_name(&self, value: u8) -> &str
        ensures name { result.now ≡ value_name self.now value }
        ensures short { length result.now ≤ 16 }
    {
        match self.values.items().get(usize::from(value)) {
            Some(name) => name.as_str(),
            None => "",
        }
    }
}

/// An item that has a name.
trait Named {
    ghost use Rattle.std.specs.Prelude.{◌≡◌, List, ℕ};

    /// The bytes of an item's name.
    ghost spelling: { Self → List ℕ };

    fn name(&self) -> &Name
        ensures { result.now ≡ spelling self.now };
}

impl Named for AppSpec {
    ghost spelling = { λ app. app.name };

    fn name(&self) -> &Name {
        &self.name
    }
}

impl Named for Proc {
    ghost spelling = { λ proc. proc.name };

    fn name(&self) -> &Name {
        &self.name
    }
}

impl Named for Conf {
    ghost spelling = { λ conf. conf.name };

    fn name(&self) -> &Name {
        &self.name
    }
}

impl Named for Factor {
    ghost spelling = { λ factor. factor.name };

    fn name(&self) -> &Name {
        &self.name
    }
}

impl Named for Name {
    ghost spelling = { λ name. name };

    fn name(&self) -> &Name {
        self
    }
}

/// Returns the index of the first item with this name, or `None` if there is no such item. There must be at most 255
/// items.
fn number_named<T: Named>(items: &[T], text: &[u8]) -> Option<u8>
    requires { length items.now ≤ 255 }
    ensures number { result ≡ number_named T.spelling items.now text.now }
    ensures below { IfSome result (λ i. i < length items.now) }
{
    for (i, item) in items.iter().enumerate() {
        if item.name().as_str().as_bytes() == text {
            return Some(i as u8);
        }
    }
    None
}

/// Returns the environment of row `k`, or `None` if there is no such row.
pub fn env_in(rows: &[Row], k: usize) -> Option<Env>
    ensures { result ≡ env_in rows.now k }
{
    match rows.get(k) {
        Some(row) => Some(row.env),
        None => None,
    }
}

/// Returns the environment of row `k - 1`, or the environment at the start of a flight if `k` is 0. Returns `None` if
/// there is no row `k - 1`.
pub fn env_before(spec: &Spec, rows: &[Row], k: usize) -> Option<Env>
    ensures { result ≡ env_before spec.now rows.now k }
{
    match k.checked_sub(1) {
        Some(before) => env_in(rows, before),
        None => Some(spec.opening_env()),
    }
}
