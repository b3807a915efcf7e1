//! The names of the items to which a specification refers.

ghost use Rattle.std.specs.Prelude.{◌≡◌};
ghost use Rattle.reconf_spec.specs.Texts.{name_of_app_mode, name_of_value, name_of_variable, policy_name, source_name};

use kind_table::{mode_name, variable_name};
use scram_types::{AppId, AppSpec, ConfId, Mode, Policy, Spec, Want};

/// Returns the name of a source configuration, or `*` if `from` is `None`.
pub fn source_name(spec: &Spec, from: Option<ConfId>) -> &str
    ensures { result.now ≡ source_name spec.now.confs from }
{
    match from {
        Some(conf) => spec.conf_name(conf),
        None => "*",
    }
}

/// Returns the name of a required value, or an empty name if there is no such factor or value.
pub fn name_of_value(spec: &Spec, want: Want) -> &str
    ensures { result.now ≡ name_of_value spec.now.factors want.factor.0 want.value }
{
    match spec.factors.items().get(usize::from(want.factor.0)) {
        Some(factor) => factor.value_name(want.value),
        None => "",
    }
}

/// Returns the name of a mode of an application's kind, or an empty name if there is no such application or mode.
pub fn name_of_app_mode(apps: &[AppSpec], app: AppId, mode: Mode) -> &'static str
    ensures { result.now ≡ name_of_app_mode apps.now app.0 mode.0 }
{
    match apps.get(usize::from(app.0)) {
        Some(app) => match mode_name(app.kind, mode) {
            Some(name) => name,
            None => "",
        },
        None => "",
    }
}

/// Returns the name of a variable of an application's kind, or an empty name if there is no such application or
/// variable.
pub fn name_of_variable(apps: &[AppSpec], app: AppId, variable: u8) -> &'static str
    ensures { result.now ≡ name_of_variable apps.now app.0 variable }
{
    match apps.get(usize::from(app.0)) {
        Some(app) => match variable_name(app.kind, variable) {
            Some(name) => name,
            None => "",
        },
        None => "",
    }
}

/// Returns the name of a policy.
pub fn policy_name(policy: Policy) -> &'static str
    ensures { result.now ≡ policy_name policy }
{
    match policy {
        Policy::Retarget => "retarget",
        Policy::Settle => "settle",
    }
}
