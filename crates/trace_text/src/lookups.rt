//! Lookups of names in a specification.

ghost use Rattle.std.specs.Prelude.{◌≡◌, ◌<◌, IfSome, length};
ghost use Rattle.trace_text.specs.Lookups.{app_number, conf_or_none, mode_from, listed_mode};

use crate::pieces::is_dash;
use crate::row_lines::name_of_mode;
use scram_types::{ConfId, KindId, Mode, ModeSpec, Spec};

/// Returns the configuration of this name, `Some(None)` for `-`, or `None` if the name is unknown.
pub fn find_conf_or_none(spec: &Spec, text: &[u8]) -> Option<Option<ConfId>>
    ensures { result ≡ conf_or_none spec.now text.now }
{
    if is_dash(text) {
        return Some(None);
    }
    match spec.conf_named(text) {
        Some(conf) => Some(Some(conf)),
        None => None,
    }
}

/// Returns the number of the first application of this name, or `None` if no application has it.
pub fn find_app(spec: &Spec, text: &[u8]) -> Option<usize>
    ensures app { result ≡ app_number spec.now text.now }
    ensures below { IfSome result (λ a. a < length spec.now.apps) }
{
    match spec.app_named(text) {
        Some(app) => Some(usize::from(app.0)),
        None => None,
    }
}

/// Returns the mode of this name that application `app` lists, or `None` if `app` does not exist or lists no such
/// mode.
pub fn find_mode(spec: &Spec, app: usize, text: &[u8]) -> Option<Mode>
    ensures { result ≡ listed_mode spec.now app text.now }
{
    match spec.apps.items().get(app) {
        Some(app) => find_listed(app.kind, app.modes.items(), text),
        None => None,
    }
}

fn find_listed(kind: KindId, modes: &[ModeSpec], text: &[u8]) -> Option<Mode>
    ensures { result ≡ mode_from kind.0 text.now modes.now }
{
    for listed in modes {
        if name_of_mode(kind, listed.mode).as_bytes() == text {
            return Some(listed.mode);
        }
    }
    None
}
