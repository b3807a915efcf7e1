//! The conditions A5 to A7 on the choices of the table in each environment in scope, and the condition A8 on the
//! choice from the start configuration in the opening environment.

ghost use Rattle.std.specs.Prelude.{◌≡◌};
ghost use Rattle.scram_types.specs.Lookups.{conf_id};
ghost use Rattle.scram_types.specs.Specification.{IsSpec};
ghost use Rattle.cube_cover.specs.Covers.{IsCover};
ghost use Rattle.coverage_check.specs.Choosing.{requirement_refusal, requirement_refusal_of, number_of_requirement, start_refusal, target_shown, unmet_of_cover};
ghost use Rattle.coverage_check.specs.TargetSets.{HasCovers};

use crate::shown::{Other, Shown};
use choice_table::choose;
use cube_cover::Cover;
use scram_types::{ConfId, Env, Spec};

/// A condition on a configuration in each environment in scope. A5 requires that a rule fits, A6 that the target can
/// run, and A7 that the table chooses no other configuration from the target.
#[derive(Clone, Copy)]
pub enum Requirement {
    HasRule,
    CanRun,
    Stays,
}

// Returns the refusal for the first configuration and environment in which a requirement (A5 to A7) is not met, or
// `None` if each configuration meets it in each environment in scope.
pub(crate) fn refuse_requirement(
    spec: &Spec,
    covers: &[Cover; 12],
    requirement: Requirement,
) -> Option<Shown>
    requires { HasCovers spec.now covers.now }
    ensures { result ≡ requirement_refusal spec.now requirement }
{
    for c in 0..spec.count_confs() {
        let shown = refuse_requirement_of(spec, &covers[usize::from(c)], requirement, c);
        if shown.is_some() {
            return shown;
        }
    }
    None
}

fn refuse_requirement_of(
    spec: &Spec,
    cover: &Cover,
    requirement: Requirement,
    c: u8,
) -> Option<Shown>
    requires known { IsSpec spec.now }
    requires cover { IsCover spec.now (conf_id c) cover.now }
    ensures { result ≡ requirement_refusal_of spec.now requirement c }
{
    match unmet_of_cover(cover, requirement) {
        Some(env) => {
            let target = target_shown(spec, requirement, ConfId(c), &env);
            Some(Shown::within(number_of(requirement), c, env, target))
        }
        None => None,
    }
}

/// Returns the first environment in scope in which the configuration of `cover` does not meet `requirement`, or `None`
/// if it meets the requirement in each environment in scope.
pub fn unmet_of_cover(cover: &Cover, requirement: Requirement) -> Option<Env>
    ensures { result ≡ unmet_of_cover cover.now requirement }
{
    match requirement {
        Requirement::HasRule => cover.unfit,
        Requirement::CanRun => cover.not_runnable,
        Requirement::Stays => cover.unsettled,
    }
}

fn number_of(requirement: Requirement) -> u8
    ensures { result ≡ number_of_requirement requirement }
{
    match requirement {
        Requirement::HasRule => 5,
        Requirement::CanRun => 6,
        Requirement::Stays => 7,
    }
}

fn target_shown(spec: &Spec, requirement: Requirement, c: ConfId, env: &Env) -> Other
    ensures { result ≡ target_shown spec.now requirement c env.now }
{
    match requirement {
        Requirement::HasRule => Other::Nothing,
        Requirement::CanRun | Requirement::Stays => Other::Conf(choose(spec, c, env)),
    }
}

// Returns the refusal if the table chooses another configuration from the start configuration in the opening
// environment (A8), or `None` if it does not.
pub(crate) fn refuse_start(spec: &Spec) -> Option<Shown>
    ensures { result ≡ start_refusal spec.now }
{
    let env = spec.opening_env();
    let target = choose(spec, spec.start, &env);
    if target.0 == spec.start.0 {
        None
    } else {
        Some(Shown::within(8, spec.start.0, env, Other::Conf(target)))
    }
}
