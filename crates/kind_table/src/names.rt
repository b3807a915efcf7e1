//! The names of kinds, modes and variables, as documents and traces write them.

ghost use Rattle.std.specs.Prelude.{◌≡◌, ◌≤◌, ◌<◌, IfSome, length, map, option_map};
ghost use Rattle.scram_types.specs.Specification.{modes_of_kind};
ghost use Rattle.kind_table.specs.Kinds.{variable_read};
ghost use Rattle.kind_table.specs.Names.{kind_names, mode_names, variable_names, is_spelled, IsModeNumber, AllNamesAgree, number_in, name_in};

use crate::table::{Variable, find_kind, name_of};
use scram_types::{KindId, Mode};

fn names_of_kinds() -> [Option<&'static str>; 6]
    ensures { map (option_map (λ s. s.now)) result ≡ kind_names }
{
    [
        Some(name_of::AUTOPILOT),
        Some(name_of::FLIGHT_CONTROL),
        Some(name_of::POWER_MONITOR),
        Some(name_of::NAVIGATOR),
        Some(name_of::DATA_LINK),
        Some(name_of::TASK),
    ]
}

fn names_of_modes(kind: KindId) -> &'static [Option<&'static str>]
    ensures names { map (option_map (λ s. s.now)) result.now ≡ mode_names kind.0 }
    ensures few { length result.now ≤ 8 }
{
    match find_kind(kind.0) {
        Some(found) => found.modes,
        None => &[],
    }
}

fn names_of_variables(variables: &[Variable]) -> [Option<&'static str>; 8]
    requires { length variables.now ≡ 8 }
    ensures { map (option_map (λ s. s.now)) result ≡ map (λ v. v.name) (map variable_read variables.now) }
{
    [
        variables[0].name,
        variables[1].name,
        variables[2].name,
        variables[3].name,
        variables[4].name,
        variables[5].name,
        variables[6].name,
        variables[7].name,
    ]
}

fn name_in(names: &[Option<&'static str>], number: u8) -> Option<&'static str>
    ensures { option_map (λ s. s.now) result ≡ name_in (map (option_map (λ s. s.now)) names.now) number }
{
    match names.get(usize::from(number)) {
        Some(name) => *name,
        None => None,
    }
}

fn is_spelled_so(name: Option<&str>, text: &str) -> bool
    ensures { result ≡ is_spelled (option_map (λ s. s.now) name.entry) text.now }
{
    match name {
        Some(name) => name == text,
        None => false,
    }
}

fn number_in(names: &[Option<&str>], text: &str) -> Option<u8>
    requires few { length names.now ≤ 8 }
    ensures below { IfSome result (λ number. number < length names.now) }
    ensures number { result ≡ number_in (map (option_map (λ s. s.now)) names.now) text.now }
{
    let mut number = 0;
    for name in names {
        if is_spelled_so(*name, text) {
            return Some(number);
        }
        number += 1;
    }
    None
}

/// Returns the kind with this name, or `None` if no kind has this name.
pub fn kind_named(name: &str) -> Option<KindId>
    ensures kind { option_map (λ kind. kind.0) result ≡ number_in kind_names name.now }
    ensures built { IfSome result (λ kind. kind.0 < 6) }
{
    match number_in(&names_of_kinds(), name) {
        Some(number) => Some(KindId(number)),
        None => None,
    }
}

/// Returns the mode of a kind with this name, or `None` if the kind has no such mode.
pub fn mode_named(kind: KindId, name: &str) -> Option<Mode>
    ensures mode { option_map (λ mode. mode.0) result ≡ number_in (mode_names kind.0) name.now }
    ensures of_kind { kind.0 < 6 → IfSome result (λ mode. IsModeNumber mode.0 (modes_of_kind kind.0)) }
{
    match number_in(names_of_modes(kind), name) {
        Some(number) => Some(Mode(number)),
        None => None,
    }
}

/// Returns the index, 0 to 7, of the variable with this name in the areas of a kind, or `None` if the kind has no
/// such variable.
pub fn variable_named(kind: KindId, name: &str) -> Option<u8>
    ensures variable { result ≡ number_in (variable_names kind.0) name.now }
    ensures word { IfSome result (λ variable. variable < 8) }
{
    match find_kind(kind.0) {
        Some(found) => number_in(&names_of_variables(found.variables), name),
        None => None,
    }
}

/// Returns the name of a kind, or `None` if there is no such kind.
pub fn kind_name(kind: KindId) -> Option<&'static str>
    ensures { option_map (λ s. s.now) result ≡ name_in kind_names kind.0 }
{
    name_in(&names_of_kinds(), kind.0)
}

/// Returns the name of a mode of a kind, or `None` if the kind has no such mode. Mode 0, off, has no name.
pub fn mode_name(kind: KindId, mode: Mode) -> Option<&'static str>
    ensures { option_map (λ s. s.now) result ≡ name_in (mode_names kind.0) mode.0 }
{
    name_in(names_of_modes(kind), mode.0)
}

/// Returns the name of a variable of a kind, or `None` if the kind does not use this word of its areas.
pub fn variable_name(kind: KindId, variable: u8) -> Option<&'static str>
    ensures { option_map (λ s. s.now) result ≡ name_in (variable_names kind.0) variable }
{
    match find_kind(kind.0) {
        Some(found) => name_in(&names_of_variables(found.variables), variable),
        None => None,
    }
}

/// States that the look-ups from number to name and from name to number agree for kinds, modes and variables. Every
/// kind has a name. Each of its modes has a name, and no other mode number has one. Each named variable is one of the
/// eight words.
pub fn names_agree()
    ensures { AllNamesAgree }
{}
