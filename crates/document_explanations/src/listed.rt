//! The texts of lists of items: members, kinds, factors and processors.

ghost use Rattle.std.specs.Prelude.{◌≡◌, ◌++◌, OnOk, map, option_map};
ghost use Rattle.kind_table.specs.Kinds.{kind_read, kinds, variable_read};
ghost use Rattle.document_explanations.specs.Wants.{further_listed, listed, name_spaced, names_spaced, spaced, variables_spaced, versions_text};

use crate::lines::Lines;
use crate::objects::Member;
use crate::wanted_values::Versions;
use kind_table::kinds::{autopilot, data_link, flight_control, navigator, power_monitor, task};
use kind_table::table::{Kind, Variable, kind_or_last};
use scram_types::{Factor, Name, NoMemory, Proc};

/// A way to show the items of a list.
pub trait Shown<T> {
    ghost use Rattle.std.specs.Prelude.{◌≡◌, ◌++◌, List, ℕ, OnOk};

    /// The text that is shown for an item.
    ghost shown: { T → List ℕ };

    /// Appends the text that is shown for an item.
    ///
    /// # Errors
    ///
    /// Returns an error if memory runs out.
    fn add(lines: &mut Lines, item: &T) -> Result<(), NoMemory>
        ensures { OnOk result (lines.new ≡ lines.old ++ shown item.now) };
}

/// Appends the texts of the items, separated by a comma and a space.
///
/// # Errors
///
/// Returns an error if memory runs out.
pub fn add_listed<T, S: Shown<T>>(lines: &mut Lines, items: &[T]) -> Result<(), NoMemory>
    ensures { OnOk result (lines.new ≡ lines.old ++ listed (map S.shown items.now)) }
{
    match items {
        [] => Ok(()),
        [first, rest @ ..] => {
            S::add(lines, first)?;
            add_further::<T, S>(lines, rest)
        }
    }
}

fn add_further<T, S: Shown<T>>(lines: &mut Lines, items: &[T]) -> Result<(), NoMemory>
    ensures { OnOk result (lines.new ≡ lines.old ++ further_listed (map S.shown items.now)) }
{
    for item in items {
        lines.push(", ")?;
        S::add(lines, item)?;
    }
    Ok(())
}

/// The way to show a member: its name, and the versions that have it.
pub struct MemberText;

impl Shown<Member> for MemberText {
    ghost use Rattle.document_explanations.specs.Objects.{member_read};
    ghost use Rattle.document_explanations.specs.Wants.{member_wanted};

    ghost shown = { λ m. member_wanted (member_read m) };

    fn add(lines: &mut Lines, item: &Member) -> Result<(), NoMemory> {
        lines.push(item.name)?;
        lines.push(versions_text(item.versions))
    }
}

fn versions_text(versions: Versions) -> &'static str
    ensures { result.now ≡ versions_text versions }
{
    match versions {
        Versions::All => "",
        Versions::SecondOn => " where scram is 2 or 3",
        Versions::Third => " where scram is 3",
        Versions::Second => " where scram is 2",
    }
}

/// Returns the kinds of application in the order of their numbers.
pub fn kinds() -> [Kind; 6]
    ensures { map kind_read result ≡ kinds }
{
    // (a list of the records themselves would write each of them out)
    [
        kind_or_last(autopilot::KIND),
        kind_or_last(flight_control::KIND),
        kind_or_last(power_monitor::KIND),
        kind_or_last(navigator::KIND),
        kind_or_last(data_link::KIND),
        kind_or_last(task::KIND),
    ]
}

/// The way to show a kind of application: its name.
pub struct KindText;

impl Shown<Kind> for KindText {
    ghost use Rattle.kind_table.specs.Kinds.{kind_read};
    ghost use Rattle.document_explanations.specs.Wants.{kind_words};

    ghost shown = { λ k. kind_words (kind_read k) };

    fn add(lines: &mut Lines, item: &Kind) -> Result<(), NoMemory> {
        lines.push(item.name)
    }
}

/// The way to show a kind of application: its name, and the names of its modes.
pub struct ModesText;

impl Shown<Kind> for ModesText {
    ghost use Rattle.kind_table.specs.Kinds.{kind_read};
    ghost use Rattle.document_explanations.specs.Wants.{kind_and_modes};

    ghost shown = { λ k. kind_and_modes (kind_read k) };

    fn add(lines: &mut Lines, item: &Kind) -> Result<(), NoMemory> {
        lines.push(item.name)?;
        lines.push(":")?;
        add_modes(lines, item.modes)
    }
}

fn add_modes(lines: &mut Lines, names: &[Option<&'static str>]) -> Result<(), NoMemory>
    ensures { OnOk result (lines.new ≡ lines.old ++ spaced (map (option_map (λ s. s.now)) names.now)) }
{
    for name in names {
        add_spaced(lines, *name)?;
    }
    Ok(())
}

// Appends a space and the name, or nothing if there is no name.
fn add_spaced(lines: &mut Lines, name: Option<&'static str>) -> Result<(), NoMemory>
    ensures { OnOk result (lines.new ≡ lines.old ++ name_spaced (option_map (λ s. s.now) name.entry)) }
{
    match name {
        Some(name) => {
            lines.push(" ")?;
            lines.push(name)
        }
        None => Ok(()),
    }
}

/// The way to show a kind of application: its name, and the names of the variables that it uses.
pub struct VariablesText;

impl Shown<Kind> for VariablesText {
    ghost use Rattle.kind_table.specs.Kinds.{kind_read};
    ghost use Rattle.document_explanations.specs.Wants.{variables_text};

    ghost shown = { λ k. variables_text (kind_read k) };

    fn add(lines: &mut Lines, item: &Kind) -> Result<(), NoMemory> {
        lines.push(item.name)?;
        lines.push(":")?;
        add_variables(lines, item.variables)
    }
}

fn add_variables(lines: &mut Lines, variables: &[Variable]) -> Result<(), NoMemory>
    ensures { OnOk result (lines.new ≡ lines.old ++ variables_spaced (map variable_read variables.now)) }
{
    for variable in variables {
        add_spaced(lines, variable.name)?;
    }
    Ok(())
}

/// The way to show a processor: its name.
pub struct ProcText;

impl Shown<Proc> for ProcText {
    ghost use Rattle.spec_reading.specs.Names.{name_of_proc};

    ghost shown = { name_of_proc };

    fn add(lines: &mut Lines, item: &Proc) -> Result<(), NoMemory> {
        lines.push(item.name.as_str())
    }
}

/// The way to show a factor: its name, and the names of its values.
pub struct FactorText;

impl Shown<Factor> for FactorText {
    ghost use Rattle.document_explanations.specs.Wants.{factor_and_values};

    ghost shown = { factor_and_values };

    fn add(lines: &mut Lines, item: &Factor) -> Result<(), NoMemory> {
        lines.push(item.name.as_str())?;
        lines.push(":")?;
        add_names(lines, item.values.items())
    }
}

fn add_names(lines: &mut Lines, names: &[Name]) -> Result<(), NoMemory>
    ensures { OnOk result (lines.new ≡ lines.old ++ names_spaced names.now) }
{
    for name in names {
        lines.push(" ")?;
        lines.push(name.as_str())?;
    }
    Ok(())
}
