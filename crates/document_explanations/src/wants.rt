//! The texts that describe expected values.

ghost use Rattle.std.specs.Prelude.{◌≡◌, ◌++◌, OnOk, codes, decimal, option_map};
ghost use Rattle.std.specs.Fmt.{signed_decimal};
ghost use Rattle.document_explanations.specs.Wants.{factors_and_values, script_factors, script_procs, step_after_mark, length_wanted, number_text, text_text, wanted_text};

use crate::lines::Lines;
use crate::listed::{
    FactorText, KindText, MemberText, ModesText, ProcText, VariablesText, add_listed, kinds,
};
use crate::objects::{Member, known_members};
use crate::wanted_values::{Length, Number, Text, Wanted};
use kind_table::table::Kind;
use scram_types::limits::MAX_PROCESSORS;
use scram_types::{Factor, NoMemory, Proc, Spec};

/// Appends the text that describes an expected value. `spec` is the specification that a script is for, or `None` if
/// there is none.
///
/// # Errors
///
/// Returns an error if memory runs out.
pub fn add_wanted(lines: &mut Lines, spec: Option<&Spec>, wanted: Wanted) -> Result<(), NoMemory>
    ensures { OnOk result (lines.new ≡ lines.old ++ wanted_text (option_map (λ s. s.now) spec.entry) wanted) }
{
    match wanted {
        Wanted::Object(object) => add_listed::<Member, MemberText>(lines, known_members(object)),
        Wanted::List { length, element: _ } => add_length(lines, length),
        Wanted::Number(number) => add_number(lines, spec, &number),
        Wanted::Text(text) => add_text(lines, spec, text),
    }
}

fn add_length(lines: &mut Lines, length: Length) -> Result<(), NoMemory>
    ensures { OnOk result (lines.new ≡ lines.old ++ length_wanted length) }
{
    match length {
        Length::Within { least, most } => {
            add_range(lines, least, most)?;
            lines.push(" elements")
        }
        Length::Halts => {
            lines.push("0 to ")?;
            lines.number(MAX_PROCESSORS)?;
            lines.push(" elements, 0 to ")?;
            lines.number(2 * MAX_PROCESSORS)?;
            lines.push(" where scram is 2")
        }
    }
}

// Appends two numbers in decimal, with ` to ` between them.
fn add_range(lines: &mut Lines, least: usize, greatest: usize) -> Result<(), NoMemory>
    ensures { OnOk result (lines.new ≡ lines.old ++ decimal least ++ codes " to " ++ decimal greatest) }
{
    lines.number(least)?;
    lines.push(" to ")?;
    lines.number(greatest)
}

// Appends two numbers in decimal, with ` to ` between them. A number is preceded by `-` if it is negative.
fn add_signed_range(lines: &mut Lines, least: &i64, greatest: &i64) -> Result<(), NoMemory>
    ensures { OnOk result (lines.new ≡ lines.old ++ signed_decimal least.now ++ codes " to " ++ signed_decimal greatest.now) }
{
    lines.signed(least)?;
    lines.push(" to ")?;
    lines.signed(greatest)
}

fn add_number(lines: &mut Lines, spec: Option<&Spec>, number: &Number) -> Result<(), NoMemory>
    ensures { OnOk result (lines.new ≡ lines.old ++ number_text (option_map (λ s. s.now) spec.entry) number.now) }
{
    match number {
        Number::SpecificationVersion => lines.push("1, 2 or 3"),
        Number::ScriptVersion => lines.push("1 or 2"),
        Number::Whole { least, greatest } => {
            add_range(lines, *least as usize, *greatest as usize)
        }
        Number::Signed { least, greatest } => add_signed_range(lines, least, greatest),
        Number::Frame { least } => {
            lines.number(*least as usize)?;
            lines.push(" to frames - 1")
        }
        Number::Step => {
            lines.push("0 to ")?;
            lines.number(step_after_mark(spec))
        }
    }
}

fn add_text(lines: &mut Lines, spec: Option<&Spec>, text: Text) -> Result<(), NoMemory>
    ensures { OnOk result (lines.new ≡ lines.old ++ text_text (option_map (λ s. s.now) spec.entry) text) }
{
    match text {
        Text::Name => lines.push("a name, 1 to 16 of a-z 0-9 _, a letter first"),
        Text::Processor => lines.push("the name of a processor"),
        Text::Application => lines.push("the name of an application"),
        Text::Configuration => lines.push("the name of a configuration"),
        Text::ConfigurationOrAny => lines.push("the name of a configuration, or *"),
        Text::Factor => lines.push("the name of a factor"),
        Text::Value => lines.push("the name of one of its values"),
        Text::Kind => add_listed::<Kind, KindText>(lines, &kinds()),
        Text::Mode => add_listed::<Kind, ModesText>(lines, &kinds()),
        Text::Variable => add_listed::<Kind, VariablesText>(lines, &kinds()),
        Text::Policy => lines.push("retarget or settle"),
        Text::ScriptFactor => add_factors(lines, script_factors(spec)),
        Text::ScriptProcessor => add_listed::<Proc, ProcText>(lines, script_procs(spec)),
    }
}

fn add_factors(lines: &mut Lines, factors: &[Factor]) -> Result<(), NoMemory>
    ensures { OnOk result (lines.new ≡ lines.old ++ factors_and_values factors.now) }
{
    if factors.is_empty() {
        lines.push("-")
    } else {
        add_listed::<Factor, FactorText>(lines, factors)
    }
}

fn script_factors(spec: Option<&Spec>) -> &[Factor]
    ensures { result.now ≡ script_factors (option_map (λ s. s.now) spec.entry) }
{
    match spec {
        Some(spec) => spec.factors.items(),
        None => &[],
    }
}

fn script_procs(spec: Option<&Spec>) -> &[Proc]
    ensures { result.now ≡ script_procs (option_map (λ s. s.now) spec.entry) }
{
    match spec {
        Some(spec) => spec.procs.items(),
        None => &[],
    }
}

fn step_after_mark(spec: Option<&Spec>) -> usize
    ensures { result ≡ step_after_mark (option_map (λ s. s.now) spec.entry) }
{
    match spec {
        Some(spec) => 8 * spec.apps.items().len() + 1,
        None => 0,
    }
}
