//! The first lines of refusals, in buffers that grow.

ghost use Rattle.std.specs.Prelude.{◌≡◌, ◌++◌, OnOk};
ghost use Rattle.trace_text.specs.Names.{further_joined};
ghost use Rattle.form_base.specs.Lines.{cycle_text, rule_text, specification_line};
ghost use Rattle.form_base.specs.mission_files.Lines.{script_line};

use crate::lines::Lines;
use fault_script::ScriptFault;
use scram_doc::Path;
use scram_types::{Name, NoMemory};
use spec_reading::SpecFault;

/// Appends the line for a specification document that breaks a rule. The line has the rule's number and the path at
/// which the rule is broken. If `fault` names the applications in a cycle of needs, the line also has their names.
///
/// # Errors
///
/// Returns an error if memory runs out.
pub fn add_specification_line(lines: &mut Lines, fault: &SpecFault) -> Result<(), NoMemory>
    ensures { OnOk result (lines.new ≡ lines.old ++ specification_line fault.now) }
{
    lines.push("refused: specification")?;
    add_rule(lines, fault.rule, &fault.path)?;
    add_cycle(lines, fault.names.as_slice())?;
    lines.push("\n")
}

/// Appends the line for a script document that breaks a rule, with the rule's number and the path at which the rule
/// is broken.
///
/// # Errors
///
/// Returns an error if memory runs out.
pub fn add_script_line(lines: &mut Lines, fault: &ScriptFault) -> Result<(), NoMemory>
    ensures { OnOk result (lines.new ≡ lines.old ++ script_line fault.now) }
{
    lines.push("refused: script")?;
    add_rule(lines, fault.rule, &fault.path)?;
    lines.push("\n")
}

fn add_rule(lines: &mut Lines, rule: u8, path: &Path) -> Result<(), NoMemory>
    ensures { OnOk result (lines.new ≡ lines.old ++ rule_text rule path.now) }
{
    lines.push(" rule ")?;
    lines.number(usize::from(rule))?;
    lines.push(" at ")?;
    lines.push(path.as_str())
}

fn add_cycle(lines: &mut Lines, names: &[Name]) -> Result<(), NoMemory>
    ensures { OnOk result (lines.new ≡ lines.old ++ cycle_text names.now) }
{
    match names {
        [] => Ok(()),
        [first, rest @ ..] => {
            lines.push(" cycle ")?;
            lines.push(first.as_str())?;
            add_further(lines, rest)
        }
    }
}

fn add_further(lines: &mut Lines, names: &[Name]) -> Result<(), NoMemory>
    ensures { OnOk result (lines.new ≡ lines.old ++ further_joined names.now) }
{
    for name in names {
        lines.push(",")?;
        lines.push(name.as_str())?;
    }
    Ok(())
}
