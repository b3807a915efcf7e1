//! The lines that `props` prints, made without allocating.

ghost use Rattle.std.specs.Prelude.{◌≡◌, ◌<◌, ◌^◌, length};
ghost use Rattle.trace_forms.specs.Lines.{broken_line, holds_line};

use form_base::lines::add_counts;
use scram_types::Flown;
use trace_props::Broken;
use trace_text::lines::Line;

/// Returns the line for a trace for which the six properties of reconfigurations hold. The line has the number of
/// frames and the number of reconfigurations.
pub fn make_holds_line(flown: &Flown) -> Line
    requires rows { length flown.now.rows < 2 ^ 32 }
    requires reports { length flown.now.reports < 2 ^ 32 }
    ensures { result ≡ holds_line flown.now }
{
    let mut line = Line::new();
    line.text(b"holds:");
    add_counts(&mut line, flown);
    line.text(b"\n");
    line
}

/// Returns the line for a trace that breaks a property, with the number of the first such property and the frame in
/// which the trace breaks it.
pub fn make_broken_line(broken: Broken) -> Line
    ensures { result ≡ broken_line broken }
{
    let mut line = Line::new();
    line.text(b"broken: SP");
    line.number(u32::from(broken.property.number()));
    line.text(b" at frame ");
    line.number(broken.frame);
    line.text(b"\n");
    line
}
