//! The lines of idle parts, made without allocating.

ghost use Rattle.std.specs.Prelude.{◌≡◌, ◌≤◌, length};
ghost use Rattle.idle_parts.specs.Lines.{idle_line, part_word};

use trace_text::lines::Line;

// A kind of part of a specification.
#[derive(Clone, Copy)]
pub(crate) enum PartKind {
    Rule,
    Conf,
    Factor,
    Bound,
    // The modes of applications.
    Mode,
    App,
    Proc,
    Demand,
}

// Returns the line of an idle part, given its kind and its name or number of at most 64 bytes.
pub(crate) fn make_idle_line(kind: PartKind, name: &[u8]) -> Line
    requires { length name.now ≤ 64 }
    ensures { result ≡ idle_line kind name.now }
{
    let mut line = Line::new();
    line.text(b"  idle ");
    line.text(part_word(kind));
    line.text(b" ");
    line.text(name);
    line.text(b"\n");
    line
}

fn part_word(kind: PartKind) -> &'static [u8]
    ensures text { result.now ≡ part_word kind }
    ensures short { length result.now ≤ 13 }
{
    match kind {
        PartKind::Rule => b"rule",
        PartKind::Conf => b"configuration",
        PartKind::Factor => b"factor",
        PartKind::Bound => b"bound",
        PartKind::Mode => b"mode",
        PartKind::App => b"application",
        PartKind::Proc => b"processor",
        PartKind::Demand => b"demand",
    }
}
