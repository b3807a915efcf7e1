//! The lines for a document with too many bytes, made without allocating.

ghost use Rattle.std.specs.Prelude.{◌≡◌, ◌++◌, ◌≤◌, [], codes, length};
ghost use Rattle.form_base.specs.Lines.{rule_text};
ghost use Rattle.document_explanations.specs.Explanations.{rule_line};
ghost use Rattle.document_explanations.specs.Rules.{has_limit};

use form_base::lines::add_rule;
use scram_doc::Path;
use trace_text::lines::Line;

/// Returns the lines for a document with more than `limit` bytes: a line with `first` and the number of the broken
/// rule, and a line with the rule's text.
pub fn make_long_lines(first: &[u8], rule: u8, limit: u32) -> Line
    requires { length first.now ≤ 22 }
    ensures { result ≡ first.now ++ rule_text rule [] ++ codes "\n" ++ rule_line (has_limit rule limit) }
{
    let mut lines = Line::new();
    lines.text(first);
    add_rule(&mut lines, rule, &Path::root());
    lines.text(b"\n  rule ");
    lines.number(u32::from(rule));
    lines.text(b": more than ");
    lines.number(limit);
    lines.text(b" bytes\n");
    lines
}
