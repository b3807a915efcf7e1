//! The names of columns, made without allocating.

ghost use Rattle.std.specs.Prelude.{◌≡◌, ◌≤◌, ◌+◌, ◌++◌, length};
ghost use Rattle.scram_types.specs.declared.limits.TheConstants.{MAX_LINE_BYTES};
ghost use Rattle.form_base.specs.Texts.{texts_below};
ghost use Rattle.trace_forms.specs.columns_form.Heads.{app_head, factor_heads, proc_heads, row_head, word_head};

use crate::columns_form::fields::name_of_variable;
use scram_types::{AppSpec, Spec};
use trace_text::lines::Line;

/// Returns the names of the columns that belong to no application: frame, mode, environment and world.
pub fn make_row_head(spec: &Spec) -> Line
    ensures { result ≡ row_head spec.now }
{
    let mut line = Line::new();
    line.text(b"frame,moving,from,halting,to,since");
    add_factor_heads(&mut line, spec);
    add_proc_heads(&mut line, spec);
    line.text(b",altitude,climb,heading,bank");
    line
}

fn add_factor_heads(line: &mut Line, spec: &Spec)
    requires { length line.old + 126 ≤ MAX_LINE_BYTES }
    ensures text { line.new ≡ line.old ++ factor_heads spec.now.factors }
    ensures short { length line.new ≤ length line.old + 126 }
{
    for factor in spec.factors.items() {
        line.text(b",env.");
        line.text(factor.name.as_str().as_bytes());
    }
}

fn add_proc_heads(line: &mut Line, spec: &Spec)
    requires { length line.old + 160 ≤ MAX_LINE_BYTES }
    ensures text { line.new ≡ line.old ++ proc_heads spec.now.procs }
    ensures short { length line.new ≤ length line.old + 160 }
{
    for proc in spec.procs.items() {
        line.text(b",up.");
        line.text(proc.name.as_str().as_bytes());
    }
}

/// Returns the names of the columns of an application.
pub fn make_app_head(app: &AppSpec) -> Line
    ensures { result ≡ app_head app.now }
{
    let mut line = Line::new();
    line.text(b",");
    line.text(app.name.as_str().as_bytes());
    line.text(b".act,");
    line.text(app.name.as_str().as_bytes());
    line.text(b".mode,");
    line.text(app.name.as_str().as_bytes());
    line.text(b".proc");
    add_word_heads(&mut line, app);
    line
}

fn add_word_heads(line: &mut Line, app: &AppSpec)
    requires { length line.old + 272 ≤ MAX_LINE_BYTES }
    ensures { line.new ≡ line.old ++ texts_below (word_head app.now) 8 }
{
    for i in 0..8 {
        add_word_head(line, app, i);
    }
}

fn add_word_head(line: &mut Line, app: &AppSpec, i: u8)
    requires { length line.old + 34 ≤ MAX_LINE_BYTES }
    ensures text { line.new ≡ line.old ++ word_head app.now i }
    ensures short { length line.new ≤ length line.old + 34 }
{
    if let Some(variable) = name_of_variable(app.kind, i) {
        line.text(b",");
        line.text(app.name.as_str().as_bytes());
        line.text(b".");
        line.text(variable.as_bytes());
    }
}
