//! The fields of the line of a row, made without allocating.

ghost use Rattle.std.specs.Prelude.{◌≡◌, ◌<◌, ◌≤◌, ◌+◌, ◌*◌, ◌++◌, IfSome, length, option_map};
ghost use Rattle.scram_types.specs.declared.limits.TheConstants.{MAX_LINE_BYTES};
ghost use Rattle.kind_table.specs.Names.{name_in, variable_names};
ghost use Rattle.form_base.specs.Texts.{texts_below};
ghost use Rattle.trace_forms.specs.columns_form.Fields.{act_fields, app_fields, conf_field, mode_fields, proc_field, row_fields, up_fields, value_fields, word_field, world_fields};

use flight_facts::acts::{act_word, mode_of_act, proc_of_act};
use kind_table::variable_name;
use scram_types::{Act, AppSpec, Area, ConfId, KMode, KindId, ProcId, Row, Spec, World};
use trace_text::lines::Line;
use trace_text::row_lines::name_of_mode;

/// Returns the fields of a row that belong to no application: frame, mode, environment and world.
pub fn make_row_fields(spec: &Spec, row: &Row) -> Line
    ensures { result ≡ row_fields spec.now row.now }
{
    let mut line = Line::new();
    line.number(row.frame);
    add_mode_fields(&mut line, spec, &row.mode);
    add_value_fields(&mut line, spec, &row.env.factors);
    add_up_fields(&mut line, spec, row.env.up);
    add_world_fields(&mut line, &row.world);
    line
}

fn add_mode_fields(line: &mut Line, spec: &Spec, mode: &KMode)
    requires { length line.old + 64 ≤ MAX_LINE_BYTES }
    ensures text { line.new ≡ line.old ++ mode_fields spec.now mode.now }
    ensures short { length line.new ≤ length line.old + 64 }
{
    match mode {
        KMode::Stable(conf) => {
            line.text(b",0,");
            line.text(spec.conf_name(*conf).as_bytes());
            line.text(b",,,");
        }
        KMode::Moving {
            from,
            halting,
            to,
            since,
        } => {
            line.text(b",1,");
            line.text(spec.conf_name(*from).as_bytes());
            line.text(b",");
            add_conf_field(line, spec, *halting);
            line.text(b",");
            line.text(spec.conf_name(*to).as_bytes());
            line.text(b",");
            line.number(*since);
        }
    }
}

fn add_conf_field(line: &mut Line, spec: &Spec, conf: Option<ConfId>)
    requires { length line.old + 16 ≤ MAX_LINE_BYTES }
    ensures text { line.new ≡ line.old ++ conf_field spec.now conf }
    ensures short { length line.new ≤ length line.old + 16 }
{
    if let Some(conf) = conf {
        line.text(spec.conf_name(conf).as_bytes());
    }
}

fn add_value_fields(line: &mut Line, spec: &Spec, values: &[u8; 6])
    requires { length line.old + 102 ≤ MAX_LINE_BYTES }
    ensures text { line.new ≡ line.old ++ value_fields spec.now.factors 0 values.now }
    ensures short { length line.new ≤ length line.old + 102 }
{
    for (i, factor) in spec.factors.items().iter().enumerate() {
        line.text(b",");
        line.text(factor.value_name(values[i]).as_bytes());
    }
}

fn add_up_fields(line: &mut Line, spec: &Spec, up: u8)
    requires { length line.old + 16 ≤ MAX_LINE_BYTES }
    ensures text { line.new ≡ line.old ++ up_fields spec.now.procs up }
    ensures short { length line.new ≤ length line.old + 16 }
{
    let mut left = up;
    for _proc in spec.procs.items() {
        line.text(if left % 2 == 1 { b",1" } else { b",0" });
        left /= 2;
    }
}

fn add_world_fields(line: &mut Line, world: &World)
    requires { length line.old + 84 ≤ MAX_LINE_BYTES }
    ensures text { line.new ≡ line.old ++ world_fields world.now }
    ensures short { length line.new ≤ length line.old + 84 }
{
    line.text(b",");
    line.signed(&world.alt);
    line.text(b",");
    line.signed(&world.climb);
    line.text(b",");
    line.signed(&world.heading);
    line.text(b",");
    line.signed(&world.bank);
}

/// Returns the fields of application `a` in a row: the fields of its act, and the words of its area that the
/// application's kind uses.
pub fn make_app_fields(spec: &Spec, row: &Row, a: usize, app: &AppSpec) -> Line
    requires { a < 8 }
    ensures { result ≡ app_fields spec.now row.now a app.now }
{
    let mut line = Line::new();
    add_act_fields(&mut line, spec, app.kind, &row.acts[a]);
    add_word_fields(&mut line, app.kind, &row.areas[a]);
    line
}

fn add_act_fields(line: &mut Line, spec: &Spec, kind: KindId, act: &Act)
    requires { length line.old + 47 ≤ MAX_LINE_BYTES }
    ensures text { line.new ≡ line.old ++ act_fields spec.now kind.0 act.now }
    ensures short { length line.new ≤ length line.old + 47 }
{
    line.text(b",");
    line.text(act_word(act).text().as_bytes());
    line.text(b",");
    line.text(name_of_mode(kind, mode_of_act(act)).as_bytes());
    line.text(b",");
    add_proc_field(line, spec, proc_of_act(act));
}

fn add_proc_field(line: &mut Line, spec: &Spec, proc: Option<ProcId>)
    requires { length line.old + 16 ≤ MAX_LINE_BYTES }
    ensures text { line.new ≡ line.old ++ proc_field spec.now proc }
    ensures short { length line.new ≤ length line.old + 16 }
{
    if let Some(proc) = proc {
        line.text(spec.proc_name(proc).as_bytes());
    }
}

fn add_word_fields(line: &mut Line, kind: KindId, area: &Area)
    requires { length line.old + 168 ≤ MAX_LINE_BYTES }
    ensures { line.new ≡ line.old ++ texts_below (word_field kind.0 area.now) 8 }
{
    for i in 0..8 {
        add_word_field(line, kind, area, i);
    }
}

fn add_word_field(line: &mut Line, kind: KindId, area: &Area, i: u8)
    requires room { length line.old + 21 ≤ MAX_LINE_BYTES }
    requires word { i < 8 }
    ensures text { line.new ≡ line.old ++ word_field kind.0 area.now i }
    ensures short { length line.new ≤ length line.old + 21 }
{
    if let Some(_) = name_of_variable(kind, i) {
        line.text(b",");
        line.signed(&area[usize::from(i)]);
    }
}

/// Returns the name of word `i` of a kind's area, which has at most 16 bytes. Returns `None` if there is no such kind
/// or the kind does not use this word.
#[tactic(auto, using(kind_table::proofs::ShortNames::variable_short))]
pub fn name_of_variable(kind: KindId, i: u8) -> Option<&'static str>
    ensures name { option_map (λ s. s.now) result ≡ name_in (variable_names kind.0) i }
    ensures short { IfSome result (λ name. length name.now ≤ 16) }
{
    variable_name(kind, i)
}
