//! Reading the first line of a row.

ghost use Rattle.std.specs.Prelude.{◌≡◌, ◌≤◌, ◌<◌, IfOk};
ghost use Rattle.trace_text.specs.RowReading.{are_values, env_names, is_env_form, is_moving_form, is_stable_form, moving_row, row_end, row_of_words, row_read, stable_row, world_at};
ghost use Rattle.scram_types.specs.declared.limits.TheConstants.{MAX_FRAMES};

use crate::lookups::find_conf_or_none;
use crate::name_lists::{are_procs, find_values, has_names, read_up};
use crate::numbers::{read_number, read_signed};
use crate::pieces::is_dash;
use crate::rule;
use crate::words::Words;
use scram_types::limits::MAX_FRAMES;
use scram_types::{Act, Env, Factor, KMode, Row, Spec, World};

/// Reads a line as the first line of row `next`. Returns the row without its applications, or the first rule that the
/// line breaks.
pub fn read_row(spec: &Spec, next: usize, line: &[u8]) -> Result<Row, u8>
    ensures row { result ≡ row_read spec.now next line.now }
    ensures below { IfOk result (λ row. next < MAX_FRAMES) }
{
    match Words::of(line) {
        Some(words) => read_row_words(spec, next, &words),
        None => Err(rule::NO_FORM),
    }
}

fn read_row_words(spec: &Spec, next: usize, words: &Words<'_>) -> Result<Row, u8>
    ensures row { result ≡ row_of_words spec.now next words.now }
    ensures below { IfOk result (λ row. next < MAX_FRAMES) }
{
    if is_stable(spec, words) {
        read_stable(spec, next, words)
    } else if is_moving(spec, words) {
        read_moving(spec, next, words)
    } else {
        Err(rule::NO_FORM)
    }
}

fn is_stable(spec: &Spec, words: &Words<'_>) -> bool
    ensures { result ≡ is_stable_form spec.now words.now }
{
    words.len() == 13 && words.is(2, b"stable") && is_environment(spec, words, 4)
}

fn is_moving(spec: &Spec, words: &Words<'_>) -> bool
    ensures { result ≡ is_moving_form spec.now words.now }
{
    words.len() == 16 && words.is(2, b"moving") && is_environment(spec, words, 7)
}

fn is_environment(spec: &Spec, words: &Words<'_>, at: usize) -> bool
    requires { at ≤ 7 }
    ensures { result ≡ is_env_form spec.now words.now at }
{
    words.is(at, b"env")
        && has_values(spec.factors.items(), words.word_at(at + 1))
        && words.is(at + 2, b"up")
        && words.is(at + 4, b"world")
}

fn has_values(factors: &[Factor], list: &[u8]) -> bool
    ensures { result ≡ are_values factors.now list.now }
{
    if factors.is_empty() {
        is_dash(list)
    } else {
        has_names(list, factors.len())
    }
}

fn read_stable(spec: &Spec, next: usize, words: &Words<'_>) -> Result<Row, u8>
    ensures row { result ≡ stable_row spec.now next words.now }
    ensures below { IfOk result (λ row. next < MAX_FRAMES) }
{
    let Some(conf) = spec.conf_named(words.word_at(3)) else {
        return Err(rule::UNKNOWN_NAME);
    };
    let Some(values) = find_environment(spec, words, 4) else {
        return Err(rule::UNKNOWN_NAME);
    };
    let begun = Begun {
        mode: KMode::Stable(conf),
        values,
    };
    read_row_end(spec, next, words, 4, begun)
}

fn read_moving(spec: &Spec, next: usize, words: &Words<'_>) -> Result<Row, u8>
    ensures row { result ≡ moving_row spec.now next words.now }
    ensures below { IfOk result (λ row. next < MAX_FRAMES) }
{
    let Some(from) = spec.conf_named(words.word_at(3)) else {
        return Err(rule::UNKNOWN_NAME);
    };
    let Some(halting) = find_conf_or_none(spec, words.word_at(4)) else {
        return Err(rule::UNKNOWN_NAME);
    };
    let Some(to) = spec.conf_named(words.word_at(5)) else {
        return Err(rule::UNKNOWN_NAME);
    };
    let Some(values) = find_environment(spec, words, 7) else {
        return Err(rule::UNKNOWN_NAME);
    };
    let Some(since) = read_number(words.word_at(6), u64::from(MAX_FRAMES)) else {
        return Err(rule::WRONG_NUMBER);
    };
    let since = since as u32;
    let mode = KMode::Moving {
        from,
        halting,
        to,
        since,
    };
    read_row_end(spec, next, words, 7, Begun { mode, values })
}

// Returns the factor values of the environment whose words begin at index `at`, or `None` if the name of a value or
// of a processor is unknown.
fn find_environment(spec: &Spec, words: &Words<'_>, at: usize) -> Option<[u8; 6]>
    requires { at ≤ 7 }
    ensures { result ≡ env_names spec.now words.now at }
{
    if !are_procs(spec, words.word_at(at + 3)) {
        return None;
    }
    find_values(spec, words.word_at(at + 1))
}

/// The mode and the values of the factors that the first words of a row's line name.
#[derive(Clone, Copy)]
struct Begun {
    mode: KMode,
    values: [u8; 6],
}

fn read_row_end(
    spec: &Spec,
    next: usize,
    words: &Words<'_>,
    at: usize,
    begun: Begun,
) -> Result<Row, u8>
    requires { at ≤ 7 }
    ensures row { result ≡ row_end spec.now next words.now at begun.mode begun.values }
    ensures below { IfOk result (λ row. next < MAX_FRAMES) }
{
    let Some(frame) = read_number(words.word_at(1), u64::from(MAX_FRAMES)) else {
        return Err(rule::WRONG_NUMBER);
    };
    let Some(world) = read_world(words, at + 5) else {
        return Err(rule::WRONG_NUMBER);
    };
    if frame != next as u64 {
        return Err(rule::NOT_NEXT);
    }
    let Some(up) = read_up(spec.procs.items(), words.word_at(at + 3)) else {
        return Err(rule::OUT_OF_ORDER);
    };
    let Begun { mode, values } = begun;
    let env = Env {
        up,
        factors: values,
    };
    let acts = [Act::Off; 8];
    let areas = [[0; 8]; 8];
    Ok(Row {
        frame: frame as u32,
        env,
        mode,
        acts,
        areas,
        world,
    })
}

fn read_world(words: &Words<'_>, at: usize) -> Option<World>
    requires { at ≤ 12 }
    ensures { result ≡ world_at words.now at }
{
    let alt = read_signed(words.word_at(at))?;
    let climb = read_signed(words.word_at(at + 1))?;
    let heading = read_signed(words.word_at(at + 2))?;
    let bank = read_signed(words.word_at(at + 3))?;
    Some(World {
        alt,
        climb,
        heading,
        bank,
    })
}
