//! The form `choose`, which shows the choice from a configuration in a state of the environment.

ghost use Rattle.std.specs.Prelude.{◌≡◌, ◌<◌, ◌≤◌, ◌∷◌, ◌++◌, [], IfErr, IfOk, IfSome, Ok, Err};
ghost use Rattle.scram_types.specs.Lookups.{opening_env};
ghost use Rattle.choice_table.specs.Environments.{IsEnv};
ghost use Rattle.scram_io.specs.Outside.{Prints};
ghost use Rattle.form_base.specs.Answers.{Gives};
ghost use Rattle.form_base.specs.Endings.{Ends, IsTaken, Prepares, PreparesWithoutFiles};
ghost use Rattle.form_base.specs.Refusals.{answer_of};
ghost use Rattle.spec_forms.specs.choice_forms.Answers.{ChooseAnswers};
ghost use Rattle.spec_forms.specs.choice_forms.Choosing.{IsUnknown, choose_answer, chosen_line, env_after, env_after_all, others_up, taken_down, valued, with_value};
ghost use Rattle.spec_forms.specs.choice_forms.Chosen.{GivesChosen};
ghost use Rattle.spec_forms.specs.choice_forms.States.{state_word_text};

use crate::choice_forms::lines::{make_chosen_line, make_needs_line};
use crate::choice_forms::states::StateWord;
use cube_cover::first_rule;
use fault_script::find_value;
use form_base::loads::load;
use form_base::printing::{print_refusal, status_after};
use form_base::refusals::{Refusal, RefusalLine, Refused};
use form_base::specifications::Specification;
use form_base::status::{ANSWERED, Status};
use scram_io::{Files, Sink, SinkFault};
use scram_types::bits::has_bit;
use scram_types::{ConfId, Env, Name, Spec};
use std::alloc::Global;
use trace_text::lines::Line;

/// A question for `choose`: the name of a specification's file, the name of a configuration, and the words of a state.
#[derive(Clone, Copy)]
pub struct Question<'a> {
    pub specification: &'a str,
    pub conf: &'a str,
    pub state: &'a [StateWord],
}

/// The line of a choice, in two pieces. The second piece has the processors that the target needs but that are down.
#[derive(Drop)]
struct Chosen {
    choice: Line,
    needs: Line,
}

/// Prints the choice from a configuration in a state, by the specification in a file. The line has the rule, its
/// target, and the processors that the target needs but that are down. If the specification does not have the name of
/// the configuration or a name in a word of the state, prints the refusal of the first such word instead.
pub fn choose<F: Files, K: Sink>(
    alloc: Global,
    question: Question<'_>,
    files: &mut F,
    out: &mut K,
) -> Status
    ensures { Ends (ChooseAnswers question.entry.specification.now question.entry.conf.now question.entry.state.now)
        (question.entry.specification.now ∷ []) (F.state files.old) (F.state files.new) (IsTaken (K.state out.old) (K.state out.new) result.code) }
{
    match read_chosen(alloc, question, files) {
        Ok(chosen) => status_after(put_chosen(out, &chosen), ANSWERED),
        Err(refusal) => print_refusal(out, &refusal),
    }
}

fn put_chosen<K: Sink>(out: &mut K, chosen: &Chosen) -> Result<(), SinkFault>
    ensures { Prints result (K.state out.old) (K.state out.new) (chosen.now.choice ++ chosen.now.needs) }
{
    match out.put(chosen.choice.as_bytes()) {
        Ok(()) => out.put(chosen.needs.as_bytes()),
        Err(fault) => Err(fault),
    }
}

/// Reads the specification and returns the line of the choice, or the refusal.
fn read_chosen<F: Files>(
    alloc: Global,
    question: Question<'_>,
    files: &mut F,
) -> Result<Chosen, Refusal>
    ensures { Prepares (ChooseAnswers question.entry.specification.now question.entry.conf.now question.entry.state.now) GivesChosen
        (question.entry.specification.now ∷ []) (F.state files.old) (F.state files.new) result }
{
    match load(alloc, &Specification, question.specification, files) {
        Ok(spec) => chosen_of(alloc, spec, question.conf, question.state),
        Err(refusal) => Err(refusal),
    }
}

fn chosen_of(alloc: Global, spec: Spec, conf: &str, state: &[StateWord]) -> Result<Chosen, Refusal>
    ensures { PreparesWithoutFiles (Gives (choose_answer spec conf.now state.now)) GivesChosen result }
{
    let chosen = find_chosen(alloc, &spec, conf, state);
    drop(spec);
    chosen
}

fn find_chosen(
    alloc: Global,
    spec: &Spec,
    conf: &str,
    state: &[StateWord],
) -> Result<Chosen, Refusal>
    ensures { PreparesWithoutFiles (Gives (choose_answer spec.now conf.now state.now)) GivesChosen result }
{
    match spec.conf_named(conf.as_bytes()) {
        Some(c) => match env_after_all(spec, state) {
            Ok(env) => Ok(make_chosen(spec, c, &env)),
            Err(word) => Err(no_word(alloc, word)),
        },
        None => Err(no_name(alloc, conf)),
    }
}

fn make_chosen(spec: &Spec, c: ConfId, env: &Env) -> Chosen
    requires { IsEnv spec.now env.now }
    ensures { result.choice ++ result.needs ≡ chosen_line spec.now c env.now }
{
    let k = first_rule(spec, c, env);
    Chosen {
        choice: make_chosen_line(spec, c, env, k),
        needs: make_needs_line(spec, env, k),
    }
}

// Returns the opening environment of a flight after each word of a state has changed it. The error is the first word
// with a name that the specification does not have.
fn env_after_all<'a>(spec: &Spec, state: &'a [StateWord]) -> Result<Env, &'a StateWord>
    ensures env { IfOk result (λ v. env_after_all spec.now (opening_env spec.now) state.now ≡ Ok v) }
    ensures belongs { IfOk result (λ v. IsEnv spec.now v) }
    ensures word { IfErr result (λ word. env_after_all spec.now (opening_env spec.now) state.now ≡ Err word.now) }
{
    // From the use of a field, the prover knows that the specification satisfies its invariant.
    let _ = &spec.procs;
    let mut env = spec.opening_env();
    for word in state {
        match env_after(spec, &env, word) {
            Some(next) => env = next,
            None => return Err(word),
        }
    }
    Ok(env)
}

fn env_after(spec: &Spec, env: &Env, word: &StateWord) -> Option<Env>
    requires { IsEnv spec.now env.now }
    ensures env { result ≡ env_after spec.now env.now word.now }
    ensures belongs { IfSome result (λ v. IsEnv spec.now v) }
{
    match word {
        StateWord::Value { factor, value } => valued(spec, env, factor, value),
        StateWord::Down { proc } => taken_down(spec, env, proc),
    }
}

// Returns the environment in which the named factor has the named value, or `None` if the specification has no such
// factor or value.
fn valued(spec: &Spec, env: &Env, factor: &Name, value: &Name) -> Option<Env>
    requires { IsEnv spec.now env.now }
    ensures env { result ≡ valued spec.now env.now factor.now value.now }
    ensures belongs { IfSome result (λ v. IsEnv spec.now v) }
{
    // From the use of a field, the prover knows that the specification satisfies its invariant.
    let _ = &spec.factors;
    let x = spec.factor_named(factor.as_str().as_bytes())?;
    let number = find_value(spec, x, value.as_str().as_bytes())?;
    Some(with_value(env, x.0, number))
}

// Returns the environment with `value` as the value of factor `x`.
fn with_value(env: &Env, x: u8, value: u8) -> Env
    requires { x < 6 }
    ensures { result ≡ with_value env.now x value }
{
    let mut factors = env.factors;
    factors[usize::from(x)] = value;
    Env {
        up: env.up,
        factors,
    }
}

// Returns the environment with the named processor down, or `None` if the specification has no such processor.
fn taken_down(spec: &Spec, env: &Env, proc: &Name) -> Option<Env>
    requires { IsEnv spec.now env.now }
    ensures env { result ≡ taken_down spec.now env.now proc.now }
    ensures belongs { IfSome result (λ v. IsEnv spec.now v) }
{
    // From the use of a field, the prover knows that the specification satisfies its invariant.
    let _ = &spec.procs;
    let p = spec.proc_named(proc.as_str().as_bytes())?;
    Some(Env {
        up: others_up(env.up, p.0),
        factors: env.factors,
    })
}

// Returns the set `up` without processor `p`.
fn others_up(up: u8, p: u8) -> u8
    requires { p < 8 }
    ensures value { result ≡ others_up up p }
    ensures fewer { result ≤ up }
{
    if has_bit(up, p) { up - (1 << p) } else { up }
}

// Returns the refusal of a word of a state with a name that the specification does not have. If there is no memory
// for the line of the refusal, returns the out-of-memory refusal.
fn no_word(alloc: Global, word: &StateWord) -> Refusal
    ensures { IsUnknown (state_word_text word.now) (answer_of result) }
{
    match word {
        StateWord::Value { factor, value } => match format!(in alloc; "{factor}={value}") {
            Ok(text) => no_name(alloc, text.as_str()),
            Err(_) => Refusal::out_of_memory(),
        },
        StateWord::Down { proc } => match format!(in alloc; "-{proc}") {
            Ok(text) => no_name(alloc, text.as_str()),
            Err(_) => Refusal::out_of_memory(),
        },
    }
}

// Returns the refusal of a name that the specification does not have. If there is no memory for the line of the
// refusal, returns the out-of-memory refusal.
fn no_name(alloc: Global, word: &str) -> Refusal
    ensures { IsUnknown word.now (answer_of result) }
{
    match format!(in alloc; "refused: no such name {word}\n") {
        Ok(line) => Refusal {
            refused: Refused::Name,
            line: RefusalLine::Naming(line),
        },
        Err(_) => Refusal::out_of_memory(),
    }
}
