//! The words that describe a state of the environment by its difference from the opening environment of a flight.

ghost use Rattle.std.specs.Prelude.{◌≡◌, map, string_bytes};
ghost use Rattle.spec_forms.specs.choice_forms.States.{state_in, state_word, value_word};

use arrayvec::ArrayVec;
use scram_types::Name;

/// The maximum number of words of a state.
pub const MAX_STATE_WORDS: usize = 14;

/// A word of a state.
#[derive(Drop)]
pub enum StateWord {
    /// `FACTOR=VALUE`: the factor has this value.
    Value { factor: Name, value: Name },
    /// `-PROC`: the processor is down.
    Down { proc: Name },
}

impl Default for StateWord {
    /// Returns the word that fills the unused entries of a list of fixed length.
    fn default() -> StateWord {
        StateWord::Down {
            proc: Name::default(),
        }
    }
}

/// A state, which is a list of at most [`MAX_STATE_WORDS`] words.
#[derive(Drop)]
pub struct State {
    words: ArrayVec<StateWord, MAX_STATE_WORDS>,
}

impl std::marker::Model for State {
    ghost use Rattle.std.specs.Prelude.{List};
    ghost use Rattle.spec_forms.specs.declared.choice_forms.states.StateWord.{StateWord};

    ghost Value = { List StateWord };

    ghost view = { λ s. s.words.items };
}

impl State {
    /// Returns the words of the state.
    pub fn words(&self) -> &[StateWord]
        ensures { result.now ≡ self.now }
    {
        self.words.as_slice()
    }
}

/// Parses the words of a state. Returns `None` if there are more than [`MAX_STATE_WORDS`] words, or if a word is
/// neither `NAME=NAME` nor `-NAME`.
pub fn read_state(words: &[String]) -> Option<State>
    ensures { result ≡ state_in (map string_bytes words.now) }
{
    if words.len() > MAX_STATE_WORDS {
        return None;
    }
    let mut state = ArrayVec::new();
    for word in words {
        match read_state_word(word.as_str()) {
            Some(read) => state.push(read),
            None => return None,
        }
    }
    Some(State { words: state })
}

fn read_state_word(word: &str) -> Option<StateWord>
    ensures { result ≡ state_word word.now }
{
    match word.strip_prefix('-') {
        Some(name) => {
            let proc = Name::of(name)?;
            Some(StateWord::Down { proc })
        }
        None => read_value_word(word),
    }
}

fn read_value_word(word: &str) -> Option<StateWord>
    ensures { result ≡ value_word word.now }
{
    let (factor, value) = word.split_once('=')?;
    let factor = Name::of(factor)?;
    let value = Name::of(value)?;
    Some(StateWord::Value { factor, value })
}
