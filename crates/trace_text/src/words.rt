//! The words of a line.

ghost use Rattle.std.specs.Prelude.{◌≡◌, [], length, map, option_map, slice_index_or};
ghost use Rattle.trace_text.specs.Pieces.{words_of, words_in, is_word, word_at};

use crate::pieces::first_piece;
use arrayvec::ArrayVec;

/// The words of a line: at most 16, none of them empty.
#[derive(Drop)]
pub struct Words<'a> {
    words: ArrayVec<&'a [u8], 16>,
}

impl<'a> std::marker::Model for Words<'a> {
    ghost use Rattle.std.specs.Prelude.{List, ℕ, map};

    ghost Value = { List (List ℕ) };

    ghost view = { λ a. map (λ w. w.now) a.words.items };
}

/// Returns the first word of a line, or the empty word if the line is empty or begins with a space.
pub fn first_word(line: &[u8]) -> &[u8]
    ensures { result.now ≡ slice_index_or (words_of line.now) 0 [] }
{
    first_piece(line, b' ').0
}

impl<'a> Words<'a> {
    /// Returns the words of a line, or `None` if a word is empty or there are more than 16 words.
    pub fn of(line: &'a [u8]) -> Option<Words<'a>>
        ensures { result ≡ words_in line.now }
    {
        match split_words(line) {
            Some(words) => Some(Words { words }),
            None => None,
        }
    }

    /// Returns the number of words.
    pub fn len(&self) -> usize
        ensures { result ≡ length self.now }
    {
        self.words.as_slice().len()
    }

    /// Returns the word at an index, or an empty slice if there is none.
    pub fn word_at(&self, at: usize) -> &[u8]
        ensures { result.now ≡ word_at self.now at }
    {
        match self.words.as_slice().get(at) {
            Some(word) => word,
            None => &[],
        }
    }

    /// Returns `true` if the word at an index is `text`.
    pub fn is(&self, at: usize, text: &[u8]) -> bool
        ensures { result ≡ is_word self.now at text.now }
    {
        self.word_at(at) == text
    }
}

fn split_words<'a>(line: &'a [u8]) -> Option<ArrayVec<&'a [u8], 16>>
    ensures { option_map (λ ws. map (λ w. w.now) ws.items) result ≡ words_in line.now }
{
    let mut words = ArrayVec::new();
    let mut left = Some(line);
    while let Some(rest) = left {
        let (word, behind) = first_piece(rest, b' ');
        if word.is_empty() {
            return None;
        }
        if words.try_push(word).is_err() {
            return None;
        }
        left = behind;
    }
    Some(words)
}
