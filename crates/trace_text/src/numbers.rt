//! Numbers as a trace spells them.

ghost use Rattle.std.specs.Prelude.{◌≡◌, ◌<◌, ◌≤◌, ◌+◌, IfSome, option_map};
ghost use Rattle.trace_text.specs.Spelling.{signed_of, signed_from, spelled_number};

use crate::words::Words;
use arrayvec::ArrayVec;
use itoa::Buffer;

/// Returns the number below `limit` that a text spells, or `None` if it spells no such number.
pub fn read_number(text: &[u8], limit: u64) -> Option<u64>
    ensures value { result ≡ spelled_number limit text.now }
    ensures below { IfSome result (λ n. n < limit) }
{
    let Ok(digits) = std::str::from_utf8(text) else {
        return None;
    };
    let Ok(number) = digits.parse::<u64>() else {
        return None;
    };
    if number >= limit {
        return None;
    }
    let mut buffer = Buffer::new();
    if buffer.format(number).as_bytes() != text {
        return None;
    }
    Some(number)
}

/// Returns the signed number of 64 bits that a text spells, or `None` if it spells no such number.
pub fn read_signed(text: &[u8]) -> Option<i64>
    ensures { result ≡ signed_of text.now }
{
    let Ok(digits) = std::str::from_utf8(text) else {
        return None;
    };
    let Ok(number) = digits.parse::<i64>() else {
        return None;
    };
    let mut printed = Buffer::new();
    if printed.format(number).as_bytes() != text {
        return None;
    }
    Some(number)
}

/// Returns the signed numbers that the eight words from index `from` on spell, or `None` if a word spells no number.
pub fn read_eight(words: &Words<'_>, from: usize) -> Option<ArrayVec<i64, 8>>
    requires { from ≤ 6 }
    ensures { option_map (λ v. v.items) result ≡ signed_from 8 from words.now }
{
    let mut values = ArrayVec::new();
    let mut k: usize = 0;
    while k < 8 {
        let value = read_signed(words.word_at(from + k))?;
        let _fits = values.try_push(value);
        k += 1;
    }
    Some(values)
}
