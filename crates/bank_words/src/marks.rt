//! Marks. A mark encodes a count and a bank. The count is the number of frames up to and including the last frame
//! that the processor committed, or 0 if it has committed none. The bank holds the processor's image.

ghost use Rattle.std.specs.Prelude.{◌≡◌, ◌≤◌, ◌/◌, ◌%◌};
ghost use Rattle.bank_words.specs.Marks.{mark_word, pick};

/// Returns the mark of a processor, given the number `count` of frames up to and including its last committed frame,
/// and the bank that holds the processor's image, 0 or 1. The mark is twice the count plus the bank.
pub fn mark_word(count: u32, bank: u8) -> u64
    requires { bank ≤ 1 }
    ensures mark { result ≡ mark_word count bank }
    ensures count { result / 2 ≡ count }
    ensures bank { result % 2 ≡ bank }
{
    2 * u64::from(count) + u64::from(bank)
}

/// Returns the bank, 0 or 1, that a reader in frame `frame` takes. It is the marked bank if the count of the mark is
/// at most `frame`, or else the other bank.
pub fn pick(mark: u64, frame: u32) -> u8
    ensures bank { result ≡ pick mark frame }
    ensures side { result ≤ 1 }
{
    let bank = (mark % 2) as u8;
    if mark / 2 <= u64::from(frame) {
        bank
    } else {
        1 - bank
    }
}
