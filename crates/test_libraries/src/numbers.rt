//! Tests of encoding numbers as words of storage and of decoding the words.

use bank_words::{decode, encode};

#[test]
fn numbers_are_words_and_back(rt: HostRuntime) {
    for (number, word) in [
        (0, 0),
        (1, 1),
        (i64::MAX, 9_223_372_036_854_775_807),
        (i64::MIN, 9_223_372_036_854_775_808),
        (-2, 18_446_744_073_709_551_614),
        (-1, u64::MAX),
    ] {
        assert_eq!(rt; encode(number), word);
        assert_eq!(rt; decode(word), number);
    }
}
