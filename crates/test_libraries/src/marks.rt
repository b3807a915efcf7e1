//! Tests of marks, and of the bank that a reader picks by a mark.

use bank_words::{mark_word, pick};

#[test]
fn marks_tell_the_last_committed_frame_and_its_bank(rt: HostRuntime) {
    assert_eq!(rt; mark_word(0, 0), 0);
    assert_eq!(rt; mark_word(11, 1), 23);
    assert_eq!(rt; mark_word(20_000, 1), 40_001);
    assert_eq!(rt; mark_word(u32::MAX, 1), 8_589_934_591);
}

// The mark 23 is the mark of frame 10 in bank 1. Readers in frame 10 still take bank 0.
#[test]
fn readers_take_what_was_committed_before_their_frame(rt: HostRuntime) {
    for (mark, frame, bank) in [
        (0, 0, 0),
        (3, 0, 0),
        (3, 1, 1),
        (2, 0, 1),
        (23, 9, 0),
        (23, 10, 0),
        (23, 11, 1),
        (23, 12, 1),
        (22, 10, 1),
        (22, 11, 0),
        (u64::MAX, u32::MAX, 0),
    ] {
        assert_eq!(rt; pick(mark, frame), bank, "of mark {mark} in frame {frame}");
    }
}
