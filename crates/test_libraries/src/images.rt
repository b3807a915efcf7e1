//! Tests of encoding the kernel image of a frame as words and of decoding the words.

use bank_words::{KernelImage, kernel_decode, kernel_encode};
use scram_types::{ConfId, Env, KMode, ProcId, World};

fn image(mode: KMode, keepers: [Option<ProcId>; 8]) -> KernelImage {
    KernelImage {
        frame: 16,
        mode,
        env: Env {
            up: 3,
            factors: [1, 0, 2, 3, 0, 255],
        },
        keepers,
        world: World {
            alt: 5_000,
            climb: -1,
            heading: i64::MAX,
            bank: i64::MIN,
        },
    }
}

#[test]
fn a_reconfiguration_is_words_and_back(rt: HostRuntime) {
    let mode = KMode::Moving {
        from: ConfId(0),
        halting: Some(ConfId(1)),
        to: ConfId(255),
        since: 15,
    };
    let keepers = [
        Some(ProcId(0)),
        None,
        Some(ProcId(7)),
        None,
        None,
        None,
        None,
        Some(ProcId(255)),
    ];
    let words = [
        16,
        1,
        0,
        2,
        255,
        15,
        3,
        280_375_515_545_601,
        1,
        0,
        8,
        0,
        0,
        0,
        0,
        256,
        5_000,
        u64::MAX,
        9_223_372_036_854_775_807,
        9_223_372_036_854_775_808,
    ];
    assert_eq!(rt; kernel_encode(&image(mode, keepers)), words);
    assert_eq!(rt; kernel_decode(&words), image(mode, keepers));
}

#[test]
fn a_stable_mode_leaves_three_words_empty(rt: HostRuntime) {
    let mode = KMode::Stable(ConfId(11));
    let words = kernel_encode(&image(mode, [None; 8]));
    assert_eq!(rt;
        [words[1], words[2], words[3], words[4], words[5]],
        [0, 11, 0, 0, 0]
    );
    assert_eq!(rt; kernel_decode(&words), image(mode, [None; 8]));
}

// The image has no halting configuration, and its numbers are the greatest that fit.
#[test]
fn the_greatest_numbers_come_back(rt: HostRuntime) {
    let mode = KMode::Moving {
        from: ConfId(255),
        halting: None,
        to: ConfId(255),
        since: u32::MAX,
    };
    let last = KernelImage {
        frame: u32::MAX,
        mode,
        env: Env {
            up: 255,
            factors: [255; 6],
        },
        keepers: [Some(ProcId(255)); 8],
        world: World {
            alt: -1,
            climb: -1,
            heading: -1,
            bank: -1,
        },
    };
    assert_eq!(rt; kernel_decode(&kernel_encode(&last)), last);
}
