//! The kernel's image of a frame, and the words of the image.

ghost use Rattle.std.specs.Prelude.{◌≡◌};
ghost use Rattle.bank_words.specs.Images.{conf_of, conf_word, factors_of, factors_word, keeper_of, keeper_word, keeper_words, keepers_of, kernel_decode, kernel_encode, last_byte, mode_in_words, mode_words};

use crate::numbers::{decode, encode};
use scram_types::{ConfId, Env, KMode, ProcId, World};

/// The kernel's image of a frame: the mode and the environment of the frame, and the keepers and the world at the
/// beginning of the frame. The keeper of an application is the processor that keeps its area.
#[derive(Clone, Copy, Debug, PartialEq, Eq)]
pub struct KernelImage {
    pub frame: u32,
    pub mode: KMode,
    pub env: Env,
    pub keepers: [Option<ProcId>; 8],
    pub world: World,
}

/// Returns the twenty words of a kernel image, in the order of docs/FORMATS.md.
pub fn kernel_encode(k: &KernelImage) -> [u64; 20]
    ensures words { result ≡ kernel_encode k.now }
    ensures back { kernel_decode result ≡ k.now }
{
    let mode = mode_words(k.mode);
    let keepers = keeper_words(&k.keepers);
    [
        u64::from(k.frame),
        mode[0],
        mode[1],
        mode[2],
        mode[3],
        mode[4],
        byte_word(k.env.up),
        factors_word(&k.env.factors),
        keepers[0],
        keepers[1],
        keepers[2],
        keepers[3],
        keepers[4],
        keepers[5],
        keepers[6],
        keepers[7],
        encode(k.world.alt),
        encode(k.world.climb),
        encode(k.world.heading),
        encode(k.world.bank),
    ]
}

/// Returns the kernel image that these twenty words encode.
pub fn kernel_decode(words: &[u64; 20]) -> KernelImage
    ensures { result ≡ kernel_decode words.now }
{
    KernelImage {
        frame: (words[0] % 4_294_967_296) as u32,
        mode: mode_in_words(&[words[1], words[2], words[3], words[4], words[5]]),
        env: Env {
            up: last_byte(words[6]),
            factors: factors_of(words[7]),
        },
        keepers: keepers_of(&[
            words[8], words[9], words[10], words[11], words[12], words[13], words[14], words[15],
        ]),
        world: World {
            alt: decode(words[16]),
            climb: decode(words[17]),
            heading: decode(words[18]),
            bank: decode(words[19]),
        },
    }
}

fn mode_words(mode: KMode) -> [u64; 5]
    ensures words { result ≡ mode_words mode }
    ensures back { mode_in_words result ≡ mode }
{
    match mode {
        KMode::Stable(c) => [0, u64::from(c.0), 0, 0, 0],
        KMode::Moving {
            from,
            halting,
            to,
            since,
        } => [
            1,
            u64::from(from.0),
            conf_word(halting),
            u64::from(to.0),
            u64::from(since),
        ],
    }
}

fn mode_in_words(words: &[u64; 5]) -> KMode
    ensures { result ≡ mode_in_words words.now }
{
    if words[0] == 0 {
        return KMode::Stable(ConfId(last_byte(words[1])));
    }
    KMode::Moving {
        from: ConfId(last_byte(words[1])),
        halting: conf_of(words[2]),
        to: ConfId(last_byte(words[3])),
        since: (words[4] % 4_294_967_296) as u32,
    }
}

fn conf_word(conf: Option<ConfId>) -> u64
    ensures word { result ≡ conf_word conf }
    ensures back { conf_of result ≡ conf }
{
    match conf {
        Some(conf) => u64::from(conf.0) + 1,
        None => 0,
    }
}

fn conf_of(word: u64) -> Option<ConfId>
    ensures { result ≡ conf_of word }
{
    if word == 0 {
        None
    } else {
        Some(ConfId(last_byte(word - 1)))
    }
}

fn keeper_word(keeper: Option<ProcId>) -> u64
    ensures word { result ≡ keeper_word keeper }
    ensures back { keeper_of result ≡ keeper }
{
    match keeper {
        Some(proc) => u64::from(proc.0) + 1,
        None => 0,
    }
}

fn keeper_words(keepers: &[Option<ProcId>; 8]) -> [u64; 8]
    ensures words { result ≡ keeper_words keepers.now }
    ensures back { keepers_of result ≡ keepers.now }
{
    [
        keeper_word(keepers[0]),
        keeper_word(keepers[1]),
        keeper_word(keepers[2]),
        keeper_word(keepers[3]),
        keeper_word(keepers[4]),
        keeper_word(keepers[5]),
        keeper_word(keepers[6]),
        keeper_word(keepers[7]),
    ]
}

fn keepers_of(words: &[u64; 8]) -> [Option<ProcId>; 8]
    ensures { result ≡ keepers_of words.now }
{
    [
        keeper_of(words[0]),
        keeper_of(words[1]),
        keeper_of(words[2]),
        keeper_of(words[3]),
        keeper_of(words[4]),
        keeper_of(words[5]),
        keeper_of(words[6]),
        keeper_of(words[7]),
    ]
}

fn keeper_of(word: u64) -> Option<ProcId>
    ensures { result ≡ keeper_of word }
{
    if word == 0 {
        None
    } else {
        Some(ProcId(last_byte(word - 1)))
    }
}

fn factors_word(values: &[u8; 6]) -> u64
    ensures word { result ≡ factors_word values.now }
    ensures back { factors_of result ≡ values.now }
{
    u64::from(values[0])
        + 256 * u64::from(values[1])
        + 65_536 * u64::from(values[2])
        + 16_777_216 * u64::from(values[3])
        + 4_294_967_296 * u64::from(values[4])
        + 1_099_511_627_776 * u64::from(values[5])
}

fn factors_of(word: u64) -> [u8; 6]
    ensures { result ≡ factors_of word }
{
    [
        last_byte(word),
        last_byte(word / 256),
        last_byte(word / 65_536),
        last_byte(word / 16_777_216),
        last_byte(word / 4_294_967_296),
        last_byte(word / 1_099_511_627_776),
    ]
}

fn byte_word(byte: u8) -> u64
    ensures word { result ≡ byte }
    ensures back { last_byte result ≡ byte }
{
    u64::from(byte)
}

fn last_byte(word: u64) -> u8
    ensures { result ≡ last_byte word }
{
    (word % 256) as u8
}
