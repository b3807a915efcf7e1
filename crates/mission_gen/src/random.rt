//! The random numbers of the generator. Each random number determines the events in a block of sixty frames.

ghost use Rattle.std.specs.Prelude.{◌≡◌, ◌<◌, ◌≤◌, ◌^◌};
ghost use Rattle.mission_gen.specs.Blocks.{alternator, choice, delay, first_frame, next_random, random, turns_both};

/// Returns the next random number, below 2^31, given the random number `x`.
pub(crate) fn next_random(x: u32) -> u32
    ensures value { result ≡ next_random x }
    ensures small { result < 2 ^ 31 }
{
    ((1_103_515_245 * u64::from(x) + 12_345) % 2_147_483_648) as u32
}

/// Returns the random number of block `k` of mission `n`. The random number of block 0 is `n`.
pub(crate) fn random(n: u32, k: u32) -> u32
    ensures { result ≡ random n k }
{
    let mut x = n;
    for _ in 0..k {
        x = next_random(x);
    }
    x
}

/// Returns the frame of the first event in block `k`, whose random number is `x`. `k` must be at most 1,000.
pub(crate) fn first_frame(k: u32, x: u32) -> u32
    requires { k ≤ 1000 }
    ensures { result ≡ first_frame k x }
{
    60 * k + x / 256 % 8
}

/// Returns the number of frames, 1 to 8, from the change of the alternator that changes first to the change of the
/// other alternator, given the block's random number `x`.
pub(crate) fn delay(x: u32) -> u32
    ensures value { result ≡ delay x }
    ensures most { result ≤ 8 }
{
    1 + x / 4096 % 8
}

fn choice(x: u32) -> u32
    ensures value { result ≡ choice x }
    ensures four { result < 4 }
{
    x / 65_536 % 4
}

/// Returns the number of the alternator that changes first, 0 or 1, given the block's random number `x`.
pub(crate) fn alternator(x: u32) -> u8
    ensures value { result ≡ alternator x }
    ensures two { result < 2 }
{
    (choice(x) % 2) as u8
}

/// Returns `true` if the other alternator changes too in the block with random number `x`.
pub(crate) fn turns_both(x: u32) -> bool
    ensures { result ≡ turns_both x }
{
    2 <= choice(x)
}
