//! The input of a frame.

ghost use Rattle.std.specs.Prelude.{◌≡◌, ◌+◌, ◌<◌, ◌^◌, if◌then◌else◌};
ghost use Rattle.scram_types.specs.Specification.{IsSpec};
ghost use Rattle.fault_script.specs.Inputs.{input_at};
ghost use Rattle.fault_script.specs.Times.{factors_at, halts_before_mark, halts_in, is_halt_in, restarts_in};

use scram_types::{HaltAt, Script, Spec};

/// The input of a frame: the values of the factors in it, and three sets of processors, as bits. `early` contains the
/// processors that halt in the frame before their mark, and `late` those that halt in it after their mark. `back`
/// contains those that restart in the frame and are up again from this frame on.
#[derive(Clone, Copy)]
pub struct Input {
    pub factors: [u8; 6],
    pub early: u8,
    pub late: u8,
    pub back: u8,
}

// Returns the input of a frame, given the values of the factors in it.
pub(crate) fn input_at(spec: &Spec, script: &Script, frame: u32, factors: &[u8; 6]) -> Input
    requires { factors.now ≡ factors_at script.now frame }
    ensures input { result ≡ input_at spec.now script.now frame }
    ensures spec { IsSpec spec.now }
{
    let factors = *factors;
    let mut input = Input {
        factors,
        early: 0,
        late: 0,
        back: 0,
    };
    for p in 0..spec.procs.items().len() as u8 {
        let early = halts_before_mark(spec, script, p, frame);
        input.early = with(input.early, p, early);
        input.late = with(input.late, p, halts_in(script, p, frame) && !early);
        input.back = with(input.back, p, restarts_in(script, p, frame));
    }
    input
}

// Returns a set of processors below `p`, with processor `p` added if `is_in` is `true`.
fn with(set: u8, p: u8, is_in: bool) -> u8
    requires p { p < 8 }
    requires set { set < 2 ^ p }
    ensures { result ≡ set + (if is_in then 2 ^ p else 0) }
{
    if is_in { set | 1 << p } else { set }
}

fn halts_before_mark(spec: &Spec, script: &Script, p: u8, frame: u32) -> bool
    ensures { result ≡ halts_before_mark spec.now script.now p frame }
{
    let words = 8 * spec.apps.items().len();
    script.halts.items().iter().any(|halt| is_halt_in(halt, p, frame)
        && usize::from(halt.step) <= words)
}

fn halts_in(script: &Script, p: u8, frame: u32) -> bool
    ensures { result ≡ halts_in script.now p frame }
{
    script
        .halts
        .items()
        .iter()
        .any(|halt| is_halt_in(halt, p, frame))
}

fn is_halt_in(halt: &HaltAt, p: u8, frame: u32) -> bool
    ensures { result ≡ is_halt_in p frame halt.now }
{
    halt.proc.0 == p && halt.frame == frame
}

fn restarts_in(script: &Script, p: u8, frame: u32) -> bool
    ensures { result ≡ restarts_in script.now p frame }
{
    script
        .restarts
        .items()
        .iter()
        .any(|restart| restart.proc.0 == p && restart.frame == frame)
}
