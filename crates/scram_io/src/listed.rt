//! The test of whether a call is listed among the calls that are to fail.
ghost use Rattle.std.specs.Prelude.{◌≡◌};
ghost use Rattle.scram_io.specs.Memory.{is_listed};

/// Returns `true` if the number `call` is listed in `failing`, so that the call is to fail.
pub(crate) fn is_listed_call(failing: &[u32], call: u64) -> bool
    ensures { result ≡ is_listed failing.now call }
{
    for &number in failing {
        if u64::from(number) == call {
            return true;
        }
    }
    false
}
