//! Processors that are up, and environments that are in scope.

ghost use Rattle.std.specs.Prelude.{◌≡◌, ◌≤◌, not};
ghost use Rattle.scram_types.specs.Bits.{count_below, has_bit};
ghost use Rattle.choice_table.specs.Environments.{in_scope};

use scram_types::bits::has_bit;
use scram_types::{Env, Spec};

/// Returns `true` if an environment is in scope: the number of processors that are down is at most the number that
/// the specification's failure assumption allows.
pub fn in_scope(spec: &Spec, env: &Env) -> bool
    ensures { result ≡ in_scope spec.now env.now }
{
    count_down(spec.procs.items().len() as u8, env.up) <= spec.halts
}

// Returns how many of the first `processors` processors are not in the set `up`.
pub(crate) fn count_down(processors: u8, up: u8) -> u8
    ensures value { result ≡ count_below (λ p. not (has_bit up p)) processors }
    ensures most { result ≤ processors }
{
    let mut down = 0;
    for p in 0..processors {
        if !has_bit(up, p) {
            down += 1;
        }
    }
    down
}
