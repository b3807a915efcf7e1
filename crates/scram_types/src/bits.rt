//! Sets of numbers that are kept as bits.

ghost use Rattle.std.specs.Prelude.{◌≡◌};
ghost use Rattle.scram_types.specs.Bits.{has_bit};

/// Returns `true` if number `p` is in the set `set` of numbers below 8: bit `p` of the set is 1.
pub fn has_bit(set: u8, p: u8) -> bool
    ensures { result ≡ has_bit set p }
{
    p < 8 && set >> p & 1 == 1
}

/// Returns `true` if number `n` is in the set `set` of numbers below 16: bit `n` of the set is 1.
pub fn is_in(set: u16, n: u8) -> bool
    ensures { result ≡ has_bit set n }
{
    n < 16 && set >> n & 1 == 1
}
