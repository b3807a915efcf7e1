//! Laws that hold for all specifications. Each function's contract is a law.

ghost use Rattle.cube_cover.specs.Shares.{SharesAddUp};

/// States that the shares of a configuration count each environment in scope once. Each rule has a share, and the
/// last share has the environments that no rule fits.
pub fn shares_add_up()
    ensures { SharesAddUp }
{}
