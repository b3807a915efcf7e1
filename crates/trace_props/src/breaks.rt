//! Breaks of properties, and their frames.

ghost use Rattle.std.specs.Prelude.{◌≡◌};
ghost use Rattle.trace_props.specs.Breaks.{property_number};
ghost use Rattle.trace_props.specs.Judging.{broken_at, comes_before, earlier};

/// One of the six properties of a flight.
#[derive(Clone, Copy)]
pub enum Property {
    /// The reports are exactly the reconfigurations that are read off the rows.
    Sp1,
    /// The target was chosen in the environment of some row of the reconfiguration.
    Sp2,
    /// A bound is given, and the reconfiguration takes no longer than the bound.
    Sp3,
    /// The invariants for the source hold throughout, and the target's preconditions hold in the row before the end.
    Sp4,
    /// The environment changes at the reconfiguration's begin or in the next row. Under `Settle`, a change during the
    /// preceding reconfiguration may also be the cause. A begin in the last row is exempt.
    Sp5,
    /// Each calm row satisfies the demands.
    Sp6,
}

impl Property {
    ghost use Rattle.std.specs.Prelude.{◌≡◌};
    ghost use Rattle.trace_props.specs.Breaks.{property_number};

    /// Returns the property's number, 1 to 6.
    pub fn number(self) -> u8
        ensures { result ≡ property_number self }
    {
        match self {
            Property::Sp1 => 1,
            Property::Sp2 => 2,
            Property::Sp3 => 3,
            Property::Sp4 => 4,
            Property::Sp5 => 5,
            Property::Sp6 => 6,
        }
    }
}

/// A property that does not hold, with a frame in which it is broken.
#[derive(Clone, Copy)]
pub struct Broken {
    pub property: Property,
    pub frame: u32,
}

// Returns the break of a property in a frame, or `None` if `frame` is `None`.
pub(crate) fn broken_at(property: Property, frame: Option<u32>) -> Option<Broken>
    ensures { result ≡ broken_at property frame }
{
    match frame {
        Some(frame) => Some(Broken { property, frame }),
        None => None,
    }
}

// Returns the earlier of two breaks, the only one present, or `None` if both are absent.
pub(crate) fn earlier(one: Option<Broken>, other: Option<Broken>) -> Option<Broken>
    ensures { result ≡ earlier one other }
{
    match (one, other) {
        (Some(one), Some(other)) => {
            if comes_before(other, one) {
                Some(other)
            } else {
                Some(one)
            }
        }
        (Some(one), None) => Some(one),
        (None, other) => other,
    }
}

fn comes_before(one: Broken, other: Broken) -> bool
    ensures { result ≡ comes_before one other }
{
    one.frame < other.frame
        || (one.frame == other.frame && one.property.number() < other.property.number())
}
