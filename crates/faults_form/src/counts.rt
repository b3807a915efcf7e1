//! The number of faults in each script of a family.

ghost use Rattle.std.specs.Prelude.{◌≡◌, ◌≤◌};
ghost use Rattle.faults_form.specs.Counts.{fault_count, number};

/// The number of faults in each script of a family.
#[derive(Clone, Copy)]
pub enum FaultCount {
    One,
    Two,
    Three,
}

impl FaultCount {
    /// Returns the number of faults, from 1 to 3.
    pub fn number(self) -> u8
        ensures value { result ≡ number self }
        ensures few { result ≤ 3 }
    {
        match self {
            FaultCount::One => 1,
            FaultCount::Two => 2,
            FaultCount::Three => 3,
        }
    }
}

/// Returns the number of faults that a word spells, or `None` if the word is not `1`, `2` or `3`.
pub fn fault_count(word: &[u8]) -> Option<FaultCount>
    ensures { result ≡ fault_count word.now }
{
    match word {
        [b'1'] => Some(FaultCount::One),
        [b'2'] => Some(FaultCount::Two),
        [b'3'] => Some(FaultCount::Three),
        _ => None,
    }
}
