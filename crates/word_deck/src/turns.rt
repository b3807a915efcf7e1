//! The results of turns.

/// The result of a turn. `Worked`: the actor has made steps and has more to make. `NotYet`: nothing was ready.
/// `Finished`: the actor has no more steps.
#[derive(Clone, Copy, Debug)]
pub enum Turn {
    Worked,
    NotYet,
    Finished,
}
