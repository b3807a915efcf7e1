//! The views of seats at the table, the rule that every step keeps, and the steps. No value of these types is
//! created.

use atomic_table::{Join, Play, Split, TableRule};
use coverage_check::Mission;

/// An actor with its place. `Runs` has the number of a running processor, its frame, and the number of steps that it
/// has made in that frame. `Stopped` has the number of a halted processor and the frame in which it halted. `Kernel`
/// has the kernel's frame and the number of steps that the kernel has made in that frame.
pub enum Actor {
    Runs(u64, u64, u64),
    Stopped(u64, u64),
    Kernel(u64, u64),
}

/// The view of a seat: the mission that is flown, the number of loads that found nothing ready, and the actors of the
/// seat. A spent view has no mission and no actor.
pub struct View {
    pub mission: Option<Mission>,
    pub tries: u64,
    /// The actors of the seat. In contracts, this field is a list, which may have any length.
    pub actors: [Actor; 0],
}

/// The rule of the table, which every step keeps. The law of events holds for the words and for the places of the
/// actors. Each actor is at its place and in exactly one view.
pub struct WordRule;

impl TableRule<(), View, Mission> for WordRule {
    ghost use Rattle.word_table.specs.Rule.{IsRuled, first_view};

    ghost holds = { IsRuled };

    ghost first = { first_view };
}

/// A load that is not an event. It does not change the seat.
pub struct Reads;

impl Play<(), View> for Reads {
    ghost use Rattle.word_table.specs.Plays.{reads};

    ghost then = { reads };
}

/// The load that completes a look of a processor at an image. It is a step of the processor.
pub struct Looks;

impl Play<(), View> for Looks {
    ghost use Rattle.word_table.specs.Plays.{looks};

    ghost then = { looks };
}

/// A load that starts a frame if it reads the release word for a waiting processor and finds that the processor's
/// frame is released. The release word is the number of released frames.
pub struct Starts;

impl Play<(), View> for Starts {
    ghost use Rattle.word_table.specs.Plays.{starts};

    ghost then = { starts };
}

/// A store of a mark, or of a word in a bank.
pub struct Stores;

impl Play<(), View> for Stores {
    ghost use Rattle.word_table.specs.Plays.{stores};

    ghost then = { stores };
}

/// A load in place of a store. It is a step if it finds the value that the store would write.
pub struct Confirms;

impl Play<(), View> for Confirms {
    ghost use Rattle.word_table.specs.Plays.{confirms};

    ghost then = { confirms };
}

/// A store of a processor's end word that ends the processor's frame.
pub struct Ends;

impl Play<(), View> for Ends {
    ghost use Rattle.word_table.specs.Plays.{finishes_frame};

    ghost then = { finishes_frame };
}

/// A store of a processor's end word that halts the processor in its frame.
pub struct Halts;

impl Play<(), View> for Halts {
    ghost use Rattle.word_table.specs.Plays.{halts};

    ghost then = { halts };
}

/// A load that notes a processor if it reads the end word for which the kernel waits and finds that the note is
/// allowed.
pub struct Notes;

impl Play<(), View> for Notes {
    ghost use Rattle.word_table.specs.Plays.{notes};

    ghost then = { notes };
}

/// A store of one of the kernel's words.
pub struct Publishes;

impl Play<(), View> for Publishes {
    ghost use Rattle.word_table.specs.Plays.{stores};

    ghost then = { stores };
}

/// A store of the release word, which releases the next frame.
pub struct Releases;

impl Play<(), View> for Releases {
    ghost use Rattle.word_table.specs.Plays.{finishes_frame};

    ghost then = { finishes_frame };
}

/// A transfer of actors: a seat gives its first actor to a new seat, or takes the actors of another seat.
pub struct Deals;

impl Split<View> for Deals {
    ghost use Rattle.word_table.specs.Plays.{first_actor, other_actors};

    ghost left = { other_actors };

    ghost right = { first_actor };
}

impl Join<View> for Deals {
    ghost use Rattle.word_table.specs.Plays.{all_actors, spent};

    ghost both = { all_actors };

    ghost spent = { spent };
}
