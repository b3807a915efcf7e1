//! The law of events. For a script that fits its specification, the invariant `Kept` on places and words holds in
//! each state of each schedule, under all halts and restarts. Each function states a part of the law by its contract
//! and does nothing.

ghost use Rattle.fail_stop.specs.Laws.{BanksHoldTheLastStores, DraftsAreOfTraces, EventsKeep, EventsKeepLists, FlightsAreOfTraces, KernelImagesComeBack, KeptIsConsistent, MachineGoesOn, NotesFix, OpeningKeeps, OpeningListsAreOfScripts, ReadersFind, SchedulesKeep};

/// States that the flight of a script has the commits, marks, banks and images of the one-thread trace.
pub fn flights_are_of_traces()
    ensures { FlightsAreOfTraces }
{}

/// States that the opening state satisfies the invariant `Kept`.
pub fn opening_keeps()
    ensures { OpeningKeeps }
{}

/// States that the list of words with which a flight opens holds the opening value of each word. The words are the
/// release, the kernel's words, and the mark, the end word and both banks of each processor.
pub fn opening_lists_are_of_scripts()
    ensures { OpeningListsAreOfScripts }
{}

/// States that an event that is the next of its actor preserves the invariant `Kept`, whatever the other actors did
/// meanwhile.
pub fn events_keep()
    ensures { EventsKeep }
{}

/// States that an event that is the next of its actor preserves the invariant `Kept` if the words are kept in one
/// list. The event writes at most one entry of the list.
pub fn events_keep_lists()
    ensures { EventsKeepLists }
{}

/// States that the invariant `Kept` implies the facts on marks, banks, places, the release, notes, the kernel's words
/// and the words that a reader finds.
pub fn kept_is_consistent()
    ensures { KeptIsConsistent }
{}

/// States that the draft that a processor makes of the snapshot of a frame is its draft in the one-thread trace.
pub fn drafts_are_of_traces()
    ensures { DraftsAreOfTraces }
{
    frame_model::laws::areas_are_kept();
}

/// States that each state of each schedule satisfies the invariant `Kept`.
pub fn schedules_keep()
    ensures { SchedulesKeep }
{}

/// States that a processor that reads in a frame finds the images and the kernel's words of that frame. The banks
/// that the processor chooses do not change meanwhile.
pub fn readers_find()
    ensures { ReadersFind }
{}

/// States that the mark and the image of a processor that the kernel has noted are those after the kernel's frame.
pub fn notes_fix()
    ensures { NotesFix }
{}

/// States that some actor has a next event if the machine is not over.
pub fn machine_goes_on()
    ensures { MachineGoesOn }
{}

/// States that at the start of a frame, each word of a bank is the word that the processor stored there last, or the
/// opening word.
pub fn banks_hold_the_last_stores()
    ensures { BanksHoldTheLastStores }
{}

/// States that the kernel image of a frame can be decoded from its words.
pub fn kernel_images_come_back()
    ensures { KernelImagesComeBack }
{}
