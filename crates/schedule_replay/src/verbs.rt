//! The kinds of events, and the words that begin their lines.

ghost use Rattle.std.specs.Prelude.{◌≡◌, bytes_eq};
ghost use Rattle.schedule_replay.specs.Verbs.{verb_named, word_count};

/// The kind of an event, which the first word of its line names.
#[derive(Clone, Copy)]
pub enum Verb {
    Start,
    Look,
    Store,
    Flip,
    Done,
    Halt,
    Note,
    KernelStore,
    Release,
}

/// Returns the kind of event that a word names, or `None` if it names none.
pub fn verb_named(word: &[u8]) -> Option<Verb>
    ensures { result ≡ verb_named word.now }
{
    if is_text(word, b"start") {
        Some(Verb::Start)
    } else if is_text(word, b"look") {
        Some(Verb::Look)
    } else if is_text(word, b"store") {
        Some(Verb::Store)
    } else if is_text(word, b"flip") {
        Some(Verb::Flip)
    } else if is_text(word, b"done") {
        Some(Verb::Done)
    } else if is_text(word, b"halt") {
        Some(Verb::Halt)
    } else if is_text(word, b"note") {
        Some(Verb::Note)
    } else if is_text(word, b"kstore") {
        Some(Verb::KernelStore)
    } else if is_text(word, b"release") {
        Some(Verb::Release)
    } else {
        None
    }
}

/// Returns the number of words in a line for an event of kind `verb`, including the first word.
pub fn word_count(verb: Verb) -> usize
    ensures { result ≡ word_count verb }
{
    match verb {
        Verb::Start => 2,
        Verb::Look => 3,
        Verb::Store => 3,
        Verb::Flip => 2,
        Verb::Done => 2,
        Verb::Halt => 2,
        Verb::Note => 2,
        Verb::KernelStore => 2,
        Verb::Release => 1,
    }
}

fn is_text(word: &[u8], text: &[u8]) -> bool
    ensures { result ≡ bytes_eq word.now text.now }
{
    word == text
}
