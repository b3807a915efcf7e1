//! The law of the lines about the failure assumption. The contract of the function is the law.

ghost use Rattle.explain_form.specs.Laws.{WindowsAreExact};

/// States, for each window, that the number of frames in the line of change frames is the number of changes that the
/// failure assumption counts.
pub fn windows_are_exact()
    ensures { WindowsAreExact }
{}
