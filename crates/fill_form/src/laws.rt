//! The law of filled-in specifications. The contract of the function is the law.

ghost use Rattle.fill_form.specs.Laws.{FilledIsAccepted};

/// States that if a specification breaks no condition of acceptance other than A9 and A10, and filling in is not
/// refused, the filled-in specification is accepted.
pub fn filled_is_accepted()
    ensures { FilledIsAccepted }
{}
