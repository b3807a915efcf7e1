//! The laws of explanations. The contract of each function is a law.

ghost use Rattle.document_explanations.specs.Laws.{FoundIsShort, TablesAreRead};

/// States that the table of a specification has the members that the reader of specifications expects for the version
/// of a document. Also states, for a specification and for a script, that the table's number of members is the number
/// that the reader expects.
pub fn tables_are_read()
    ensures { TablesAreRead }
{}

/// States that `cut` shortens each text to at most 62 characters, including the two dots at the end of a shortened
/// text.
pub fn found_is_short()
    ensures { FoundIsShort }
{}
