//! The law that names are spelled by the same rule in documents and in specifications. The contract of the function
//! is the law.

ghost use Rattle.reconf_spec.specs.Laws.{NamesAreOne};

/// States that the rule for names is the same in documents and in specifications.
pub fn names_are_one()
    ensures { NamesAreOne }
{}
