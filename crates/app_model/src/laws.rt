//! Theorems on the definitions: the areas that the laws of all kinds define lie in the ranges of the tables. Each
//! function here states a theorem by its contract and does nothing.

ghost use Rattle.app_model.specs.Areas.{LawLiesDuring, LawLiesAfterHalt, LawLiesAfterInit, StartLiesAfterInit, AllTablesNarrow};

/// States that whatever an application sees, its area after an order with a status lies in the ranges of that status.
/// The ranges are those of the mode that the application is to be in.
pub fn law_lies_during()
    ensures { LawLiesDuring }
{}

/// States that after the last frame of a halt phase the area lies in the ranges after a halt.
pub fn law_lies_after_halt()
    ensures { LawLiesAfterHalt }
{}

/// States that after the last frame of an init phase the area lies in the ranges after an init phase.
pub fn law_lies_after_init()
    ensures { LawLiesAfterInit }
{}

/// States that in every mode the area that an application begins with lies in the ranges after an init phase.
pub fn start_lies_after_init()
    ensures { StartLiesAfterInit }
{}

/// States that the ranges after a halt lie in those during a halt, and the ranges after an init phase in those during
/// an init phase. The sane ranges contain all other ranges.
pub fn tables_narrow()
    ensures { AllTablesNarrow }
{}
