//! The laws of pictures. The contract of each function is a law.

ghost use Rattle.picture_form.specs.Laws.{EqualPicturesShowTheSame, FlightsAreDrawn, TracesAreDrawn};

/// States that if two flights of one specification can be drawn and have the same picture, they show the same. They
/// have the same number of rows, and each row shows the same in the lane of each factor, processor and application.
/// The reconfigurations that begin in a row have the same titles. The curves of altitude and heading have the same
/// extremes and the same height in each row. Therefore, two flights that differ in one of these points have different
/// pictures.
pub fn equal_pictures_show_the_same()
    ensures { EqualPicturesShowTheSame }
{}

/// States that every flight can be drawn, as `equal_pictures_show_the_same` requires.
pub fn flights_are_drawn()
    ensures { FlightsAreDrawn }
{}

/// States that every trace that can be read can be drawn, as `equal_pictures_show_the_same` requires, whichever
/// program wrote the trace. Therefore, two traces of one specification that do not show the same have different
/// pictures.
pub fn traces_are_drawn()
    ensures { TracesAreDrawn }
{}
