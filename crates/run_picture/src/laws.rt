//! Laws of pictures, each the contract of a function that does nothing.
ghost use Rattle.sound_report.specs.declared.played.Played.{Played};
ghost use Rattle.svg_text.specs.declared.shapes.Picture.{Picture};
ghost use Rattle.run_picture.specs.Pictures.{IsPictureOf};
ghost use Rattle.run_picture.specs.Small.{AreSmall};

/// The picture of a run is small, however long the run was: at most 316 shapes, none with more than 2,164 points or 160
/// bytes of words.
pub fn pictures_are_small()
    ensures { (played : Played) (picture : Picture) → IsPictureOf played picture → AreSmall picture.shapes }
{}
