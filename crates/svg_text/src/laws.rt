//! Laws of the texts of pictures, each the contract of a function that does nothing.
ghost use Rattle.std.specs.Prelude.{◌≤◌, ◌-◌, ◌^◌, length};
ghost use Rattle.svg_text.specs.declared.shapes.Picture.{Picture as Shown};
ghost use Rattle.svg_text.specs.Documents.{IsDocument};
ghost use Rattle.svg_text.specs.Lengths.{most_number, most_picture_bytes};
ghost use Rattle.svg_text.specs.Pictures.{picture_text};
ghost use Rattle.svg_text.specs.Within.{IsPictureWithin};

/// The text of every picture is one well-formed element of XML 1.0, whatever its words are: of the marks `<`, `>`, `&`
/// and `"` a text's own stand as references, and each attribute is given once. The numbers have 32 bits, as those of a
/// picture do.
pub fn pictures_are_well_formed()
    ensures { (picture : Shown) → IsPictureWithin (2 ^ 32 - 1) picture → IsDocument (picture_text picture) }
{}

/// The text of a picture whose numbers have no more than five digits has at most 4,096 bytes, six for each byte of its
/// title, and those of its shapes.
pub fn pictures_are_short()
    ensures { (picture : Shown) → IsPictureWithin most_number picture
        → length (picture_text picture) ≤ most_picture_bytes picture }
{}
