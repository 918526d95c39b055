//! Laws of formats, each the contract of a function that does nothing.
ghost use Rattle.stream_format.specs.Laws.{HaveOneFormat, AreReadBack, IsBoundedByMost, Has147In160};

/// A word is that of one format at most.
pub fn one_format_for_a_word()
    ensures { HaveOneFormat }
{}

/// The word of a format is read as that format.
pub fn words_are_read_back()
    ensures { AreReadBack }
{}

/// No link frame has more bytes than the format's most.
pub fn most_bounds_every_frame()
    ensures { IsBoundedByMost }
{}

/// At 44.1 kHz any 160 link frames in a row have 147 blocks (HDA 1.0a, 5.4.2).
pub fn blocks_in_160_frames()
    ensures { Has147In160 }
{}
