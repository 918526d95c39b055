//! Laws of WAV files, each the contract of a function that does nothing.
ghost use Rattle.wav_reader.specs.Laws.{AreAllFound, AreBlocksReadBack, AreReadBack, IsHeardAgain};

/// The chunks of a file are all that it has: looking for more than it has bytes finds no other.
pub fn all_chunks_are_found()
    ensures { AreAllFound }
{}

/// A file that is written as chunk after chunk is read as these chunks, each at its place.
pub fn written_chunks_are_read()
    ensures { AreReadBack }
{}

/// Frames of a sound of any rate, sample size and number of channels that are written as a WAV file, in the plain or in
/// the extensible form, are read as these.
pub fn written_sound_is_read()
    ensures { IsHeardAgain }
{}

/// Whole blocks of a ring of any format that are written as a WAV file in the plain form are read as these blocks,
/// where the lowest byte of each container of 24 bits is 0.
pub fn written_blocks_are_read()
    ensures { AreBlocksReadBack }
{}
