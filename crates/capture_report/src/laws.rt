//! Laws of the text of a capture, each the contract of a function that does nothing.
ghost use Rattle.std.specs.Prelude.{◌≡◌, ℕ, ◌+◌, ◌<◌, ◌≤◌, Bool, List, [], length, get_or, All, AllPairs, Contains};
ghost use Rattle.capture_report.specs.declared.overruns.Overrun.{Overrun};
ghost use Rattle.capture_report.specs.Overruns.{IsOverrun, LiesBefore, overruns_of};
ghost use Rattle.capture_report.specs.WavLines.{line_bytes, pieces_joined, wav_pieces};

/// The bytes of a file's lines, one after another, are the file. No line is empty, each has at most 48 bytes, and each
/// but the last has 48.
pub fn wav_lines_are_the_file()
    ensures joined { (file : List ℕ) → pieces_joined (wav_pieces file) ≡ file }
    ensures some { (file : List ℕ) → All (λ piece. 0 < length piece) (wav_pieces file) }
    ensures most { (file : List ℕ) → All (λ piece. length piece ≤ line_bytes) (wav_pieces file) }
    ensures full { (file : List ℕ) (place : ℕ) → place + 1 < length (wav_pieces file)
        → length (get_or (wav_pieces file) place []) ≡ line_bytes }
{}

/// The overruns of blocks are the maximal stretches of dropped ones: each is one, each that is one is among them, and
/// they ascend with a block between any two, so that none is told twice.
pub fn overruns_are_maximal()
    ensures maximal { (taken : List Bool) (overrun : Overrun) → Contains (overruns_of taken) overrun
        → IsOverrun taken overrun }
    ensures all { (taken : List Bool) (overrun : Overrun) → IsOverrun taken overrun
        → Contains (overruns_of taken) overrun }
    ensures ascend { (taken : List Bool) → AllPairs LiesBefore (overruns_of taken) }
{}
