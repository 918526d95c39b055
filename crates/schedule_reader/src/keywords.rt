//! The words with which lines and steps begin.
ghost use Rattle.std.specs.Prelude.{◌≡◌};
ghost use Rattle.schedule_reader.specs.Keywords as keywords;

/// A word with which a line or a step begins.
#[derive(Clone, Copy, Debug, PartialEq, Eq)]
pub(crate) enum Keyword {
    /// `corb`
    Corb,
    /// `answer`
    Answer,
    /// `lose`
    Lose,
    /// `rirb`
    Rirb,
    /// `fetch`
    Fetch,
    /// `link`
    Link,
    /// `plug`
    Plug,
    /// `unplug`
    Unplug,
    /// `run`
    Run,
    /// `irq`
    Irq,
    /// `repeat`
    Repeat,
    /// `end`
    End,
}

/// Which keyword a word is.
#[tactic(auto, unfolding(crate::specs::Keywords::keyword_of))]
pub(crate) fn keyword_of(word: &[u8]) -> Option<Keyword>
    ensures { result ≡ keywords.keyword_of word.now }
{
    if word == b"corb".as_slice() {
        Some(Keyword::Corb)
    } else if word == b"answer".as_slice() {
        Some(Keyword::Answer)
    } else if word == b"lose".as_slice() {
        Some(Keyword::Lose)
    } else if word == b"rirb".as_slice() {
        Some(Keyword::Rirb)
    } else if word == b"fetch".as_slice() {
        Some(Keyword::Fetch)
    } else if word == b"link".as_slice() {
        Some(Keyword::Link)
    } else if word == b"plug".as_slice() {
        Some(Keyword::Plug)
    } else if word == b"unplug".as_slice() {
        Some(Keyword::Unplug)
    } else if word == b"run".as_slice() {
        Some(Keyword::Run)
    } else if word == b"irq".as_slice() {
        Some(Keyword::Irq)
    } else if word == b"repeat".as_slice() {
        Some(Keyword::Repeat)
    } else if word == b"end".as_slice() {
        Some(Keyword::End)
    } else {
        None
    }
}
