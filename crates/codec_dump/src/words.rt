//! Reads the words of the program.
ghost use Rattle.std.specs.Prelude.{◌≡◌, map, option_map, string_bytes};
ghost use Rattle.codec_dump.specs.Words as words;
ghost use Rattle.codec_dump.specs.Seen.{asked_seen, said_seen};

use dump_reader::begins_with;

/// What the words said so far.
#[derive(Clone, Copy)]
struct Said<'a> {
    /// The dump's name.
    name: Option<&'a str>,
    /// Whether it is mended.
    is_mended: bool,
    /// Whether no `--` stood there yet.
    is_open: bool,
}

/// What the words ask for.
#[derive(Clone, Copy)]
pub(crate) struct Asked<'a> {
    /// The dump's name.
    pub name: &'a str,
    /// Whether it is mended.
    pub is_mended: bool,
}

/// The one operand.
fn with_operand<'a>(said: Said<'a>, word: &'a str) -> Option<Said<'a>>
    ensures { option_map said_seen result ≡ words.with_operand (said_seen said.entry) word.now }
{
    if said.name.is_some() {
        return None;
    }
    Some(Said {
        name: Some(word),
        is_mended: said.is_mended,
        is_open: said.is_open,
    })
}

/// One word more.
#[tactic(auto, unfolding(crate::specs::Words::with_word))]
fn with_word<'a>(said: Said<'a>, word: &'a str) -> Option<Said<'a>>
    ensures { option_map said_seen result ≡ words.with_word (said_seen said.entry) word.now }
{
    let bytes = word.as_bytes();
    let mut said = said;
    if said.is_open && bytes == b"--".as_slice() {
        said.is_open = false;
        return Some(said);
    }
    if said.is_open && bytes == b"--mend".as_slice() {
        if said.is_mended {
            return None;
        }
        said.is_mended = true;
        return Some(said);
    }
    if said.is_open && begins_with(b"-".as_slice(), bytes) {
        return None;
    }
    with_operand(said, word)
}

/// What the words ask for: `DUMP`, and `--mend` at most once and anywhere before a `--`.
#[tactic(auto, unfolding(crate::specs::Words::asked_of))]
pub(crate) fn read_words(given: &[String]) -> Option<Asked<'_>>
    ensures { option_map asked_seen result ≡ words.asked_of (map string_bytes given.now) }
{
    let mut said = Said {
        name: None,
        is_mended: false,
        is_open: true,
    };
    for word in given {
        said = with_word(said, word.as_str())?;
    }
    Some(Asked {
        name: said.name?,
        is_mended: said.is_mended,
    })
}
