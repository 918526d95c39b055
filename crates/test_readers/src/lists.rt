//! Connection lists in words.
ghost use Rattle.std.specs.Prelude.{◌≤◌, ◌*◌};
ghost use Rattle.verb_codes.specs.Lists.{entries_per_word};

use std::alloc::{AllocError, Global};
use std::fmt::Radix;
use test_cases::{number_of, push_hex};
use verb_codes::expand_list;

/// Whether a word asks for the long form.
fn is_long(form: &[u8]) -> bool {
    form == b"long".as_slice()
}

/// The numbers of a list.
fn hex_text<T: Copy + Radix>(alloc: Global, numbers: &[T]) -> Result<String, AllocError> {
    let mut text = String::new(alloc);
    push_hex(&mut text, numbers)?;
    Ok(text)
}

/// The most words of a list here.
const MOST_WORDS: usize = 256;

/// How many entries so many words have, of which the first 256 count.
fn room(long: bool, words: usize) -> usize
    ensures { result ≤ words * entries_per_word long }
{
    let counted = words.min(MOST_WORDS);
    if long { 2 * counted } else { 4 * counted }
}

/// The nodes for which the first so many entries of a list stand, in the short form or the long one, which these words
/// have.
pub fn tell_expanded(alloc: Global, words: &[Vec<u8>]) -> Result<String, AllocError> {
    let [form, len, given @ ..] = words else {
        return format!(in alloc; "no list");
    };
    let mut list = Vec::new(alloc);
    for word in given {
        list.push(number_of(word))?;
    }
    let long = is_long(form);
    let len = u8::try_from(number_of(len)).unwrap_or(0);
    if usize::from(len) > room(long, list.len()) {
        return format!(in alloc; "too few words");
    }
    match expand_list(alloc, len, long, &list) {
        Ok(nodes) => hex_text(alloc, nodes.as_slice()),
        Err(error) => format!(in alloc; "{error:?}"),
    }
}
