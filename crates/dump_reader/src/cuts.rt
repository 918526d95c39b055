//! Cuts a text into lines, pieces and words.
ghost use Rattle.std.specs.Prelude.{◌≡◌, ◌==◌, [], ◌∷◌, not, position, MatchOption};
ghost use Rattle.std.specs.Iterator.{YieldsFirstRef, item_count};
ghost use Rattle.std.specs.Str.Lines.{lines, strip_carriage_return};
ghost use Rattle.dump_reader.specs.Cuts as cuts;
ghost use Rattle.dump_reader.specs.Left.{lines_left, pieces_left};

/// Where a text is cut.
#[derive(Clone, Copy, Debug, PartialEq, Eq)]
pub(crate) enum Mark {
    /// At line feeds.
    Feed,
    /// At closing brackets.
    Bracket,
    /// At stars.
    Star,
    /// Between words.
    Between,
}

/// Whether a byte stands between the words of a line.
fn is_separator(b: u8) -> bool
    ensures { result ≡ cuts.is_separator b }
{
    let is_mark = b == b' ' || b == b',' || b == b':' || b == b'=';
    let is_bracket = b == b'[' || b == b']' || b == b'(' || b == b')' || b == b'*';
    is_mark || is_bracket
}

/// Whether a text is cut at this byte.
fn is_mark(mark: Mark, b: u8) -> bool
    ensures { result ≡ cuts.is_mark mark b }
{
    match mark {
        Mark::Feed => b == b'\n',
        Mark::Bracket => b == b']',
        Mark::Star => b == b'*',
        Mark::Between => is_separator(b),
    }
}

/// The place of the first byte at which a text is cut.
fn place_of(text: &[u8], mark: Mark) -> Option<usize>
    ensures { result ≡ position (cuts.is_mark mark) text.now }
{
    text.iter().position(|b| is_mark(mark, *b))
}

/// The text before the first such byte and the text behind it, if there is one.
fn cut(text: &[u8], mark: Mark) -> Option<(&[u8], &[u8])>
    ensures { MatchOption result
        (cuts.pieces mark text.now ≡ text.now ∷ [])
        (λ both. cuts.pieces mark text.now ≡ both.0.now ∷ cuts.pieces mark both.1.now) }
{
    let end = place_of(text, mark)?;
    Some((&text[..end], &text[end + 1..]))
}

/// The lines of a text that are left. A line ends at a line feed or at the text's end; one carriage return directly
/// before a line feed is dropped.
#[derive(Clone, Copy)]
pub(crate) struct Lines<'a> {
    rest: &'a [u8],
}

impl<'a> Lines<'a> {
    /// All lines of a text.
    pub(crate) fn new(text: &'a [u8]) -> Self
        ensures { lines_left result ≡ lines text.now }
    {
        Lines { rest: text }
    }
}

impl<'a> Iterator for Lines<'a> {
    type Item = &'a [u8];

    ghost next_gives = { YieldsFirstRef lines_left };

    ghost remaining = { item_count lines_left };

    fn next(&mut self) -> Option<&'a [u8]> {
        let text = self.rest;
        if text.is_empty() {
            return None;
        }
        match cut(text, Mark::Feed) {
            Some((line, rest)) => {
                self.rest = rest;
                Some(without_return(line))
            }
            None => {
                self.rest = &[];
                Some(text)
            }
        }
    }
}

/// The line without the one carriage return at its end, if it has one.
fn without_return(line: &[u8]) -> &[u8]
    ensures { result.now ≡ strip_carriage_return line.now }
{
    match line {
        [front @ .., b'\r'] => front,
        _ => line,
    }
}

/// The pieces of a text that are left.
#[derive(Clone, Copy)]
pub(crate) struct Pieces<'a> {
    rest: Option<&'a [u8]>,
    mark: Mark,
}

impl<'a> Pieces<'a> {
    /// All pieces of a text.
    pub(crate) fn new(text: &'a [u8], mark: Mark) -> Self
        ensures { pieces_left result ≡ cuts.pieces mark text.now }
    {
        Pieces {
            rest: Some(text),
            mark,
        }
    }
}

impl<'a> Iterator for Pieces<'a> {
    type Item = &'a [u8];

    ghost next_gives = { YieldsFirstRef pieces_left };

    ghost remaining = { item_count pieces_left };

    fn next(&mut self) -> Option<&'a [u8]> {
        let text = self.rest?;
        match cut(text, self.mark) {
            Some((piece, rest)) => {
                self.rest = Some(rest);
                Some(piece)
            }
            None => {
                self.rest = None;
                Some(text)
            }
        }
    }
}

/// The place of the first byte that is no space.
fn first_place(text: &[u8]) -> Option<usize>
    ensures { result ≡ position (λ b. not (b == 32)) text.now }
{
    text.iter().position(|b| !(*b == b' '))
}

/// The text without the spaces at its front.
pub(crate) fn unindented(text: &[u8]) -> &[u8]
    ensures { result.now ≡ cuts.unindented text.now }
{
    let from = first_place(text).unwrap_or(text.len());
    &text[from..]
}

/// Whether a text begins with another.
pub fn begins_with(front: &[u8], text: &[u8]) -> bool
    ensures { result ≡ cuts.begins_with front.now text.now }
{
    front.len() <= text.len() && &text[..front.len()] == front
}
