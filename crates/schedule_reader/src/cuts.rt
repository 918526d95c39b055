//! Cuts a text into lines, pieces and words.
ghost use Rattle.std.specs.Prelude.{◌≡◌, ◌==◌, [], ◌∷◌, position, MatchOption};
ghost use Rattle.std.specs.Iterator.{YieldsFirstRef, item_count};
ghost use Rattle.std.specs.Str.Lines.{lines, strip_carriage_return};
ghost use Rattle.schedule_reader.specs.Cuts as cuts;
ghost use Rattle.schedule_reader.specs.Left.{lines_left, pieces_left, words_left};

/// The text before the first separator and the text behind it, if there is one.
fn cut(text: &[u8], separator: u8) -> Option<(&[u8], &[u8])>
    ensures { MatchOption result
        (cuts.pieces separator text.now ≡ text.now ∷ [])
        (λ both. cuts.pieces separator text.now ≡ both.0.now ∷ cuts.pieces separator both.1.now) }
{
    let end = place_of(text, separator)?;
    Some((&text[..end], &text[end + 1..]))
}

/// The place of the first separator.
fn place_of(text: &[u8], separator: u8) -> Option<usize>
    ensures { result ≡ position (λ b. b == separator) text.now }
{
    text.iter().position(|b| *b == separator)
}

/// The lines of a text that are left. A line ends at a line feed or at the text's end; one carriage return directly
/// before a line feed is dropped.
#[derive(Clone, Copy)]
pub(crate) struct Lines<'a> {
    rest: &'a [u8],
}

impl<'a> Lines<'a> {
    /// All lines of a text.
    pub(crate) fn new(text: &'a [u8]) -> Self
        ensures { lines_left result ≡ lines text.now }
    {
        Lines { rest: text }
    }
}

impl<'a> Iterator for Lines<'a> {
    type Item = &'a [u8];

    ghost next_gives = { YieldsFirstRef lines_left };

    ghost remaining = { item_count lines_left };

    fn next(&mut self) -> Option<&'a [u8]> {
        let text = self.rest;
        if text.is_empty() {
            return None;
        }
        match cut(text, b'\n') {
            Some((line, rest)) => {
                self.rest = rest;
                Some(without_return(line))
            }
            None => {
                self.rest = &[];
                Some(text)
            }
        }
    }
}

/// The line without the one carriage return at its end, if it has one.
fn without_return(line: &[u8]) -> &[u8]
    ensures { result.now ≡ strip_carriage_return line.now }
{
    match line {
        [front @ .., b'\r'] => front,
        _ => line,
    }
}

/// The pieces of a text between separators that are left.
#[derive(Clone, Copy)]
pub(crate) struct Pieces<'a> {
    rest: Option<&'a [u8]>,
    separator: u8,
}

impl<'a> Pieces<'a> {
    /// All pieces of a text.
    pub(crate) fn new(text: &'a [u8], separator: u8) -> Self
        ensures { pieces_left result ≡ cuts.pieces separator text.now }
    {
        Pieces {
            rest: Some(text),
            separator,
        }
    }

    /// How many pieces are left, where each has a byte at least.
    pub(crate) fn room(&self) -> usize {
        match self.rest {
            Some(rest) => {
                let separators = rest.iter().filter(|b| **b == self.separator).count();
                separators.saturating_add(1).min(rest.len() / 2 + 1)
            }
            None => 0,
        }
    }
}

impl<'a> Iterator for Pieces<'a> {
    type Item = &'a [u8];

    ghost next_gives = { YieldsFirstRef pieces_left };

    ghost remaining = { item_count pieces_left };

    fn next(&mut self) -> Option<&'a [u8]> {
        let text = self.rest?;
        match cut(text, self.separator) {
            Some((piece, rest)) => {
                self.rest = Some(rest);
                Some(piece)
            }
            None => {
                self.rest = None;
                Some(text)
            }
        }
    }
}

/// The words of a text that are left: its longest stretches without a space.
#[derive(Clone, Copy)]
pub(crate) struct Words<'a> {
    pieces: Pieces<'a>,
}

impl<'a> Words<'a> {
    /// All words of a text.
    pub(crate) fn new(text: &'a [u8]) -> Self
        ensures { words_left result ≡ cuts.words text.now }
    {
        Words {
            pieces: Pieces::new(text, b' '),
        }
    }
}

impl<'a> Iterator for Words<'a> {
    type Item = &'a [u8];

    ghost next_gives = { YieldsFirstRef words_left };

    ghost remaining = { item_count words_left };

    fn next(&mut self) -> Option<&'a [u8]> {
        while let Some(piece) = self.pieces.next() {
            if !piece.is_empty() {
                return Some(piece);
            }
        }
        None
    }
}
