//! Numbers as words.
ghost use Rattle.std.specs.Prelude.{◌≡◌};
ghost use Rattle.std.specs.Char.{is_ascii_digit};
ghost use Rattle.std.specs.List.{list_all};
ghost use Rattle.program_words.specs.Numbers.{is_numeral, is_taken, number_in, number_written};
ghost use Rattle.program_words.specs.Tables.{numbers_in};

use crate::table::Numbers;

/// Whether a word has digits only.
fn has_digits_only(text: &str) -> bool
    ensures { result ≡ list_all is_ascii_digit text.now }
{
    text.as_bytes().iter().all(|byte| byte.is_ascii_digit())
}

/// Whether a word is a number: one to ten digits.
fn is_number(text: &str) -> bool
    ensures { result ≡ is_numeral text.now }
{
    let length = text.len();
    1 <= length && length <= 10 && has_digits_only(text)
}

/// The number that a word writes.
fn number_of(text: &str) -> Option<u64>
    ensures { result ≡ number_written text.now }
{
    if is_number(text) {
        text.parse::<u64>().ok()
    } else {
        None
    }
}

impl Numbers {
    /// Whether the number is among these.
    fn contains(self, number: u64) -> bool
        ensures { result ≡ is_taken (numbers_in self) number }
    {
        match self {
            Numbers::Listed(numbers) => numbers.contains(&number),
            Numbers::Between(least, most) => least <= number && number <= most,
        }
    }

    /// The number that a word writes, where it is among these.
    pub fn read(self, text: &str) -> Option<u64>
        ensures { result ≡ number_in (numbers_in self) text.now }
    {
        let number = number_of(text)?;
        if self.contains(number) {
            Some(number)
        } else {
            None
        }
    }
}
