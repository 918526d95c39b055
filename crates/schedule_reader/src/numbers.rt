//! Numbers and node identifiers.
ghost use Rattle.std.specs.Prelude.{◌≡◌, ◌≤◌, ◌<◌, true, length, IfSome};
ghost use Rattle.std.specs.List.{list_all};
ghost use Rattle.std.specs.Char.{is_ascii_digit};
ghost use Rattle.std.specs.Str.Parse.{digits_value};
ghost use Rattle.schedule_reader.specs.Numbers as numbers;

/// The most decimal digits of a number.
const MOST_DIGITS: usize = 10;

/// Whether every byte is a decimal digit.
fn are_digits(word: &[u8]) -> bool
    ensures { result ≡ list_all is_ascii_digit word.now }
{
    word.iter().all(|b| b.is_ascii_digit())
}

/// Whether a word is one to ten decimal digits.
#[tactic(auto, unfolding(crate::specs::Numbers::is_decimal))]
fn is_decimal(word: &[u8]) -> bool
    ensures { result ≡ numbers.is_decimal word.now }
{
    1 <= word.len() && word.len() <= MOST_DIGITS && are_digits(word)
}

/// The number that decimal digits write.
fn value_of(digits: &[u8]) -> u64
    requires digits { list_all is_ascii_digit digits.now ≡ true }
    requires few { length digits.now ≤ MOST_DIGITS }
    ensures { result ≡ digits_value 10 digits.now }
{
    let mut value = 0u64;
    for digit in digits {
        value = value * 10 + u64::from(*digit - b'0');
    }
    value
}

/// The number that a word of one to ten decimal digits writes.
#[tactic(auto, unfolding(crate::specs::Numbers::decimal, crate::specs::Numbers::is_decimal))]
fn decimal(word: &[u8]) -> Option<u64>
    ensures { result ≡ numbers.decimal word.now }
{
    if is_decimal(word) {
        Some(value_of(word))
    } else {
        None
    }
}

/// The number from `least` to `most` that a word writes.
pub(crate) fn number(word: &[u8], least: u32, most: u32) -> Option<u32>
    ensures value { result ≡ numbers.number least most word.now }
    ensures bound { IfSome result (λ n. n ≤ most) }
{
    let value = decimal(word)?;
    if u64::from(least) <= value && value <= u64::from(most) {
        Some(value as u32)
    } else {
        None
    }
}

/// What a hexadecimal digit of either case stands for.
fn hex_digit(digit: u8) -> Option<u8>
    ensures value { result ≡ numbers.hex_digit digit }
    ensures bound { IfSome result (λ value. value < 16) }
{
    match digit {
        b'0'..=b'9' => Some(digit - b'0'),
        b'A'..=b'F' => Some(digit - b'A' + 10),
        b'a'..=b'f' => Some(digit - b'a' + 10),
        _ => None,
    }
}

/// The node identifier from 01h to 7Fh that a word of two hexadecimal digits writes.
#[tactic(auto, unfolding(crate::specs::Numbers::nid_of))]
pub(crate) fn nid_of(word: &[u8]) -> Option<u8>
    ensures { result ≡ numbers.nid_of word.now }
{
    match word {
        [high, low] => {
            let sixteens = hex_digit(*high)?;
            let ones = hex_digit(*low)?;
            let nid = 16 * sixteens + ones;
            if 1 <= nid && nid <= 127 {
                Some(nid)
            } else {
                None
            }
        }
        _ => None,
    }
}
