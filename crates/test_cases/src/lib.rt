//! Cases of the test programs, which stand in files as lines of text. A test program reads each case, calls what is
//! tested, and prints the case with what came of it; the gate compares that with the text that is expected. So a case
//! costs no proof.
//!
//! An empty line and one that begins with `#` say nothing. Any other line is a row of words, between spaces:
//!
//! - a text in quotation marks is a word, which may have spaces and these escapes: `\n`, `\r`, `\t`, `\0`, `\"`, `\\`,
//!   and `\x` with two hexadecimal digits for any byte;
//! - a word that begins with `@` stands for the bytes of the file that it names;
//! - a line whose second word is `=` gives its first, in capitals, as a name to the bytes of all that stands behind it:
//!   where a word is that name later, it stands for them.
#![tactic(auto)]

mod names;
mod run;
mod stretches;
mod words;

pub use run::{Cases, run_cases};
pub use stretches::push_stretches;
pub use words::{number_of, push_hex, text_of};
