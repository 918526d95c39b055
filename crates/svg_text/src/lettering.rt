//! The words of a picture, which contracts see as the plain list of their bytes.
ghost use Rattle.std.specs.Prelude.{◌≡◌, ◌++◌, ℕ, List, string_bytes, IfOk};

use std::alloc::{AllocError, Global};
use std::marker::Model;

/// Words in a picture. This project's own.
#[derive(Debug, Drop)]
pub struct Lettering {
    text: String,
}

impl Model for Lettering {
    ghost Value = { List ℕ };

    ghost view = { λ s. string_bytes s.text };
}

impl Lettering {
    /// The words of a text, in its memory.
    pub fn new(text: String) -> Self
        ensures { result ≡ string_bytes text }
    {
        Lettering { text }
    }

    /// The same words, in memory of their own.
    ///
    /// # Errors
    /// Want of memory.
    pub fn of(alloc: Global, words: &str) -> Result<Self, AllocError>
        ensures { IfOk result (λ label. label ≡ words.now) }
    {
        Ok(Lettering::new(String::from_str(alloc, words)?))
    }

    /// The words.
    pub fn as_str(&self) -> &str
        ensures { result.now ≡ self.now }
    {
        self.text.as_str()
    }
}
