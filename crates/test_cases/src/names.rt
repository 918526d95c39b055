//! Names that lines give to bytes.
use crate::words::Word;
use hda_outside::{ReadAll, Shelf, read_all};
use std::alloc::{AllocError, Global};

/// The most bytes of a file that a word names.
const MOST_FILE_BYTES: u64 = 16_777_216;

/// What has a name, and that name.
#[derive(Drop)]
struct Named {
    name: Vec<u8>,
    bytes: Vec<u8>,
}

/// The names that lines gave, in their order.
#[derive(Drop)]
pub struct Names {
    named: Vec<Named>,
}

impl Names {
    /// Without a name.
    pub fn new(alloc: Global) -> Names {
        Names {
            named: Vec::new(alloc),
        }
    }

    /// The bytes that were given a name last.
    fn find(&self, name: &[u8]) -> Option<&[u8]> {
        for named in self.named.iter().rev() {
            if named.name.as_slice() == name {
                return Some(named.bytes.as_slice());
            }
        }
        None
    }

    /// Gives the bytes of some words, one after the other, a name.
    pub fn add(&mut self, alloc: Global, name: &[u8], words: &[Vec<u8>]) -> Result<(), AllocError> {
        let mut bytes = Vec::new(alloc);
        for word in words {
            bytes.extend_from_slice(word)?;
        }
        let name = Vec::from_slice(alloc, name)?;
        self.named.push(Named { name, bytes })?;
        Ok(())
    }

    /// The bytes for which a word stands: its own where it is a text, else those of the file that it names behind `@`,
    /// those that have it as their name, or its own.
    ///
    /// # Errors
    /// The shelf's fault.
    fn meant<S: Shelf>(
        &self,
        alloc: Global,
        shelf: &mut S,
        word: &Word,
    ) -> Result<Vec<u8>, ReadAll> {
        let own = word.bytes.as_slice();
        if word.is_text {
            return Ok(Vec::from_slice(alloc, own)?);
        }
        if let [b'@', name @ ..] = own {
            let name = String::from_utf8_lossy(alloc, name)?;
            return read_all(alloc, shelf, name.as_str(), MOST_FILE_BYTES);
        }
        Ok(Vec::from_slice(alloc, self.find(own).unwrap_or(own))?)
    }

    /// The bytes for which each of some words stands.
    ///
    /// # Errors
    /// The shelf's fault.
    pub fn meant_by<S: Shelf>(
        &self,
        alloc: Global,
        shelf: &mut S,
        words: &[Word],
    ) -> Result<Vec<Vec<u8>>, ReadAll> {
        let mut meant = Vec::new(alloc);
        for word in words {
            let bytes = self.meant(alloc, shelf, word)?;
            if meant.push(bytes).is_err() {
                return Err(ReadAll::OutOfMemory);
            }
        }
        Ok(meant)
    }
}
