//! A piece of a file, read part by part.
ghost use Rattle.std.specs.Prelude.{◌≡◌, ◌≢◌, ℕ, ◌+◌, ◌<◌, ◌≤◌, ◌^◌, List, length, take, drop, Some, None};
ghost use Rattle.hda_outside.specs.Counts.{Rose};
ghost use Rattle.hda_outside.specs.Shelf.{Files, file_of};
ghost use Rattle.hda_outside.specs.Pieces.{cut_of, IsCutShort, HoldsFront};

use crate::fault::Fault;
use crate::shelf::Shelf;
use std::alloc::Global;

/// Why a piece of a file was cut.
#[derive(Clone, Copy, Debug, PartialEq, Eq)]
pub enum Cut {
    /// The shelf failed, and its count of faults under the file's name rose.
    Failed,
    /// At this place there was no byte more.
    Short(u64),
    /// There was no memory for it.
    OutOfMemory,
}

impl From<Fault> for Cut {
    ghost from_gives = { λ fault e. e ≡ cut_of fault };

    fn from(fault: Fault) -> Cut {
        match fault {
            Fault::Failed => Cut::Failed,
            Fault::OutOfMemory => Cut::OutOfMemory,
        }
    }
}

/// How much of a piece of a file was read.
#[derive(Clone, Copy, Debug, PartialEq, Eq)]
pub struct Piece {
    /// How many of its bytes were read, from its first on.
    pub count: usize,
    /// Why it has no more, where that are not all.
    pub cut: Option<Cut>,
}

/// Reads the bytes of the file `name` from place `from` on, as many as `buf` has, to the front of it. It asks the shelf
/// until it has them all, and takes no memory of its own. What `buf` holds beyond them is left open.
///
/// The piece is cut with `Failed` where the shelf failed, with `Short` and the place at which the shelf answered that
/// there was no byte more, and with `OutOfMemory` where the shelf answered that. It then has the bytes before that,
/// maybe none.
pub fn read_piece<S: Shelf>(
    alloc: Global,
    shelf: &mut S,
    name: &str,
    from: u64,
    buf: &mut [u8],
) -> Piece
    requires small { from + length buf.old < 2 ^ 63 }
    ensures told { S.told shelf.new ≡ S.told shelf.old }

    // All is read, or the piece was cut.
    ensures within { result.count ≤ length buf.new }
    ensures all { result.cut ≡ None → result.count ≡ length buf.new }
    ensures early { result.cut ≢ None → result.count < length buf.new }
    ensures front { (files : Files) → S.told shelf.old ≡ Some files → (file : List ℕ)
        → file_of files name.now ≡ Some file
        → HoldsFront file from buf.new result.count }
    ensures there { (files : Files) → S.told shelf.old ≡ Some files → file_of files name.now ≡ None → result.count ≡ 0 }

    // No more bytes are given than that.
    ensures given { S.given shelf.new ≤ S.given shelf.old + result.count }
    ensures given_rises { S.given shelf.old ≤ S.given shelf.new }

    ensures failed { result.cut ≡ Some Cut.Failed → Rose (S.faults shelf.old name.now) (S.faults shelf.new name.now) }
    ensures short { (place : ℕ) → result.cut ≡ Some (Cut.Short place)
        → IsCutShort from (length buf.new) result.count place (S.empties shelf.old name.now)
        (S.empties shelf.new name.now) }
    ensures not_short { ((place : ℕ) → result.cut ≢ Some (Cut.Short place))
        → S.empties shelf.new name.now ≡ S.empties shelf.old name.now }
    ensures whole { (files : Files) → S.told shelf.old ≡ Some files → (file : List ℕ)
        → file_of files name.now ≡ Some file
        → from + length buf.new ≤ length file → (place : ℕ) → result.cut ≢ Some (Cut.Short place) }

    // It asks under this name alone, and no count falls.
    ensures asked { (other : List ℕ) → other ≢ name.now → S.asked shelf.new other ≡ S.asked shelf.old other }
    ensures later { (other : List ℕ) → S.faults shelf.old other ≤ S.faults shelf.new other }
    ensures empties_later { (other : List ℕ) → S.empties shelf.old other ≤ S.empties shelf.new other }
{
    let mut count = 0;
    while count < buf.len() {
        let at = from + count as u64;
        let n = match shelf.read_at(alloc, name, at, &mut buf[count..]) {
            Ok(n) => n,
            Err(fault) => {
                return Piece {
                    count,
                    cut: Some(Cut::from(fault)),
                };
            }
        };
        if n == 0 {
            return Piece {
                count,
                cut: Some(Cut::Short(at)),
            };
        }
        count += n;
    }
    Piece { count, cut: None }
}
