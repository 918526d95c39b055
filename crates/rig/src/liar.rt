//! A rig whose driver is told what is not so.
ghost use Rattle.std.specs.Prelude.{◌≡◌, ◌==◌, option_copied};
ghost use Rattle.std.specs.List.{find};
ghost use Rattle.rig.specs.Lies as spec;

mod accesses;

use crate::rig::Rig;

/// A machine in motion of whose memory a driver is told what is not so: in the place of the first four bytes of some of
/// the pieces that it reads stands another number, lowest byte first. Registers are read as they are. It tells nothing
/// of its world. This project's own.
#[derive(Drop)]
pub struct Liar {
    rig: Rig,
    /// The numbers of pieces, counted from 0, each with what is told of it.
    lies: Vec<(u32, u32)>,
    /// How many pieces were read, or 2^64 - 1 where they are more.
    reads: u64,
}

impl Liar {
    ghost use Rattle.std.specs.Prelude.{◌≡◌};
    ghost use Rattle.std.specs.Borrow.{sem};
    ghost use Rattle.rig.specs.Liars.{rig_of, lies_of, reads_of};
    ghost use Rattle.rig.specs.Lending.{LendsRig};

    /// A liar over this rig. Each lie has the number of a piece of memory, counted from 0 over all that are read, and
    /// the number that is told in the place of its first four bytes, or of all where it has fewer. Of two lies for one
    /// piece the first is told. It takes no memory.
    pub fn new(rig: Rig, lies: Vec<(u32, u32)>) -> Liar
        ensures rig { rig_of result ≡ rig }
        ensures lies { lies_of result ≡ lies.items }
        ensures reads { reads_of result ≡ 0 }
    {
        Liar {
            rig,
            lies,
            reads: 0,
        }
    }

    /// The rig, for its steps and for the beginning and the end of its runs. It takes no memory.
    pub fn rig(&mut self) -> &mut Rig
        ensures* writes_back { sem 𝓛 (LendsRig self.entry result) }
        ensures value { result.now ≡ rig_of self.old }
    {
        &mut self.rig
    }
}

/// The first lie for the piece with this number.
fn lie_for(lies: &[(u32, u32)], number: u64) -> Option<&(u32, u32)>
    ensures { option_copied result ≡ find (λ lie. lie.0 == number) lies.now }
{
    lies.iter().find(|lie| u64::from(lie.0) == number)
}

/// Puts bytes in the place of the first ones of a piece, as many as it has.
fn put_first(bytes: &[u8], piece: &mut [u8])
    ensures { piece.new ≡ spec.overwritten bytes.now piece.old }
{
    let most = bytes.len().min(piece.len());
    piece[..most].copy_from_slice(&bytes[..most]);
}

/// Tells of the piece with this number what the first lie for it says, if there is one.
fn tell_lie(lies: &[(u32, u32)], number: u64, piece: &mut [u8])
    ensures { piece.new ≡ spec.told_of_piece lies.now number piece.old }
{
    match lie_for(lies, number) {
        Some(lie) => put_first(&lie.1.to_le_bytes(), piece),
        None => {}
    }
}
