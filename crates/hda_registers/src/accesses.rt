//! An access as the word of four bytes that it lies in, and the bits there.
ghost use Rattle.std.specs.Prelude.{◌≡◌, ◌<◌, ◌%◌, ◌/◌, ◌^◌, bit_and};
ghost use Rattle.hda_registers.specs.Access.{access_of, bytes_of};
ghost use Rattle.hda_registers.specs.Words.{left_by};

use crate::shapes::Width;

impl Width {
    ghost use Rattle.std.specs.Prelude.{◌≡◌, ◌-◌, ◌^◌, ◌*◌};
    ghost use Rattle.hda_registers.specs.Access.{bytes_of};

    /// How many bytes it is: 1, 2 or 4.
    pub fn bytes(self) -> u16
        ensures { result ≡ bytes_of self }
    {
        match self {
            Width::One => 1,
            Width::Two => 2,
            Width::Four => 4,
        }
    }

    /// The lowest bits of a word, as many as it has.
    fn mask(self) -> u32
        ensures { result ≡ 2 ^ (8 * bytes_of self) - 1 }
    {
        match self {
            Width::One => 0xFF,
            Width::Two => 0xFFFF,
            Width::Four => 0xFFFF_FFFF,
        }
    }
}

/// An access at a multiple of its width: all of it lies in one word of four bytes at a multiple of four.
#[derive(Clone, Copy)]
pub(crate) struct Access {
    /// The number of the word: its place divided by four.
    pub(crate) word: u16,
    /// The bits of the word that the access covers.
    pub(crate) covered: u32,
    /// What it writes there; 0 in all other bits.
    pub(crate) written: u32,
}

impl Access {
    /// The access with this width at this place, which writes the low bits of the value.
    pub(crate) fn of(at: u16, width: Width, value: u32) -> Access
        requires { at % bytes_of width ≡ 0 }
        ensures value { result ≡ access_of at width value }
        ensures inside { bit_and result.written result.covered ≡ result.written }
    {
        let shift = 8 * (at % 4);
        Access {
            word: at / 4,
            covered: width.mask() << shift,
            written: (value & width.mask()) << shift,
        }
    }

    /// What a write leaves in a word: the covered bits of `kept` as written, and 0 in those of `cleared` that are
    /// written 1.
    pub(crate) fn leaves(self, old: u32, kept: u32, cleared: u32) -> u32
        ensures { result ≡ left_by self kept cleared old }
    {
        old & !(self.covered & kept) & !(self.written & cleared) | self.written & kept
    }
}
