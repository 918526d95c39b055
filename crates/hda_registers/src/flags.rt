//! The bits of the registers that have names (HDA 1.0a, 3.3), in the word of four bytes in which they stand.

ghost use Rattle.std.specs.Prelude.{⊤, [], ◌∷◌, codes};

use bitflags::{Flag, Flags, bitflag_items};

/// The word at 08h: GCTL (HDA 1.0a, 3.3.7).
#[derive(Clone, Copy, Debug, PartialEq, Eq)]
pub(crate) struct GlobalControl(pub(crate) u32);

bitflag_items! {
    impl GlobalControl: u32 {
        const CRST = 0x1;
        const UNSOL = 0x100;
    }
}

impl Flags for GlobalControl {
    type Bits = u32;

    ghost exact = { ⊤ };

    ghost table = { (codes "CRST", 0x1) ∷ (codes "UNSOL", 0x100) ∷ [] };

    ghost set_of = { λ control. control.0 };

    fn flags<'a>() -> &'a [Flag<GlobalControl>] {
        GlobalControl::FLAGS
    }

    fn bits(&self) -> u32 {
        self.0
    }

    fn from_bits_retain(bits: u32) -> GlobalControl {
        GlobalControl(bits)
    }
}

/// The word at 20h: INTCTL (HDA 1.0a, 3.3.14).
#[derive(Clone, Copy, Debug, PartialEq, Eq)]
pub(crate) struct InterruptControl(pub(crate) u32);

bitflag_items! {
    impl InterruptControl: u32 {
        const INPUT = 0x1;
        const OUTPUT = 0x2;
        const CIE = 0x4000_0000;
        const GIE = 0x8000_0000;
    }
}

impl Flags for InterruptControl {
    type Bits = u32;

    ghost exact = { ⊤ };

    ghost table = { (codes "INPUT", 0x1) ∷ (codes "OUTPUT", 0x2) ∷ (codes "CIE", 0x4000_0000) ∷
        (codes "GIE", 0x8000_0000) ∷ [] };

    ghost set_of = { λ control. control.0 };

    fn flags<'a>() -> &'a [Flag<InterruptControl>] {
        InterruptControl::FLAGS
    }

    fn bits(&self) -> u32 {
        self.0
    }

    fn from_bits_retain(bits: u32) -> InterruptControl {
        InterruptControl(bits)
    }
}

/// The word at 4Ch: CORBCTL (HDA 1.0a, 3.3.22).
#[derive(Clone, Copy, Debug, PartialEq, Eq)]
pub(crate) struct CorbControl(pub(crate) u32);

bitflag_items! {
    impl CorbControl: u32 {
        const CMEIE = 0x1;
        const CORBRUN = 0x2;
    }
}

impl Flags for CorbControl {
    type Bits = u32;

    ghost exact = { ⊤ };

    ghost table = { (codes "CMEIE", 0x1) ∷ (codes "CORBRUN", 0x2) ∷ [] };

    ghost set_of = { λ control. control.0 };

    fn flags<'a>() -> &'a [Flag<CorbControl>] {
        CorbControl::FLAGS
    }

    fn bits(&self) -> u32 {
        self.0
    }

    fn from_bits_retain(bits: u32) -> CorbControl {
        CorbControl(bits)
    }
}

/// The word at 5Ch: RIRBCTL and RIRBSTS (HDA 1.0a, 3.3.29 and 3.3.30).
#[derive(Clone, Copy, Debug, PartialEq, Eq)]
pub(crate) struct RirbControl(pub(crate) u32);

bitflag_items! {
    impl RirbControl: u32 {
        const RINTCTL = 0x1;
        const RIRBDMAEN = 0x2;
        const RIRBOIC = 0x4;
        const RINTFL = 0x100;
    }
}

impl Flags for RirbControl {
    type Bits = u32;

    ghost exact = { ⊤ };

    ghost table = { (codes "RINTCTL", 0x1) ∷ (codes "RIRBDMAEN", 0x2) ∷ (codes "RIRBOIC", 0x4) ∷ (codes "RINTFL", 0x100)
        ∷ [] };

    ghost set_of = { λ control. control.0 };

    fn flags<'a>() -> &'a [Flag<RirbControl>] {
        RirbControl::FLAGS
    }

    fn bits(&self) -> u32 {
        self.0
    }

    fn from_bits_retain(bits: u32) -> RirbControl {
        RirbControl(bits)
    }
}

/// The first word of a stream descriptor: CTL and STS (HDA 1.0a, 3.3.35 and 3.3.36). Bits 23:20 are the stream's tag.
#[derive(Clone, Copy, Debug, PartialEq, Eq)]
pub(crate) struct StreamControl(pub(crate) u32);

bitflag_items! {
    impl StreamControl: u32 {
        const SRST = 0x1;
        const RUN = 0x2;
        const IOCE = 0x4;
        const FEIE = 0x8;
        const DEIE = 0x10;
        const BCIS = 0x400_0000;
        const FIFOE = 0x800_0000;
        const DESE = 0x1000_0000;
        const FIFORDY = 0x2000_0000;
    }
}

impl Flags for StreamControl {
    type Bits = u32;

    ghost exact = { ⊤ };

    ghost table = { (codes "SRST", 0x1) ∷ (codes "RUN", 0x2) ∷ (codes "IOCE", 0x4) ∷ (codes "FEIE", 0x8)
        ∷ (codes "DEIE", 0x10) ∷ (codes "BCIS", 0x400_0000) ∷ (codes "FIFOE", 0x800_0000)
        ∷ (codes "DESE", 0x1000_0000) ∷ (codes "FIFORDY", 0x2000_0000) ∷ [] };

    ghost set_of = { λ control. control.0 };

    fn flags<'a>() -> &'a [Flag<StreamControl>] {
        StreamControl::FLAGS
    }

    fn bits(&self) -> u32 {
        self.0
    }

    fn from_bits_retain(bits: u32) -> StreamControl {
        StreamControl(bits)
    }
}
