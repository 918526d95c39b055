//! What a caller of the registers names: widths, shapes, events, and what a write did.
ghost use Rattle.std.specs.Prelude.{◌≡◌};
ghost use Rattle.hda_registers.specs.Fields.{entries_of};

/// How many bytes an access has.
#[derive(Clone, Copy, Debug, PartialEq, Eq)]
pub enum Width {
    One,
    Two,
    Four,
}

/// The number of entries of a ring of commands or responses (HDA 1.0a, 3.3.24 and 3.3.31).
#[derive(Clone, Copy, Debug, PartialEq, Eq)]
pub enum RingSize {
    /// 2 entries.
    Two,
    /// 16 entries.
    Sixteen,
    /// 256 entries.
    Full,
}

impl RingSize {
    /// How many entries the ring has: 2, 16 or 256.
    pub fn entries(self) -> u16
        ensures { result ≡ entries_of self }
    {
        match self {
            RingSize::Two => 2,
            RingSize::Sixteen => 16,
            RingSize::Full => 256,
        }
    }
}

/// What differs from one controller to another.
#[derive(Clone, Copy, Debug, PartialEq, Eq)]
pub struct Shape {
    /// The size of each stream's FIFO in bytes.
    pub fifo: u16,
    /// The size of the CORB.
    pub corb: RingSize,
    /// The size of the RIRB.
    pub rirb: RingSize,
    /// The codecs that are there: bit n for the codec with address n, 0 to 14.
    pub codecs: u16,
}

/// What a write did beyond the registers. Place 0 of the pairs is the input stream, place 1 the output stream.
#[derive(Clone, Copy, Debug, PartialEq, Eq)]
pub struct Effects {
    /// CRST was written 0, whatever it was.
    pub reset: bool,
    /// CRST rose from 0 to 1.
    pub left_reset: bool,
    /// SRST was written 1, whatever it was, while CRST is 1.
    pub stream_reset: [bool; 2],
    /// RUN rose from 0 to 1.
    pub started: [bool; 2],
    /// RUN fell from 1 to 0, also by a reset.
    pub stopped: [bool; 2],
}

/// An event of the device that sets a status bit. A stream is 0 for input and 1 for output.
#[derive(Clone, Copy, Debug, PartialEq, Eq)]
pub enum Raise {
    /// The codec with this address asks for attention: its bit of STATESTS.
    Codec(u8),
    /// Responses were written: RINTFL.
    Response,
    /// The last byte of a buffer that asks for an interrupt was fetched: BCIS of the stream.
    BufferDone(u8),
    /// The FIFO held too little: FIFOE of the stream.
    FifoError(u8),
    /// The stream can't go on: DESE of the stream is set and its RUN cleared.
    DescriptorError(u8),
}

/// A field that only the device moves, with its new value. A stream is 0 for input and 1 for output.
#[derive(Clone, Copy, Debug, PartialEq, Eq)]
pub enum Moved {
    /// The read pointer of the CORB.
    CorbRp(u8),
    /// The write pointer of the RIRB.
    RirbWp(u8),
    /// The position in the buffer of a stream, in bytes: LPIB.
    Lpib(u8, u32),
    /// Whether the FIFO of a stream holds enough: FIFORDY.
    Ready(u8, bool),
}
