//! The list of buffers that an output stream fetches from and an input stream stores into (HDA 1.0a, 3.6.2 and 3.6.3).

/// The bytes of an entry of a list of buffers (HDA 1.0a, 3.6.3).
pub const BUFFER_ENTRY_BYTES: u32 = 16;

/// What each buffer's address is a multiple of (HDA 1.0a, 3.6.3).
pub const BUFFER_ALIGNMENT: u64 = 128;

/// A buffer as its entry of the list gives it (HDA 1.0a, 3.6.3).
#[derive(Clone, Copy, Debug, PartialEq, Eq)]
pub struct Buffer {
    /// The address of its first byte.
    pub address: u64,
    /// How many bytes it has.
    pub bytes: u32,
    /// IOC: an interrupt is asked for when its last byte was fetched, or stored.
    pub interrupts: bool,
}

/// Where a stream is in its list of buffers.
#[derive(Clone, Copy, Debug, PartialEq, Eq)]
pub struct ListPlace {
    /// The entry in use, or else the one that is read next.
    pub index: u8,
    /// The buffer in use. Its entry is read when its first byte is needed, and kept until its last byte was fetched, or
    /// stored; this project's own.
    pub buffer: Option<Buffer>,
    /// How many bytes of it were fetched, or stored.
    pub fetched: u32,
}
