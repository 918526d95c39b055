//! Blocks of a pool: owned, lent, and seen through a window.
ghost use Rattle.dma_pool.specs.declared.region.TheConstants.{REGION_BYTES};
ghost use Rattle.std.specs.Prelude.{◌≡◌, ◌≤◌, ◌<◌, ◌+◌, ◌-◌, ◌%◌};

/// Bytes of the region that have one owner. A block is not copied and not let go: it goes back to its pool.
#[derive(Debug)]
pub struct Block {
    address: u32,
    bytes: u32,
    pub ghost aligned: { address % 128 ≡ 0 },
    pub ghost some: { 1 ≤ bytes },
    pub ghost inside: { address + bytes ≤ REGION_BYTES },
}

impl Block {
    /// A block of the region.
    pub(crate) fn new(address: u32, bytes: u32) -> Block
        requires aligned { address % 128 ≡ 0 }
        requires some { 1 ≤ bytes }
        requires inside { address + bytes ≤ REGION_BYTES }
        ensures address { result.address ≡ address }
        ensures bytes { result.bytes ≡ bytes }
    {
        Block { address, bytes }
    }

    /// The address of the first byte, a multiple of 128.
    pub fn address(&self) -> u32
        ensures value { result ≡ self.now.address }
        ensures aligned { result % 128 ≡ 0 }
        ensures inside { result + self.now.bytes ≤ REGION_BYTES }
    {
        self.address
    }

    /// How many bytes were asked for, at least 1.
    pub fn bytes(&self) -> u32
        ensures value { result ≡ self.now.bytes }
        ensures some { 1 ≤ result }
    {
        self.bytes
    }

    /// Lends the block to a device. The owner then writes through windows alone, until it takes the block back.
    pub fn lend(self) -> Lent
        ensures address { result.address ≡ self.address }
        ensures bytes { result.bytes ≡ self.bytes }
    {
        let Block { address, bytes } = self;
        Lent { address, bytes }
    }

    /// The address and the bytes of a block that ends here.
    pub(crate) fn end(self) -> (u32, u32)
        ensures { result ≡ (self.address, self.bytes) }
    {
        let Block { address, bytes } = self;
        (address, bytes)
    }
}

/// A block that is lent to a device.
#[derive(Debug)]
pub struct Lent {
    address: u32,
    bytes: u32,
    pub ghost aligned: { address % 128 ≡ 0 },
    pub ghost some: { 1 ≤ bytes },
    pub ghost inside: { address + bytes ≤ REGION_BYTES },
}

impl Lent {
    /// The address of the first byte, a multiple of 128.
    pub fn address(&self) -> u32
        ensures value { result ≡ self.now.address }
        ensures aligned { result % 128 ≡ 0 }
        ensures inside { result + self.now.bytes ≤ REGION_BYTES }
    {
        self.address
    }

    /// How many bytes were asked for, at least 1.
    pub fn bytes(&self) -> u32
        ensures value { result ≡ self.now.bytes }
        ensures some { 1 ≤ result }
    {
        self.bytes
    }

    /// Takes the block back.
    pub fn back(self) -> Block
        ensures address { result.address ≡ self.address }
        ensures bytes { result.bytes ≡ self.bytes }
    {
        let Lent { address, bytes } = self;
        Block { address, bytes }
    }

    /// A window on the linear positions `from` to `to`, where `base` is that of the block's first byte.
    pub fn window(&mut self, base: u64, from: u64, to: u64) -> Window<'_>
        requires begins { base ≤ from }
        requires ascends { from ≤ to }
        requires ends { to ≤ base + self.old.bytes }
        ensures base { result.base ≡ base }
        ensures from { result.from ≡ from }
        ensures to { result.to ≡ to }
        ensures same_address { result.lent.now.address ≡ self.entry.now.address }
        ensures same_bytes { result.lent.now.bytes ≡ self.entry.now.bytes }
        ensures same_reference { result.lent.ghost_name ≡ self.entry.ghost_name }
    {
        Window {
            lent: self,
            base,
            from,
            to,
        }
    }
}

/// The part of a lent block that its owner may write now. A window is not copied and not let go: it is closed.
pub struct Window<'a> {
    lent: &'a mut Lent,
    base: u64,
    from: u64,
    to: u64,
    pub ghost begins: { base ≤ from },
    pub ghost ascends: { from ≤ to },
    pub ghost ends: { to ≤ base + lent.now.bytes },
}

impl Window<'_> {
    /// The first linear position.
    pub fn from(&self) -> u64
        ensures { result ≡ self.now.from }
    {
        self.from
    }

    /// The linear position after the last.
    pub fn to(&self) -> u64
        ensures { result ≡ self.now.to }
    {
        self.to
    }

    /// The address of a linear position of the window, or of its end.
    pub fn place(&self, at: u64) -> u32
        requires begins { self.now.from ≤ at }
        requires ends { at ≤ self.now.to }
        ensures value { result ≡ self.now.lent.now.address + (at - self.now.base) }
        ensures inside { result ≤ self.now.lent.now.address + self.now.lent.now.bytes }
    {
        self.lent.address + (at - self.base) as u32
    }

    /// Closes the window. The block stays lent.
    pub fn close(self)
        ensures { self.exit.0.now ≡ self.entry.lent.now }
    {
        let Window {
            lent: _,
            base: _,
            from: _,
            to: _,
        } = self;
    }
}
