//! Where the registers stand, in bytes from the controller's first register (HDA 1.0a, 3.3), and how fast its clock
//! goes.

/// Global Capabilities: GCAP (HDA 1.0a, 3.3.2).
pub const GCAP: u16 = 0x00;
/// Minor Version: VMIN (HDA 1.0a, 3.3.3).
pub const VMIN: u16 = 0x02;
/// Major Version: VMAJ (HDA 1.0a, 3.3.4).
pub const VMAJ: u16 = 0x03;
/// Output Payload Capability: OUTPAY (HDA 1.0a, 3.3.5).
pub const OUTPAY: u16 = 0x04;
/// Input Payload Capability: INPAY (HDA 1.0a, 3.3.6).
pub const INPAY: u16 = 0x06;
/// Global Control: GCTL (HDA 1.0a, 3.3.7).
pub const GCTL: u16 = 0x08;
/// Wake Enable: WAKEEN (HDA 1.0a, 3.3.8).
pub const WAKEEN: u16 = 0x0C;
/// State Change Status: STATESTS (HDA 1.0a, 3.3.9).
pub const STATESTS: u16 = 0x0E;
/// Interrupt Control: INTCTL (HDA 1.0a, 3.3.14).
pub const INTCTL: u16 = 0x20;
/// Interrupt Status: INTSTS (HDA 1.0a, 3.3.15).
pub const INTSTS: u16 = 0x24;
/// Wall Clock Counter: WALCLK (HDA 1.0a, 3.3.16).
pub const WALCLK: u16 = 0x30;
/// CORB Lower Base Address: CORBLBASE (HDA 1.0a, 3.3.18).
pub const CORBLBASE: u16 = 0x40;
/// CORB Write Pointer: CORBWP (HDA 1.0a, 3.3.20).
pub const CORBWP: u16 = 0x48;
/// CORB Read Pointer: CORBRP (HDA 1.0a, 3.3.21).
pub const CORBRP: u16 = 0x4A;
/// CORB Control: CORBCTL (HDA 1.0a, 3.3.22).
pub const CORBCTL: u16 = 0x4C;
/// CORB Size: CORBSIZE (HDA 1.0a, 3.3.24).
pub const CORBSIZE: u16 = 0x4E;
/// RIRB Lower Base Address: RIRBLBASE (HDA 1.0a, 3.3.25).
pub const RIRBLBASE: u16 = 0x50;
/// RIRB Write Pointer: RIRBWP (HDA 1.0a, 3.3.27).
pub const RIRBWP: u16 = 0x58;
/// Response Interrupt Count: RINTCNT (HDA 1.0a, 3.3.28).
pub const RINTCNT: u16 = 0x5A;
/// RIRB Control: RIRBCTL (HDA 1.0a, 3.3.29).
pub const RIRBCTL: u16 = 0x5C;
/// RIRB Status: RIRBSTS (HDA 1.0a, 3.3.30).
pub const RIRBSTS: u16 = 0x5D;
/// RIRB Size: RIRBSIZE (HDA 1.0a, 3.3.31).
pub const RIRBSIZE: u16 = 0x5E;
/// The descriptor of the input stream (HDA 1.0a, 3.3.35).
pub const INPUT_DESCRIPTOR: u16 = 0x80;
/// The descriptor of the output stream.
pub const OUTPUT_DESCRIPTOR: u16 = 0xA0;
/// The first place after the descriptors.
pub const DESCRIPTORS_END: u16 = 0xC0;

/// Stream Descriptor Control: SDnCTL, in its descriptor as all that follow (HDA 1.0a, 3.3.35).
pub const SDCTL: u16 = 0x00;
/// Stream Descriptor Status: SDnSTS (HDA 1.0a, 3.3.36).
pub const SDSTS: u16 = 0x03;
/// Link Position in Current Buffer: SDnLPIB (HDA 1.0a, 3.3.37).
pub const SDLPIB: u16 = 0x04;
/// Cyclic Buffer Length: SDnCBL (HDA 1.0a, 3.3.38).
pub const SDCBL: u16 = 0x08;
/// Last Valid Index: SDnLVI (HDA 1.0a, 3.3.39).
pub const SDLVI: u16 = 0x0C;
/// FIFO Size: SDnFIFOS (HDA 1.0a, 3.3.40).
pub const SDFIFOS: u16 = 0x10;
/// Format: SDnFMT (HDA 1.0a, 3.3.41).
pub const SDFMT: u16 = 0x12;
/// Buffer Descriptor List Pointer, Lower: SDnBDPL, also written BDLPL (HDA 1.0a, 3.3.42).
pub const SDBDPL: u16 = 0x18;

/// The ticks of the wall clock in a link frame: 24 MHz over 48 kHz (HDA 1.0a, 3.3.16).
pub const TICKS_PER_FRAME: u32 = 500;
