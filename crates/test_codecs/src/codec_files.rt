//! Codec files for the tests, and the codecs that they describe.
ghost use Rattle.std.specs.Prelude.{IfOk, IfSome};
ghost use Rattle.hda_files.specs.Machines.{IsSoundCodec};

use hda_files::{CodecFile, read_machine};
use std::alloc::Global;
use std::test::Fail;

/// The least codec with a route: the converter 02, the mixer 0C [02, 0B] and the pin 14 [0C].
pub const LEAST: &str = "
[[codec]]
address = 0
vendor = 0x10EC0889
[[codec.node]]
nid = 0x02
caps = 0x00000001
[[codec.node]]
nid = 0x0C
caps = 0x0020010B
amp_in = 0x80000000
list = [0x02, 0x0B]
[[codec.node]]
nid = 0x14
caps = 0x0040010D
amp_out = 0x80000000
pin_caps = 0x10
default = 0x01014010
list = [0x0C]
";

/// A codec in the manner of a desktop sound chip: each pin lists the mixers 0C to 0F by a range.
pub const LARGE: &str = "
[[codec]]
address = 0
vendor = 0x10EC0888
power = 0x0F
first = 0x02
count = 38
node = [
    {nid = 0x02, caps = 0x41D, pcm = 0xE0560, formats = 0x1, amp_out = 0x25757, power = 0xF},
    {nid = 0x03, caps = 0x41D, pcm = 0xE0560, formats = 0x1, amp_out = 0x25757, power = 0xF},
    {nid = 0x04, caps = 0x41D, pcm = 0xE0560, formats = 0x1, amp_out = 0x25757, power = 0xF},
    {nid = 0x05, caps = 0x41D, pcm = 0xE0560, formats = 0x1, amp_out = 0x25757, power = 0xF},
    {nid = 0x06, caps = 0x211, pcm = 0xE0560, formats = 0x1},
    {nid = 0x08, caps = 0x10010B, amp_in = 0x80051F17, list = [0x23]},
    {nid = 0x09, caps = 0x10010B, amp_in = 0x80051F17, list = [0x22]},
    {nid = 0x0B, caps = 0x20010B, amp_in = 0x80051F17, list = [0x18, 0x19, 0x1A, 0x1B, 0x14, 0x15, 0x16, 0x17]},
    {nid = 0x0C, caps = 0x20010B, amp_in = 0x80000000, list = [0x02, 0x0B]},
    {nid = 0x0D, caps = 0x20010B, amp_in = 0x80000000, list = [0x03, 0x0B]},
    {nid = 0x0E, caps = 0x20010B, amp_in = 0x80000000, list = [0x04, 0x0B]},
    {nid = 0x0F, caps = 0x20010B, amp_in = 0x80000000, list = [0x05, 0x0B]},
    {nid = 0x14, caps = 0x40018D, amp_out = 0x80000000, pin_caps = 0x10034, default = 0x1014010, list = [0x0C, 0x8F]},
    {nid = 0x15, caps = 0x40018D, amp_out = 0x80000000, pin_caps = 0x34, default = 0x1011012, list = [0x0C, 0x8F]},
    {nid = 0x16, caps = 0x40018D, amp_out = 0x80000000, pin_caps = 0x34, default = 0x1016011, list = [0x0C, 0x8F]},
    {nid = 0x17, caps = 0x40018D, amp_out = 0x80000000, pin_caps = 0x34, default = 0x1012014, list = [0x0C, 0x8F]},
    {nid = 0x18, caps = 0x40008B, amp_in = 0x2F0300, pin_caps = 0x24, default = 0x1A19030},
    {nid = 0x19, caps = 0x40008B, amp_in = 0x2F0300, pin_caps = 0x24, default = 0x2A19040},
    {nid = 0x1A, caps = 0x40008B, amp_in = 0x2F0300, pin_caps = 0x24, default = 0x1813050},
    {nid = 0x1B, caps = 0x40018D, amp_out = 0x80000000, pin_caps = 0x3C, default = 0x2214020, list = [0x0C, 0x8F]},
    {nid = 0x1C, caps = 0x400001, pin_caps = 0x20, default = 0x411111F0},
    {nid = 0x1D, caps = 0x400001, pin_caps = 0x20, default = 0x411111F0},
    {nid = 0x1E, caps = 0x400301, pin_caps = 0x10, default = 0x1451160, list = [0x06]},
    {nid = 0x1F, caps = 0x400001, pin_caps = 0x20, default = 0x411111F0},
    {nid = 0x22, caps = 0x20010B, amp_in = 0x80000000, list = [0x18, 0x19, 0x1A, 0x1B, 0x14, 0x15, 0x16, 0x17, 0x0B]},
    {nid = 0x23, caps = 0x20010B, amp_in = 0x80000000, list = [0x18, 0x19, 0x1A, 0x1B, 0x14, 0x15, 0x16, 0x17, 0x0B]},
]
";

/// The codec that a codec file describes.
pub fn read_codec(alloc: Global, text: &str) -> Result<CodecFile, Fail>
    ensures { IfOk result IsSoundCodec }
{
    let machine = read_machine(alloc, text.as_bytes())?;
    let mut codecs = machine.codecs.into_vec();
    Ok(codecs.pop().ok_or("a machine has a codec")?)
}

/// The codec that a codec file describes by its bytes, if the file is good; the last one by its address where there are
/// more.
pub fn codec_of(alloc: Global, bytes: &[u8]) -> Option<CodecFile>
    ensures { IfSome result IsSoundCodec }
{
    let Ok(machine) = read_machine(alloc, bytes) else {
        return None;
    };
    let mut codecs = machine.codecs.into_vec();
    codecs.pop()
}
