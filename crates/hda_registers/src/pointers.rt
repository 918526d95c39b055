//! The words of the pointers of CORB and RIRB (HDA 1.0a, 3.3.20, 3.3.21, 3.3.27 and 3.3.28).
ghost use Rattle.std.specs.Prelude.{◌≡◌, bit_and};
ghost use Rattle.hda_registers.specs.Table.{CorbWritePointer, CorbReadPointer, CorbPointerReset, RirbWritePointer};
ghost use Rattle.hda_registers.specs.Table.{ResponseCount, global_row};
ghost use Rattle.hda_registers.specs.Access.{part, ruled};

use crate::accesses::Access;
use crate::masks::{CORBRPRST, READ_POINTER, RESPONSE_COUNT, RIRBWPRST, WRITE_POINTER};
use crate::shapes::Shape;

/// What a write leaves of CORBWP, which is kept modulo the size, and of CORBRP, whose pointer is 0 where bit 15 is
/// written 1.
pub(crate) fn corb_pointers_after(old: u32, shape: Shape, access: Access) -> u32
    requires { bit_and access.written access.covered ≡ access.written }
    ensures write_pointer { part 0 8 result ≡ ruled access (global_row shape CorbWritePointer) (part 0 8 old) }
    ensures read_pointer { part 16 8 result ≡ ruled access (global_row shape CorbReadPointer) (part 16 8 old) }
    ensures pointer_reset { part 31 1 result ≡ ruled access (global_row shape CorbPointerReset) (part 31 1 old) }
{
    let word = corb_pointers_kept(old, shape, access);
    if access.written & CORBRPRST == 0 {
        word
    } else {
        word & !READ_POINTER
    }
}

/// The same, without the effect of CORBRP's bit 15.
fn corb_pointers_kept(old: u32, shape: Shape, access: Access) -> u32
    requires { bit_and access.written access.covered ≡ access.written }
    ensures write_pointer { part 0 8 result ≡ ruled access (global_row shape CorbWritePointer) (part 0 8 old) }
    ensures read_pointer { part 16 8 result ≡ part 16 8 old }
    ensures pointer_reset { part 31 1 result ≡ ruled access (global_row shape CorbPointerReset) (part 31 1 old) }
{
    let word = access.leaves(old, WRITE_POINTER | CORBRPRST, 0);
    if access.covered & WRITE_POINTER == 0 {
        word
    } else {
        word & !WRITE_POINTER | (word & WRITE_POINTER) % u32::from(shape.corb.entries())
    }
}

/// What a write leaves of RIRBWP, which is 0 where bit 15 is written 1, and of RINTCNT.
pub(crate) fn rirb_pointers_after(old: u32, shape: Shape, access: Access) -> u32
    requires { bit_and access.written access.covered ≡ access.written }
    ensures write_pointer { part 0 8 result ≡ ruled access (global_row shape RirbWritePointer) (part 0 8 old) }
    ensures count { part 16 8 result ≡ ruled access (global_row shape ResponseCount) (part 16 8 old) }
{
    let word = access.leaves(old, RESPONSE_COUNT, 0);
    if access.written & RIRBWPRST == 0 {
        word
    } else {
        word & !WRITE_POINTER
    }
}
