//! The controller's own registers, below the stream descriptors (HDA 1.0a, 3.3.2 to 3.3.33).
ghost use Rattle.std.specs.Prelude.{◌≡◌, ◌==◌, ◌≤◌, ◌+◌, ◌*◌, ◌%◌, ◌/◌, ◌^◌, nat_lt, bit_and, bit_or, ℕ};
ghost use Rattle.hda_registers.specs.Access.{part, global_shown, global_written};
ghost use Rattle.hda_registers.specs.Fields.{is_out_of_reset, reset_global};
ghost use Rattle.hda_registers.specs.Status.{controller_asks};
ghost use Rattle.hda_registers.specs.Table.{size_code};

use crate::accesses::Access;
use crate::conditions::both;
use crate::flags::{CorbControl, GlobalControl, InterruptControl, RirbControl};
use crate::masks::{BASE, CORBRPRST, READ_POINTER, RESPONSE_COUNT, WRITE_POINTER};
use crate::places::{self, TICKS_PER_FRAME};
use crate::pointers::{corb_pointers_after, rirb_pointers_after};
use crate::shapes::{RingSize, Shape};
use bitflags::Flags;
use std::marker::Model;

/// The word of GCAP, VMIN and VMAJ.
const VERSION_AT: u16 = places::GCAP / 4;
/// The word of OUTPAY and INPAY.
const PAYLOADS_AT: u16 = places::OUTPAY / 4;
/// The word of GCTL.
const CONTROL_AT: u16 = places::GCTL / 4;
/// The word of WAKEEN and STATESTS.
const WAKE_AT: u16 = places::WAKEEN / 4;
/// The word of INTCTL.
const INTERRUPTS_AT: u16 = places::INTCTL / 4;
/// The word of INTSTS.
const STATUS_AT: u16 = places::INTSTS / 4;
/// The word of WALCLK.
const CLOCK_AT: u16 = places::WALCLK / 4;
/// The word of CORBLBASE.
const CORB_BASE_AT: u16 = places::CORBLBASE / 4;
/// The word of CORBWP and CORBRP.
const CORB_POINTERS_AT: u16 = places::CORBWP / 4;
/// The word of CORBCTL and CORBSIZE.
const CORB_CONTROL_AT: u16 = places::CORBCTL / 4;
/// The word of RIRBLBASE.
const RIRB_BASE_AT: u16 = places::RIRBLBASE / 4;
/// The word of RIRBWP and RINTCNT.
const RIRB_POINTERS_AT: u16 = places::RIRBWP / 4;
/// The word of RIRBCTL, RIRBSTS and RIRBSIZE.
const RIRB_CONTROL_AT: u16 = places::RIRBCTL / 4;

/// GCAP with one input and one output stream, then version 1.0.
const VERSION_WORD: u32 = 0x0100_1100;
/// OUTPAY, and INPAY in the upper half.
const PAYLOADS_WORD: u32 = 0x001D_003C;
/// The bits of GCTL that are kept.
const CONTROL_BITS: u32 = GlobalControl::CRST.0 | GlobalControl::UNSOL.0;
/// The bits of WAKEEN, one per codec.
const WAKE_BITS: u32 = 0x7FFF;
/// The bits of STATESTS, one per codec.
const STATE_BITS: u32 = 0x7FFF_0000;
/// The bits of INTCTL that are kept.
const INTERRUPT_BITS: u32 = InterruptControl::GIE.0
    | InterruptControl::CIE.0
    | InterruptControl::OUTPUT.0
    | InterruptControl::INPUT.0;
/// The bits of CORBCTL that are kept.
const CORB_BITS: u32 = CorbControl::CMEIE.0 | CorbControl::CORBRUN.0;
/// The bits of RIRBCTL that are kept.
const RIRB_BITS: u32 = RirbControl::RINTCTL.0 | RirbControl::RIRBDMAEN.0 | RirbControl::RIRBOIC.0;
/// RINTFL, the bit of RIRBSTS.
const RINTFL: u32 = RirbControl::RINTFL.0;

/// The words that hold them, each as it stands at its place.
#[derive(Drop)]
pub(crate) struct Controller {
    control: GlobalControl,
    /// WAKEEN, and STATESTS in the upper half.
    wake: u32,
    interrupts: InterruptControl,
    wall_clock: u32,
    corb_base: u32,
    /// CORBWP, and CORBRP in the upper half.
    corb_pointers: u32,
    corb_control: CorbControl,
    rirb_base: u32,
    /// RIRBWP, and RINTCNT in the upper half.
    rirb_pointers: u32,
    rirb_control: RirbControl,
}

impl Model for Controller {
    ghost use Rattle.hda_registers.specs.Fields.{Global};
    ghost use Rattle.hda_registers.specs.Words.{global_in};

    ghost Value = { Global };

    ghost view = { λ c. global_in c.control.0 c.wake c.interrupts.0 c.wall_clock c.corb_base c.corb_pointers
        c.corb_control.0
        c.rirb_base c.rirb_pointers c.rirb_control.0 };
}

impl Controller {
    /// In reset, with no bit in STATESTS.
    pub(crate) fn new() -> Controller
        ensures { result ≡ reset_global 0 }
    {
        Controller {
            control: GlobalControl(0),
            wake: 0,
            interrupts: InterruptControl(0),
            wall_clock: 0,
            corb_base: 0,
            corb_pointers: 0,
            corb_control: CorbControl(0),
            rirb_base: 0,
            rirb_pointers: 0,
            rirb_control: RirbControl(0),
        }
    }

    /// Resets all but STATESTS.
    pub(crate) fn reset(&mut self)
        ensures { self.new ≡ reset_global self.old.state_status }
    {
        self.control = GlobalControl(0);
        self.wake &= STATE_BITS;
        self.interrupts = InterruptControl(0);
        self.wall_clock = 0;
        self.corb_base = 0;
        self.corb_pointers = 0;
        self.corb_control = CorbControl(0);
        self.rirb_base = 0;
        self.rirb_pointers = 0;
        self.rirb_control = RirbControl(0);
    }

    /// A write there, by the rules of the table.
    pub(crate) fn write(&mut self, shape: Shape, access: Access)
        requires { bit_and access.written access.covered ≡ access.written }
        ensures { self.new ≡ global_written shape access self.old }
    {
        match access.word {
            CONTROL_AT => self.control = GlobalControl(access.leaves(
                self.control.0,
                CONTROL_BITS,
                0,
            )),
            WAKE_AT => self.wake = access.leaves(self.wake, WAKE_BITS, STATE_BITS),
            INTERRUPTS_AT => {
                self.interrupts = InterruptControl(access.leaves(
                    self.interrupts.0,
                    INTERRUPT_BITS,
                    0,
                ))
            }
            CORB_BASE_AT => self.corb_base = access.leaves(self.corb_base, BASE, 0),
            CORB_POINTERS_AT => self.corb_pointers = corb_pointers_after(
                self.corb_pointers,
                shape,
                access,
            ),
            CORB_CONTROL_AT => {
                self.corb_control = CorbControl(access.leaves(self.corb_control.0, CORB_BITS, 0))
            }
            RIRB_BASE_AT => self.rirb_base = access.leaves(self.rirb_base, BASE, 0),
            RIRB_POINTERS_AT => self.rirb_pointers = rirb_pointers_after(
                self.rirb_pointers,
                shape,
                access,
            ),
            RIRB_CONTROL_AT => {
                self.rirb_control = RirbControl(access.leaves(
                    self.rirb_control.0,
                    RIRB_BITS,
                    RINTFL,
                ))
            }
            _ => {}
        }
    }

    /// The word with this number as it stands there, where INTSTS is `status`.
    pub(crate) fn word(&self, shape: Shape, status: u32, word: u16) -> u32
        ensures { (covered written : ℕ)
            → global_shown shape self.now status
            (record { word = word; covered = covered; written = written }) ≡ bit_and result covered }
    {
        match word {
            VERSION_AT => VERSION_WORD,
            PAYLOADS_AT => PAYLOADS_WORD,
            CONTROL_AT => self.control.0 & CONTROL_BITS,
            WAKE_AT => self.wake & (WAKE_BITS | STATE_BITS),
            INTERRUPTS_AT => self.interrupts.0 & INTERRUPT_BITS,
            STATUS_AT => status,
            CLOCK_AT => {
                let ticks = self.wall_clock;
                ticks
            }
            CORB_BASE_AT => self.corb_base & BASE,
            CORB_POINTERS_AT => self.corb_pointers & (WRITE_POINTER | READ_POINTER | CORBRPRST),
            CORB_CONTROL_AT => self.corb_control.0 & CORB_BITS | size_bits(shape.corb),
            RIRB_BASE_AT => self.rirb_base & BASE,
            RIRB_POINTERS_AT => self.rirb_pointers & (WRITE_POINTER | RESPONSE_COUNT),
            RIRB_CONTROL_AT => self.rirb_control.0 & (RIRB_BITS | RINTFL) | size_bits(shape.rirb),
            _ => 0,
        }
    }

    /// Counts a link frame.
    pub(crate) fn count_frame(&mut self)
        ensures { self.new ≡ record self.old { wall_clock = (self.old.wall_clock + TICKS_PER_FRAME) % 2 ^ 32 } }
    {
        self.wall_clock = self.wall_clock.wrapping_add(TICKS_PER_FRAME);
    }

    /// Sets the codec's bit of STATESTS.
    pub(crate) fn set_state(&mut self, codec: u8)
        requires { codec ≤ 14 }
        ensures { self.new ≡ record self.old { state_status = bit_or self.old.state_status (2 ^ codec) } }
    {
        self.wake |= 1 << (16 + u32::from(codec));
    }

    /// Sets RINTFL.
    pub(crate) fn set_response_flag(&mut self)
        ensures { self.new ≡ record self.old { response_flag = 1 } }
    {
        self.rirb_control.0 |= RINTFL;
    }

    /// Moves the read pointer of the CORB.
    pub(crate) fn set_corb_read_pointer(&mut self, pointer: u8)
        ensures { self.new ≡ record self.old { corb_read_pointer = pointer } }
    {
        self.corb_pointers = self.corb_pointers & !READ_POINTER | u32::from(pointer) << 16;
    }

    /// Moves the write pointer of the RIRB.
    pub(crate) fn set_rirb_write_pointer(&mut self, pointer: u8)
        ensures { self.new ≡ record self.old { rirb_write_pointer = pointer } }
    {
        self.rirb_pointers = self.rirb_pointers & !WRITE_POINTER | u32::from(pointer);
    }

    /// Whether CRST is 1.
    pub(crate) fn is_out_of_reset(&self) -> bool
        ensures { result ≡ is_out_of_reset self.now }
    {
        self.control.contains(GlobalControl::CRST)
    }

    /// Whether the controller itself asks for an interrupt: RINTFL and RINTCTL are 1, or a codec asks whose wake bit is
    /// 1.
    pub(crate) fn asks(&self) -> bool
        ensures { result ≡ controller_asks self.now }
    {
        let control = self.rirb_control;
        both(
            control.contains(RirbControl::RINTFL),
            control.contains(RirbControl::RINTCTL),
        ) || self.is_woken()
    }

    /// Whether a codec asks for attention whose wake bit is 1.
    fn is_woken(&self) -> bool
        ensures { result ≡ nat_lt 0 (bit_and self.now.state_status self.now.wake_enable) }
    {
        self.wake >> 16 & self.wake & WAKE_BITS > 0
    }

    /// Whether INTCTL's bit of the input stream is 1.
    pub(crate) fn enables_input(&self) -> bool
        ensures { result ≡ (self.now.input_interrupt == 1) }
    {
        self.interrupts.contains(InterruptControl::INPUT)
    }

    /// Whether INTCTL's bit of the output stream is 1.
    pub(crate) fn enables_output(&self) -> bool
        ensures { result ≡ (self.now.output_interrupt == 1) }
    {
        self.interrupts.contains(InterruptControl::OUTPUT)
    }

    /// Whether CIE is 1.
    pub(crate) fn enables_controller(&self) -> bool
        ensures { result ≡ (self.now.controller_interrupt == 1) }
    {
        self.interrupts.contains(InterruptControl::CIE)
    }

    /// Whether GIE is 1.
    pub(crate) fn enables_all(&self) -> bool
        ensures { result ≡ (self.now.global_interrupt == 1) }
    {
        self.interrupts.contains(InterruptControl::GIE)
    }

    /// Whether UNSOL is 1.
    pub(crate) fn accepts_unsolicited(&self) -> bool
        ensures { result ≡ (self.now.unsolicited == 1) }
    {
        self.control.contains(GlobalControl::UNSOL)
    }

    /// Where the CORB stands, in bytes.
    pub(crate) fn corb_address(&self) -> u32
        ensures { result ≡ 128 * self.now.corb_base }
    {
        self.corb_base & BASE
    }

    /// CORBWP.
    pub(crate) fn corb_write_pointer(&self) -> u8
        ensures { result ≡ self.now.corb_write_pointer }
    {
        low_byte(self.corb_pointers)
    }

    /// The read pointer in CORBRP.
    pub(crate) fn corb_read_pointer(&self) -> u8
        ensures { result ≡ self.now.corb_read_pointer }
    {
        third_byte(self.corb_pointers)
    }

    /// Whether CORBRPRST is 1.
    pub(crate) fn is_corb_read_pointer_reset(&self) -> bool
        ensures { result ≡ (self.now.corb_pointer_reset == 1) }
    {
        self.corb_pointers & CORBRPRST == CORBRPRST
    }

    /// Whether CORBRUN is 1.
    pub(crate) fn is_corb_running(&self) -> bool
        ensures { result ≡ (self.now.corb_run == 1) }
    {
        self.corb_control.contains(CorbControl::CORBRUN)
    }

    /// Where the RIRB stands, in bytes.
    pub(crate) fn rirb_address(&self) -> u32
        ensures { result ≡ 128 * self.now.rirb_base }
    {
        self.rirb_base & BASE
    }

    /// RIRBWP.
    pub(crate) fn rirb_write_pointer(&self) -> u8
        ensures { result ≡ self.now.rirb_write_pointer }
    {
        low_byte(self.rirb_pointers)
    }

    /// RINTCNT.
    pub(crate) fn response_count(&self) -> u8
        ensures { result ≡ self.now.response_count }
    {
        third_byte(self.rirb_pointers)
    }

    /// Whether RIRBDMAEN is 1.
    pub(crate) fn is_rirb_running(&self) -> bool
        ensures { result ≡ (self.now.rirb_run == 1) }
    {
        self.rirb_control.contains(RirbControl::RIRBDMAEN)
    }

    /// Whether RINTFL is 1.
    pub(crate) fn is_response_flag_set(&self) -> bool
        ensures { result ≡ (self.now.response_flag == 1) }
    {
        self.rirb_control.contains(RirbControl::RINTFL)
    }
}

/// Bits 7:0 of a word.
fn low_byte(word: u32) -> u8
    ensures { result ≡ part 0 8 word }
{
    (word % 0x100) as u8
}

/// Bits 23:16 of a word.
fn third_byte(word: u32) -> u8
    ensures { result ≡ part 16 8 word }
{
    low_byte(word >> 16)
}

/// The word of a ring's control with the code of its size in bits 23:16 and no other bit.
fn size_bits(size: RingSize) -> u32
    ensures { result ≡ size_code size * 2 ^ 16 }
{
    match size {
        RingSize::Two => 0x10_0000,
        RingSize::Sixteen => 0x21_0000,
        RingSize::Full => 0x42_0000,
    }
}
