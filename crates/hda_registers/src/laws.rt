//! Laws of the registers. Each is the contract of a function with nothing to do.
ghost use Rattle.std.specs.Prelude.{◌≡◌, ◌≢◌, ◌<◌, ◌≤◌, ◌+◌, ◌/◌, ◌^◌, ℕ, Bool, true, false, bit_or};
ghost use Rattle.hda_registers.specs.declared.shapes.Moved.{Moved};
ghost use Rattle.hda_registers.specs.declared.shapes.Moved.TheVariants.{CorbRp, RirbWp, Lpib, Ready};
ghost use Rattle.hda_registers.specs.declared.shapes.Raise.{Raise};
ghost use Rattle.hda_registers.specs.declared.shapes.Raise.TheVariants.{Codec, Response, BufferDone, FifoError};
ghost use Rattle.hda_registers.specs.declared.shapes.Raise.TheVariants.{DescriptorError};
ghost use Rattle.hda_registers.specs.declared.shapes.Shape.{Shape};
ghost use Rattle.hda_registers.specs.Status.{worth};
ghost use Rattle.hda_registers.specs.declared.shapes.Width.{Width};
ghost use Rattle.hda_registers.specs.declared.shapes.Width.TheVariants.{One};
ghost use Rattle.hda_registers.specs.Access.{written, effects_of};
ghost use Rattle.hda_registers.specs.Fields.{Fields, opening, is_out_of_reset};
ghost use Rattle.hda_registers.specs.Laws.{LeavesStreams, LeavesRings, ChangesInput, ChangesOutput, ChangesStatus};
ghost use Rattle.hda_registers.specs.Laws.{IsBesideStreams, IsBesideRings, IsHeldInReset};
ghost use Rattle.hda_registers.specs.Moves.{framed, raised, moved};

use crate::places::{
    CORBCTL, CORBLBASE, CORBRP, CORBSIZE, CORBWP, DESCRIPTORS_END, GCAP, GCTL, INPAY,
    INPUT_DESCRIPTOR, INTCTL, INTSTS, OUTPAY, OUTPUT_DESCRIPTOR, RINTCNT, RIRBCTL, RIRBLBASE,
    RIRBSIZE, RIRBSTS, RIRBWP, SDBDPL, SDCBL, SDCTL, SDFIFOS, SDFMT, SDLPIB, SDLVI, SDSTS,
    STATESTS, TICKS_PER_FRAME, VMAJ, VMIN, WAKEEN, WALCLK,
};

/// A write that is neither at GCTL nor at a stream descriptor leaves both descriptors.
pub fn write_leaves_streams()
    ensures { (fields : Fields) (at : ℕ) (width : Width) (value : ℕ) → at / 4 ≢ 2 → IsBesideStreams at
        → LeavesStreams fields (written fields at width value) }
{}

/// A write at a stream descriptor leaves all else.
pub fn write_leaves_others()
    ensures input { (fields : Fields) (at : ℕ) (width : Width) (value : ℕ) → 0x80 ≤ at → at < 0xA0
        → ChangesInput fields (written fields at width value) }
    ensures output { (fields : Fields) (at : ℕ) (width : Width) (value : ℕ) → 0xA0 ≤ at → at < 0xC0
        → ChangesOutput fields (written fields at width value) }
{}

/// A write that is neither at GCTL nor at a register of CORB or RIRB leaves all of these, whatever its width.
pub fn write_leaves_rings()
    ensures { (fields : Fields) (at : ℕ) (width : Width) (value : ℕ) → IsBesideRings at
        → LeavesRings fields.global (written fields at width value).global }
{}

/// A write of a descriptor's status byte, SDnSTS, changes that descriptor's status bits alone.
pub fn status_write_leaves_others()
    ensures input { (fields : Fields) (value : ℕ) → let new = written fields (INPUT_DESCRIPTOR + SDSTS) One value in
        ChangesInput fields new × ChangesStatus fields.input new.input }
    ensures output { (fields : Fields) (value : ℕ) → let new = written fields (OUTPUT_DESCRIPTOR + SDSTS) One value in
        ChangesOutput fields new × ChangesStatus fields.output new.output }
{}

/// A write elsewhere than at GCTL neither resets the controller nor takes it out of reset.
pub fn write_keeps_reset()
    ensures reset { (fields : Fields) (at : ℕ) (width : Width) (value : ℕ) → at / 4 ≢ 2
        → (effects_of fields at width value).reset ≡ false }
    ensures left { (fields : Fields) (at : ℕ) (width : Width) (value : ℕ) → at / 4 ≢ 2
        → (effects_of fields at width value).left_reset ≡ false }
{}

/// The registers stand where the standard has them (HDA 1.0a, 3.3), and the wall clock has 500 ticks in a link frame.
pub fn places_are_the_standards()
    ensures version { (GCAP ≡ 0x00) × (VMIN ≡ 0x02) × (VMAJ ≡ 0x03) × (OUTPAY ≡ 0x04) × (INPAY ≡ 0x06) }
    ensures control { (GCTL ≡ 0x08) × (WAKEEN ≡ 0x0C) × (STATESTS ≡ 0x0E) × (INTCTL ≡ 0x20) × (INTSTS ≡ 0x24)
        × (WALCLK ≡ 0x30) }
    ensures corb { (CORBLBASE ≡ 0x40) × (CORBWP ≡ 0x48) × (CORBRP ≡ 0x4A) × (CORBCTL ≡ 0x4C) × (CORBSIZE ≡ 0x4E) }
    ensures rirb { (RIRBLBASE ≡ 0x50) × (RIRBWP ≡ 0x58) × (RINTCNT ≡ 0x5A) × (RIRBCTL ≡ 0x5C) × (RIRBSTS ≡ 0x5D)
        × (RIRBSIZE ≡ 0x5E) }
    ensures descriptors { (INPUT_DESCRIPTOR ≡ 0x80) × (OUTPUT_DESCRIPTOR ≡ 0xA0) × (DESCRIPTORS_END ≡ 0xC0) }
    ensures stream { (SDCTL ≡ 0x00) × (SDSTS ≡ 0x03) × (SDLPIB ≡ 0x04) × (SDCBL ≡ 0x08) × (SDLVI ≡ 0x0C)
        × (SDFIFOS ≡ 0x10) × (SDFMT ≡ 0x12)
        × (SDBDPL ≡ 0x18) }
    ensures clock { TICKS_PER_FRAME ≡ 500 }
{}

/// STATESTS survives each write to GCTL, a reset too, and no write changes the shape.
pub fn reset_keeps_state_status()
    ensures status { (fields : Fields) (at : ℕ) (width : Width) (value : ℕ) → at / 4 ≡ 2
        → (written fields at width value).global.state_status ≡ fields.global.state_status }
    ensures shape { (fields : Fields) (at : ℕ) (width : Width) (value : ℕ)
        → (written fields at width value).shape ≡ fields.shape }
{}

/// While CRST is 0, a write other than to GCTL changes nothing.
pub fn reset_ignores_writes()
    ensures { (fields : Fields) (at : ℕ) (width : Width) (value : ℕ) → is_out_of_reset fields.global ≡ false
        → at / 4 ≢ 2
        → written fields at width value ≡ fields }
{}

/// While CRST is 0, all registers but STATESTS hold their reset value: so they begin, and so each write and each link
/// frame leaves them. Events and moves come only while CRST is 1, and leave it.
pub fn reset_holds_values()
    ensures opening { (shape : Shape) → IsHeldInReset (opening shape) }
    ensures write { (fields : Fields) (at : ℕ) (width : Width) (value : ℕ) → IsHeldInReset fields
        → IsHeldInReset (written fields at width value) }
    ensures frame { (fields : Fields) → IsHeldInReset fields → IsHeldInReset (framed fields) }
    ensures raise { (fields : Fields) (event : Raise) → is_out_of_reset (raised fields event).global ≡ is_out_of_reset
        fields.global }
    ensures put { (fields : Fields) (field : Moved) → is_out_of_reset (moved fields field).global ≡ is_out_of_reset
        fields.global }
{}

/// A link frame leaves all but WALCLK, and a move all but its field.
pub fn moves_leave_others()
    ensures frame { (fields : Fields)
        → framed fields ≡ record fields
        { global = record fields.global { wall_clock = (framed fields).global.wall_clock } } }
    ensures corb { (fields : Fields) (pointer : ℕ)
        → moved fields (CorbRp pointer) ≡ record fields
        { global = record fields.global { corb_read_pointer = pointer } } }
    ensures rirb { (fields : Fields) (pointer : ℕ)
        → moved fields (RirbWp pointer) ≡ record fields
        { global = record fields.global { rirb_write_pointer = pointer } } }
    ensures input { (fields : Fields) (bytes : ℕ)
        → moved fields (Lpib 0 bytes) ≡ record fields { input = record fields.input { link_position = bytes } } }
    ensures output { (fields : Fields) (bytes : ℕ)
        → moved fields (Lpib 1 bytes) ≡ record fields { output = record fields.output { link_position = bytes } } }
    ensures input_ready { (fields : Fields) (ready : Bool)
        → moved fields (Ready 0 ready) ≡ record fields { input = record fields.input { fifo_ready = worth ready 0 } } }
    ensures output_ready { (fields : Fields) (ready : Bool)
        → moved fields (Ready 1 ready) ≡ record fields
        { output = record fields.output { fifo_ready = worth ready 0 } } }
{}

/// An event leaves all but its status bit, and a descriptor error RUN of its stream too.
pub fn events_leave_others()
    ensures codec { (fields : Fields) (codec : ℕ) → raised fields (Codec codec)
        ≡ record fields {
          global = record fields.global { state_status = bit_or fields.global.state_status (2 ^ codec) };
        } }
    ensures response { (fields : Fields)
        → raised fields Response ≡ record fields { global = record fields.global { response_flag = 1 } } }
    ensures input_completion { (fields : Fields)
        → raised fields (BufferDone 0) ≡ record fields { input = record fields.input { completion = 1 } } }
    ensures output_completion { (fields : Fields)
        → raised fields (BufferDone 1) ≡ record fields { output = record fields.output { completion = 1 } } }
    ensures input_fifo { (fields : Fields)
        → raised fields (FifoError 0) ≡ record fields { input = record fields.input { fifo_error = 1 } } }
    ensures output_fifo { (fields : Fields)
        → raised fields (FifoError 1) ≡ record fields { output = record fields.output { fifo_error = 1 } } }
    ensures input_error { (fields : Fields)
        → raised fields (DescriptorError 0) ≡ record fields
        { input = record fields.input { descriptor_error = 1; run = 0 } } }
    ensures output_error { (fields : Fields)
        → raised fields (DescriptorError 1) ≡ record fields
        { output = record fields.output { descriptor_error = 1; run = 0 } } }
{}
