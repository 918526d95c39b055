//! All registers of a controller: reads, writes, and what the device itself moves.
ghost use Rattle.std.specs.Prelude.{◌≡◌, ◌==◌, ◌≤◌, ◌<◌, ◌+◌, ◌*◌, ◌%◌, ◌/◌, ◌^◌, ◌&&◌, IsTrue};
ghost use Rattle.hda_registers.specs.Access.{effects_of, is_taken, placed, shown_at, value_at, written, bytes_of};
ghost use Rattle.hda_registers.specs.Fields.{corb_address, is_out_of_reset, is_running, list_address, opening};
ghost use Rattle.hda_registers.specs.Fields.{reset_fields, responses_of, rirb_address, stream_of};
ghost use Rattle.hda_registers.specs.Moves.{framed, raised, moved, IsEvent, IsMove};
ghost use Rattle.hda_registers.specs.Status.{any_asks, interrupt_status, interrupt_line_of, worth};

use crate::accesses::Access;
use crate::conditions::{any, both, fell, rose};
use crate::controller::Controller;
use crate::places::{DESCRIPTORS_END, GCTL, INPUT_DESCRIPTOR, OUTPUT_DESCRIPTOR};
use crate::shapes::{Effects, Moved, Raise, Shape, Width};
use crate::streams::Stream;
use std::marker::Model;

/// GCTL, which alone takes writes while CRST is 0, as the number of its word.
const GCTL_WORD: u16 = GCTL / 4;

/// The registers of a High Definition Audio controller with one input stream, descriptor 0, and one output stream,
/// descriptor 1 (HDA 1.0a, 3.3). A contract sees them as their `Fields`.
#[derive(Drop)]
pub struct Registers {
    shape: Shape,
    global: Controller,
    input: Stream,
    output: Stream,
}

impl Model for Registers {
    ghost use Rattle.hda_registers.specs.Fields.{Fields};

    ghost Value = { Fields };

    ghost view = { λ r. record { shape = r.shape; global = r.global; input = r.input; output = r.output } };
}

impl Registers {
    /// The registers of a controller of this shape in reset. No codec has asked for attention.
    pub fn new(shape: Shape) -> Registers
        ensures { result ≡ opening shape }
    {
        Registers {
            shape,
            global: Controller::new(),
            input: Stream::new(),
            output: Stream::new(),
        }
    }

    /// What a read of this width at this place gives. A place that is no multiple of the width, and one without a
    /// register, reads 0.
    pub fn read(&self, at: u16, width: Width) -> u32
        ensures { result ≡ value_at self.now at width }
    {
        if at % width.bytes() == 0 {
            self.shown(at, width) >> (8 * (at % 4))
        } else {
            0
        }
    }

    /// The bits of the word of four bytes that a read sees.
    fn shown(&self, at: u16, width: Width) -> u32
        requires { at % bytes_of width ≡ 0 }
        ensures { result ≡ shown_at self.now at width }
    {
        if at < INPUT_DESCRIPTOR {
            let access = Access::of(at, width, 0);
            self.global
                .word(self.shape, self.interrupt_status(), access.word)
                & access.covered
        } else if at < OUTPUT_DESCRIPTOR {
            let access = Access::of(at - INPUT_DESCRIPTOR, width, 0);
            self.input.word(self.shape, access.word) & access.covered
        } else if at < DESCRIPTORS_END {
            let access = Access::of(at - OUTPUT_DESCRIPTOR, width, 0);
            self.output.word(self.shape, access.word) & access.covered
        } else {
            0
        }
    }

    /// Writes the low bits of the value, as many as the width has, and says what that did beyond the registers. A write
    /// at a place that is no multiple of the width or has no register changes nothing, and while CRST is 0 only GCTL
    /// takes writes.
    pub fn write(&mut self, at: u16, width: Width, value: u32) -> Effects
        ensures registers { self.new ≡ written self.old at width value }
        ensures effects { result ≡ effects_of self.old at width value }
    {
        let was_out = self.is_out_of_reset();
        let input_ran = self.input.is_running();
        let output_ran = self.output.is_running();
        if self.takes(at, width) {
            self.place(at, width, value);
        }
        let is_out = self.is_out_of_reset();
        let input_runs = self.input.is_running();
        let output_runs = self.output.is_running();
        Effects {
            reset: writes(at, value, GCTL, 0),
            left_reset: rose(was_out, is_out),
            stream_reset: [
                both(was_out, writes(at, value, INPUT_DESCRIPTOR, 1)),
                both(was_out, writes(at, value, OUTPUT_DESCRIPTOR, 1)),
            ],
            started: [rose(input_ran, input_runs), rose(output_ran, output_runs)],
            stopped: [fell(input_ran, input_runs), fell(output_ran, output_runs)],
        }
    }

    /// Whether a write at this place is taken: at a multiple of its width, and while CRST is 0 only at GCTL.
    fn takes(&self, at: u16, width: Width) -> bool
        ensures { result ≡ is_taken self.now at width }
    {
        at % width.bytes() == 0 && (self.is_out_of_reset() || at / 4 == GCTL_WORD)
    }

    /// Makes a write that is taken.
    fn place(&mut self, at: u16, width: Width, value: u32)
        requires { at % bytes_of width ≡ 0 }
        ensures { self.new ≡ placed self.old at width value }
    {
        if at < INPUT_DESCRIPTOR {
            self.global.write(self.shape, Access::of(at, width, value));
            if !self.global.is_out_of_reset() {
                self.reset();
            }
        } else if at < OUTPUT_DESCRIPTOR {
            self.input
                .write(Access::of(at - INPUT_DESCRIPTOR, width, value));
        } else if at < DESCRIPTORS_END {
            self.output
                .write(Access::of(at - OUTPUT_DESCRIPTOR, width, value));
        }
    }

    /// Resets all but STATESTS.
    fn reset(&mut self)
        ensures { self.new ≡ reset_fields self.old.shape self.old.global.state_status }
    {
        self.global.reset();
        self.input = Stream::new();
        self.output = Stream::new();
    }

    /// A link frame: WALCLK goes on by 500, modulo 2^32, where CRST is 1 (HDA 1.0a, 3.3.16).
    pub fn frame(&mut self)
        ensures { self.new ≡ framed self.old }
    {
        if self.global.is_out_of_reset() {
            self.global.count_frame();
        }
    }

    /// Sets the event's status bit; a descriptor error also clears RUN.
    pub fn raise(&mut self, event: Raise)
        requires out { IsTrue (is_out_of_reset self.old.global) }
        requires event { IsEvent event }
        ensures { self.new ≡ raised self.old event }
    {
        match event {
            Raise::Codec(codec) => self.global.set_state(codec),
            Raise::Response => self.global.set_response_flag(),
            Raise::BufferDone(0) => self.input.set_completion(),
            Raise::BufferDone(_) => self.output.set_completion(),
            Raise::FifoError(0) => self.input.set_fifo_error(),
            Raise::FifoError(_) => self.output.set_fifo_error(),
            Raise::DescriptorError(0) => self.input.set_descriptor_error(),
            Raise::DescriptorError(_) => self.output.set_descriptor_error(),
        }
    }

    /// Gives a field that only the device moves its new value, and changes nothing else.
    pub fn put(&mut self, field: Moved)
        requires out { IsTrue (is_out_of_reset self.old.global) }
        requires field { IsMove self.old field }
        ensures { self.new ≡ moved self.old field }
    {
        match field {
            Moved::CorbRp(pointer) => self.global.set_corb_read_pointer(pointer),
            Moved::RirbWp(pointer) => self.global.set_rirb_write_pointer(pointer),
            Moved::Lpib(0, bytes) => self.input.set_position(bytes),
            Moved::Lpib(_, bytes) => self.output.set_position(bytes),
            Moved::Ready(0, ready) => self.input.set_ready(ready),
            Moved::Ready(_, ready) => self.output.set_ready(ready),
        }
    }

    /// Whether the interrupt line is high (HDA 1.0a, 3.3.14 and 3.3.15).
    pub fn line(&self) -> bool
        ensures { result ≡ interrupt_line_of self.now }
    {
        both(self.any_asks(), self.global.enables_all())
    }

    /// INTSTS.
    fn interrupt_status(&self) -> u32
        ensures { result ≡ interrupt_status self.now }
    {
        bit(self.input.asks(), 0)
            + bit(self.output.asks(), 1)
            + bit(self.global.asks(), 30)
            + bit(self.any_asks(), 31)
    }

    /// Whether a part asks for an interrupt whose bit in INTCTL is 1.
    fn any_asks(&self) -> bool
        ensures { result ≡ any_asks self.now }
    {
        any(
            both(self.global.asks(), self.global.enables_controller()),
            both(self.input.asks(), self.global.enables_input()),
            both(self.output.asks(), self.global.enables_output()),
        )
    }

    /// The shape that the registers were made for.
    pub fn shape(&self) -> Shape
        ensures { result ≡ self.now.shape }
    {
        self.shape
    }

    /// Whether CRST is 1.
    pub fn is_out_of_reset(&self) -> bool
        ensures { result ≡ is_out_of_reset self.now.global }
    {
        self.global.is_out_of_reset()
    }

    /// Whether the controller accepts unsolicited responses: UNSOL (HDA 1.0a, 3.3.7).
    pub fn accepts_unsolicited(&self) -> bool
        ensures { result ≡ (self.now.global.unsolicited == 1) }
    {
        self.global.accepts_unsolicited()
    }

    /// Where the CORB stands, in bytes (HDA 1.0a, 3.3.18).
    pub fn corb_address(&self) -> u32
        ensures { result ≡ corb_address self.now }
    {
        self.global.corb_address()
    }

    /// The last entry of the CORB with a command: CORBWP (HDA 1.0a, 3.3.20).
    pub fn corb_write_pointer(&self) -> u8
        ensures { result ≡ self.now.global.corb_write_pointer }
    {
        self.global.corb_write_pointer()
    }

    /// The last entry of the CORB that was fetched: CORBRP (HDA 1.0a, 3.3.21).
    pub fn corb_read_pointer(&self) -> u8
        ensures { result ≡ self.now.global.corb_read_pointer }
    {
        self.global.corb_read_pointer()
    }

    /// Whether the read pointer of the CORB is held at 0: CORBRPRST (HDA 1.0a, 3.3.21).
    pub fn is_corb_read_pointer_reset(&self) -> bool
        ensures { result ≡ (self.now.global.corb_pointer_reset == 1) }
    {
        self.global.is_corb_read_pointer_reset()
    }

    /// Whether the CORB's engine runs: CORBRUN (HDA 1.0a, 3.3.22).
    pub fn is_corb_running(&self) -> bool
        ensures { result ≡ (self.now.global.corb_run == 1) }
    {
        self.global.is_corb_running()
    }

    /// Where the RIRB stands, in bytes (HDA 1.0a, 3.3.25).
    pub fn rirb_address(&self) -> u32
        ensures { result ≡ rirb_address self.now }
    {
        self.global.rirb_address()
    }

    /// The last entry of the RIRB with a response: RIRBWP (HDA 1.0a, 3.3.27).
    pub fn rirb_write_pointer(&self) -> u8
        ensures { result ≡ self.now.global.rirb_write_pointer }
    {
        self.global.rirb_write_pointer()
    }

    /// Whether the RIRB's engine runs: RIRBDMAEN (HDA 1.0a, 3.3.29).
    pub fn is_rirb_running(&self) -> bool
        ensures { result ≡ (self.now.global.rirb_run == 1) }
    {
        self.global.is_rirb_running()
    }

    /// Whether responses were written that the driver hasn't taken notice of: RINTFL (HDA 1.0a, 3.3.30).
    pub fn is_response_flag_set(&self) -> bool
        ensures { result ≡ (self.now.global.response_flag == 1) }
    {
        self.global.is_response_flag_set()
    }

    /// After how many responses the driver is told, 1 to 256: RINTCNT (HDA 1.0a, 3.3.28).
    pub fn response_count(&self) -> u16
        ensures { result ≡ responses_of self.now.global.response_count }
    {
        match self.global.response_count() {
            0 => 256,
            count => u16::from(count),
        }
    }

    /// Whether the stream runs: RUN (HDA 1.0a, 3.3.35). A stream is 0 for input and 1 for output.
    pub fn is_stream_running(&self, stream: u8) -> bool
        requires { stream ≤ 1 }
        ensures { result ≡ is_running (stream_of self.now stream) }
    {
        self.stream(stream).is_running()
    }

    /// How many bytes of its buffer the stream has sent: LPIB (HDA 1.0a, 3.3.37). A stream is 0 for input and 1 for
    /// output.
    pub fn position(&self, stream: u8) -> u32
        requires { stream ≤ 1 }
        ensures { result ≡ (stream_of self.now stream).link_position }
    {
        self.stream(stream).position()
    }

    /// The length of the stream's buffer in bytes: CBL (HDA 1.0a, 3.3.38). A stream is 0 for input and 1 for output.
    pub fn buffer_length(&self, stream: u8) -> u32
        requires { stream ≤ 1 }
        ensures { result ≡ (stream_of self.now stream).buffer_length }
    {
        self.stream(stream).buffer_length()
    }

    /// The last entry of the stream's buffer list: LVI (HDA 1.0a, 3.3.39). A stream is 0 for input and 1 for output.
    pub fn last_index(&self, stream: u8) -> u8
        requires { stream ≤ 1 }
        ensures { result ≡ (stream_of self.now stream).last_index }
    {
        self.stream(stream).last_index()
    }

    /// The stream's format word: FMT (HDA 1.0a, 3.3.41). A stream is 0 for input and 1 for output.
    pub fn format(&self, stream: u8) -> u16
        requires { stream ≤ 1 }
        ensures { result ≡ (stream_of self.now stream).format }
    {
        self.stream(stream).format()
    }

    /// The tag by which codecs know the stream, 0 for none (HDA 1.0a, 3.3.35). A stream is 0 for input and 1 for
    /// output.
    pub fn tag(&self, stream: u8) -> u8
        requires { stream ≤ 1 }
        ensures { result ≡ (stream_of self.now stream).tag }
    {
        self.stream(stream).tag()
    }

    /// Where the stream's buffer list stands, in bytes (HDA 1.0a, 3.3.42). A stream is 0 for input and 1 for output.
    pub fn list_address(&self, stream: u8) -> u32
        requires { stream ≤ 1 }
        ensures { result ≡ list_address (stream_of self.now stream) }
    {
        self.stream(stream).list_address()
    }

    /// The descriptor of a stream: the input's for 0, else the output's.
    fn stream(&self, stream: u8) -> &Stream
        ensures { result.now ≡ stream_of self.now stream }
    {
        if stream == 0 {
            &self.input
        } else {
            &self.output
        }
    }
}

/// What a bit is worth where it is 1.
fn bit(set: bool, at: u32) -> u32
    requires { at < 32 }
    ensures value { result ≡ worth set at }
    ensures small { result ≤ 2 ^ at }
{
    if set { 1 << at } else { 0 }
}

/// Whether a write at this place writes this lowest bit to the register at `place`.
fn writes(at: u16, value: u32, place: u16, lowest: u32) -> bool
    ensures { result ≡ ((at == place) && (value % 2 == lowest)) }
{
    at == place && value % 2 == lowest
}
