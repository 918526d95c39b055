//! An output stream over a slice of memory.
ghost use Rattle.std.specs.Prelude.{◌≤◌, ◌+◌};

use hda_registers::places::{
    GCTL, OUTPUT_DESCRIPTOR, SDBDPL, SDCBL, SDCTL, SDFMT, SDLPIB, SDLVI, SDSTS,
};
use hda_registers::{Registers, RingSize, Shape, Width};
use std::alloc::{AllocError, Global};
use std::fmt::Write;
use stream_descriptor::{Frame, MOST_FRAME_BYTES, Stream};
use test_cases::{number_of, text_of};

/// The control byte of the descriptor: SRST in bit 0, RUN in bit 1.
const CONTROL: u16 = OUTPUT_DESCRIPTOR + SDCTL;

/// Where the list of buffers stands.
const LIST: usize = 2048;

/// A controller out of reset with a FIFO of 192 bytes, its output stream, and the memory.
#[derive(Drop)]
struct Bench {
    regs: Registers,
    stream: Stream,
    memory: [u8; 4096],
}

/// Bytes that are their place modulo 256.
fn numbered() -> [u8; 4096] {
    let mut memory = [0; 4096];
    for (place, byte) in memory.iter_mut().enumerate() {
        *byte = (place % 256) as u8;
    }
    memory
}

impl Bench {
    /// The stream is set and started: the place of its list, the last index of that, the length of the cycle and the
    /// format. The list at 2048 has two entries with IOC, the second of 384 bytes at 0.
    fn new(
        alloc: Global,
        (list, last): (u32, u32),
        (length, format): (u32, u32),
    ) -> Result<Bench, AllocError> {
        let regs = Registers::new(Shape {
            fifo: 192,
            corb: RingSize::Full,
            rirb: RingSize::Full,
            codecs: 0,
        });
        let stream = Stream::new(alloc, 1, 192)?;
        let mut bench = Bench {
            regs,
            stream,
            memory: numbered(),
        };
        bench.put(LIST + 4, 0);
        bench.put(LIST + 12, 1);
        bench.put(LIST + 16, 0);
        bench.put(LIST + 20, 0);
        bench.put(LIST + 24, 384);
        bench.put(LIST + 28, 1);
        bench.regs.write(GCTL, Width::Four, 1);
        bench
            .regs
            .write(OUTPUT_DESCRIPTOR + SDCBL, Width::Four, length);
        bench
            .regs
            .write(OUTPUT_DESCRIPTOR + SDLVI, Width::Two, last);
        bench
            .regs
            .write(OUTPUT_DESCRIPTOR + SDFMT, Width::Two, format);
        bench
            .regs
            .write(OUTPUT_DESCRIPTOR + SDBDPL, Width::Four, list);
        bench.control(2);
        Ok(bench)
    }

    /// Puts a word into four bytes from a place on.
    fn put(&mut self, at: usize, word: u32)
        requires { at + 4 ≤ 4096 }
    {
        self.memory[at..at + 4].copy_from_slice(&word.to_le_bytes());
    }

    /// Writes the control byte, and lets the stream start or stop.
    fn control(&mut self, value: u32) {
        let effects = self.regs.write(CONTROL, Width::One, value);
        self.stream
            .settle(&mut self.regs, effects.started[1], effects.stopped[1]);
    }

    /// Lets some link frames pass: how many carried one block, and the first bytes of the last.
    fn pass(&mut self, frames: u32) -> (u32, [u8; MOST_FRAME_BYTES]) {
        let mut carried = [0; MOST_FRAME_BYTES];
        let mut blocks: u32 = 0;
        for _turn in 0..frames {
            if self.stream.frame(&mut self.regs, &mut carried) == Frame::Blocks(1) {
                blocks = blocks.saturating_add(1);
            }
        }
        (blocks, carried)
    }

    /// Does what a word says, with its number, and puts what came of it.
    fn act(&mut self, text: &mut String, word: &str, number: u32) -> Result<(), AllocError> {
        match word {
            "address" => self.put(LIST, number),
            "bytes" => self.put(LIST + 8, number),
            "fetch" => self.stream.fetch(&mut self.regs, &self.memory, number),
            "control" => self.control(number),
            "pass" => {
                let (blocks, _) = self.pass(number);
                write!(text, "\n  {blocks} blocks in {number} link frames")?;
            }
            "frame" => {
                let (blocks, [a, b, c, d, ..]) = self.pass(1);
                write!(text, "\n  {blocks} block {a:02x} {b:02x} {c:02x} {d:02x}")?;
            }
            _ => self.show(text)?,
        }
        Ok(())
    }

    /// Puts the status byte, LPIB and the control byte.
    fn show(&self, text: &mut String) -> Result<(), AllocError> {
        let status = self.regs.read(OUTPUT_DESCRIPTOR + SDSTS, Width::One);
        let place = self.regs.read(OUTPUT_DESCRIPTOR + SDLPIB, Width::Four);
        let control = self.regs.read(CONTROL, Width::One);
        write!(
            text,
            "\n  status {status:02x}, LPIB {place}, control {control:02x}"
        )
    }
}

/// What comes of a stream with this place of its list, last index, length of the cycle and format, by words in turn,
/// each with a number behind `=`: `address` and `bytes` set the first entry of the list, `fetch` fetches so many bytes,
/// `pass` lets so many link frames pass, `frame` one, whose first block it shows, `control` writes the control byte,
/// and `show` reads the status byte, LPIB and the control byte.
pub fn tell(alloc: Global, words: &[Vec<u8>]) -> Result<String, AllocError> {
    let [list, last, length, format, acts @ ..] = words else {
        return format!(in alloc; "no stream");
    };
    let mut bench = Bench::new(
        alloc,
        (number_of(list), number_of(last)),
        (number_of(length), number_of(format)),
    )?;
    let mut text = String::new(alloc);
    for act in acts {
        let act = text_of(act);
        let (word, number) = act.split_once('=').unwrap_or((act, ""));
        bench.act(&mut text, word, number_of(number.as_bytes()))?;
    }
    Ok(text)
}
