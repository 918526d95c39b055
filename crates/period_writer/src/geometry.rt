//! The shape of a ring, and how late a run may be.
ghost use Rattle.std.specs.Prelude.{◌≡◌, ◌≤◌, ◌<◌, ◌*◌, ◌^◌, Some, None, MatchResult, IfOk};
ghost use Rattle.stream_format.specs.Cadence.{block_bytes, most_bytes};
ghost use Rattle.period_writer.specs.Rings as rings;

use std::fmt;
use stream_format::Format;

/// The bytes that a period is a multiple of: a multiple of 128, to which buffers are aligned (HDA 1.0a, 3.6.3), and of
/// the bytes of every block of samples. This project's own.
pub const PERIOD_UNIT: u32 = 384;

/// How many periods a ring has at most. This project's own.
pub const MOST_PERIODS: u32 = 32;

/// Why there is no geometry.
#[derive(Clone, Copy, Debug, PartialEq, Eq)]
pub enum GeometryFault {
    /// The FIFO has fewer bytes than a link frame may take.
    FifoTooSmall,
    /// The ring has no more bytes than the FIFO, or not one link frame may pass between two runs.
    RingTooSmall,
}

impl fmt::Display for GeometryFault {
    ghost use Rattle.std.specs.Prelude.{Some};
    ghost use Rattle.period_writer.specs.FaultText.{ring_fault_text};

    ghost output = { λ fault. Some (ring_fault_text fault) };

    fn fmt<W: fmt::Write>(&self, f: &mut fmt::Formatter<W>) -> fmt::Result {
        f.write_str(match self {
            GeometryFault::FifoTooSmall => "FifoTooSmall",
            GeometryFault::RingTooSmall => "RingTooSmall",
        })
    }
}

impl std::error::Error for GeometryFault {}

/// The shape of a ring: how many periods it has, of how many bytes, for which FIFO and which format.
#[derive(Clone, Copy, Debug, PartialEq, Eq)]
pub struct Geometry {
    periods: u8,
    period: u8,
    fifo: u16,
    format: Format,
    pub ghost some_periods: { 2 ≤ periods },
    pub ghost few_periods: { periods ≤ 32 },
    pub ghost some: { 1 ≤ period },
    pub ghost few: { period ≤ 128 },
    pub ghost accepted: { rings.fault_of periods period fifo format ≡ None },
}

/// The most bytes of a link frame, at least 1.
fn most_of(format: Format) -> u32
    ensures value { result ≡ most_bytes format }
    ensures some { 1 ≤ result }
{
    format.most()
}

/// The bytes of a block, at least 1.
fn block_of(format: Format) -> u32
    ensures value { result ≡ block_bytes format }
    ensures some { 1 ≤ result }
    ensures few { result < 2 ^ 16 }
{
    format.block_bytes()
}

/// The bytes of so many frames of so many bytes, which are no more than a ring.
fn frames_bytes(frames: u32, most: u32) -> u32
    requires { frames * most < 2 ^ 22 }
    ensures value { result ≡ frames * most }
    ensures small { result < 2 ^ 22 }
{
    frames * most
}

/// The bytes of the whole ring.
fn bytes_of(periods: u8, period: u8) -> u32
    requires few_periods { periods ≤ 32 }
    requires few { period ≤ 128 }
    ensures { result ≡ rings.ring_bytes periods period }
{
    PERIOD_UNIT * u32::from(period) * u32::from(periods)
}

impl Geometry {
    /// A ring of 2 to 32 periods of 1 to 128 times [`PERIOD_UNIT`] bytes, for a FIFO of so many bytes and a format.
    ///
    /// # Errors
    /// `FifoTooSmall` exactly where the FIFO has fewer bytes than the most of a link frame. Else `RingTooSmall` exactly
    /// where the ring has no more bytes than the FIFO, or [`Geometry::limit`] would be 0.
    pub fn new(
        periods: u8,
        period: u8,
        fifo: u16,
        format: Format,
    ) -> Result<Geometry, GeometryFault>
        requires some_periods { 2 ≤ periods }
        requires few_periods { periods ≤ 32 }
        requires some { 1 ≤ period }
        requires few { period ≤ 128 }
        ensures exact { MatchResult result
            (λ geometry. rings.fault_of periods period fifo format ≡ None)
            (λ fault. rings.fault_of periods period fifo format ≡ Some fault) }
        ensures periods { IfOk result (λ geometry. geometry.periods ≡ periods) }
        ensures period { IfOk result (λ geometry. geometry.period ≡ period) }
        ensures fifo { IfOk result (λ geometry. geometry.fifo ≡ fifo) }
        ensures format { IfOk result (λ geometry. geometry.format ≡ format) }
    {
        let most = most_of(format);
        let held = u32::from(fifo);
        if held < most {
            return Err(GeometryFault::FifoTooSmall);
        }
        let ring = bytes_of(periods, period);
        if ring <= held || (ring - held) / most == 0 {
            return Err(GeometryFault::RingTooSmall);
        }
        Ok(Geometry {
            periods,
            period,
            fifo,
            format,
        })
    }

    /// How many periods the ring has.
    pub fn periods(&self) -> u8
        ensures { result ≡ self.now.periods }
    {
        self.periods
    }

    /// The bytes of the FIFO.
    pub fn fifo(&self) -> u16
        ensures { result ≡ self.now.fifo }
    {
        self.fifo
    }

    /// The bytes of a period.
    pub fn period_bytes(&self) -> u32
        ensures { result ≡ rings.period_bytes self.now.period }
    {
        PERIOD_UNIT * u32::from(self.period)
    }

    /// The bytes of the whole ring, the stream's cyclic buffer length (HDA 1.0a, 3.3.38).
    pub fn ring(&self) -> u32
        ensures { result ≡ rings.ring_bytes self.now.periods self.now.period }
    {
        bytes_of(self.periods, self.period)
    }

    /// How many link frames may pass from the clock that a run reads first to the one that the next run reads last.
    pub fn limit(&self) -> u32
        ensures { result ≡ rings.limit_of self.now.periods self.now.period self.now.fifo self.now.format }
    {
        (self.ring() - u32::from(self.fifo)) / most_of(self.format)
    }

    /// How many link frames a run may last that takes silence back: a quarter of the limit.
    pub fn slack(&self) -> u32
        ensures { result ≡ rings.slack_of self.now.periods self.now.period self.now.fifo self.now.format }
    {
        self.limit() / 4
    }

    /// How far past the link nothing is fetched while such a run lasts: what the FIFO holds, up to whole blocks, and
    /// what that many link frames may send.
    pub(crate) fn ahead(&self) -> u32
        ensures value { result ≡ rings.ahead_of self.now.periods self.now.period self.now.fifo self.now.format }
        ensures small { result < 2 ^ 23 }
    {
        let block = block_of(self.format);
        let up = u32::from(self.fifo) + (block - 1);
        up - up % block + frames_bytes(self.slack(), most_of(self.format))
    }

    /// The format of the sound.
    pub fn format(&self) -> Format
        ensures { result ≡ self.now.format }
    {
        self.format
    }
}
