//! The table of the registers' mnemonics (HDA 1.0a, 3.3).
ghost use Rattle.std.specs.Prelude.{◌≡◌, ◌==◌, find, option_map};
ghost use Rattle.trace_lines.specs.declared.names.RegisterName.{RegisterName};
ghost use Rattle.trace_lines.specs.Names.{register_of};
ghost use Rattle.trace_lines.specs.Registers.{global_registers, register_at, stream_registers};

use hda_registers::places;

/// A register: its place, and its mnemonic.
#[derive(Clone, Copy)]
pub(crate) struct RegisterName(pub u16, pub &'static str);

const GLOBAL: [RegisterName; 22] = [
    RegisterName(places::GCAP, "GCAP"),
    RegisterName(places::VMIN, "VMIN"),
    RegisterName(places::VMAJ, "VMAJ"),
    RegisterName(places::OUTPAY, "OUTPAY"),
    RegisterName(places::INPAY, "INPAY"),
    RegisterName(places::GCTL, "GCTL"),
    RegisterName(places::WAKEEN, "WAKEEN"),
    RegisterName(places::STATESTS, "STATESTS"),
    RegisterName(places::INTCTL, "INTCTL"),
    RegisterName(places::INTSTS, "INTSTS"),
    RegisterName(places::WALCLK, "WALCLK"),
    RegisterName(places::CORBLBASE, "CORBLBASE"),
    RegisterName(places::CORBWP, "CORBWP"),
    RegisterName(places::CORBRP, "CORBRP"),
    RegisterName(places::CORBCTL, "CORBCTL"),
    RegisterName(places::CORBSIZE, "CORBSIZE"),
    RegisterName(places::RIRBLBASE, "RIRBLBASE"),
    RegisterName(places::RIRBWP, "RIRBWP"),
    RegisterName(places::RINTCNT, "RINTCNT"),
    RegisterName(places::RIRBCTL, "RIRBCTL"),
    RegisterName(places::RIRBSTS, "RIRBSTS"),
    RegisterName(places::RIRBSIZE, "RIRBSIZE"),
];

const STREAM: [RegisterName; 8] = [
    RegisterName(places::SDCTL, "CTL"),
    RegisterName(places::SDSTS, "STS"),
    RegisterName(places::SDLPIB, "LPIB"),
    RegisterName(places::SDCBL, "CBL"),
    RegisterName(places::SDLVI, "LVI"),
    RegisterName(places::SDFIFOS, "FIFOS"),
    RegisterName(places::SDFMT, "FMT"),
    RegisterName(places::SDBDPL, "BDPL"),
];

/// The row of a register that begins at this place.
fn row_at(rows: &[RegisterName], at: u16) -> Option<RegisterName>
    ensures { result ≡ find (λ (row : RegisterName). row.0 == at) rows.now }
{
    for row in rows {
        if row.0 == at {
            return Some(*row);
        }
    }
    None
}

/// The register below the stream descriptors that begins at this place.
pub(crate) fn global_register(at: u16) -> Option<RegisterName>
    ensures { option_map register_of result ≡ register_at at global_registers }
{
    row_at(GLOBAL.as_slice(), at)
}

/// The register of a stream descriptor that begins at this place of it.
pub(crate) fn stream_register(at: u16) -> Option<RegisterName>
    ensures { option_map register_of result ≡ register_at at stream_registers }
{
    row_at(STREAM.as_slice(), at)
}
