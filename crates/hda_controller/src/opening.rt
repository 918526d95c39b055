//! The codecs of a machine at its start.
ghost use Rattle.std.specs.Prelude.{◌≡◌, ◌≤◌, All, IfOk};
ghost use Rattle.codec_graph.specs.Settings.{IsSettingsOf};
ghost use Rattle.device_core.specs.Codecs.{addresses_of, codec_bits};
ghost use Rattle.hda_files.specs.Machines.{IsSoundCodec};
ghost use Rattle.hda_controller.specs.Openings as spec;

use crate::places::address;
use codec_graph::{PinKind, order_as};
use codec_nodes::Codec;
use codec_sound::Kept;
use hda_files::{self, CodecFile, Machine};
use hda_registers::{RingSize, Shape};
use std::alloc::{AllocError, Global};
use stream_format::Format;

/// A codec as its file describes it.
fn codec_of(alloc: Global, file: &CodecFile) -> Result<Codec, AllocError>
    requires { IsSettingsOf file.now.graph file.now.settings }
    ensures { IfOk result (λ codec. codec ≡ spec.codec_in file.now) }
{
    Codec::new(
        alloc,
        file.graph.copy()?,
        file.settings.copy()?,
        file.present.copy(),
    )
}

/// The codecs as their files describe them.
pub(crate) fn codecs_of(alloc: Global, files: &[CodecFile]) -> Result<Vec<Codec>, AllocError>
    requires { All IsSoundCodec files.now }
    ensures { IfOk result (λ codecs. codecs.items ≡ spec.codecs_in files.now) }
{
    let mut codecs = Vec::new(alloc);
    for file in files {
        codecs.push(codec_of(alloc, file)?)?;
    }
    Ok(codecs)
}

/// The signals of a codec's candidate pins of the kind, while no stream has a tag or a format.
fn signals_of(alloc: Global, kind: PinKind, file: &CodecFile) -> Result<Kept, AllocError>
    ensures { IfOk result (spec.IsFresh kind (spec.codec_in file.now)) }
{
    let pins = order_as(alloc, kind, &file.graph)?;
    Kept::new_as(
        alloc,
        kind,
        &file.graph,
        &file.settings,
        pins,
        0,
        Format::from_word(0),
    )
}

/// Those of each codec.
pub(crate) fn all_signals_of(
    alloc: Global,
    kind: PinKind,
    files: &[CodecFile],
) -> Result<Vec<Kept>, AllocError>
    ensures { IfOk result (λ kept. spec.AreFresh kind (spec.codecs_in files.now) kept.items) }
{
    let mut kept = Vec::new(alloc);
    for file in files {
        kept.push(signals_of(alloc, kind, file)?)?;
    }
    Ok(kept)
}

/// The bits of the codecs' addresses, as in STATESTS (HDA 1.0a, 3.3.9).
fn bits_of(codecs: &[Codec]) -> u16
    requires { All (λ address. address ≤ 14) (addresses_of codecs.now) }
    ensures { result ≡ codec_bits codecs.now }
{
    let mut bits = 0;
    for codec in codecs {
        bits |= 1 << address(codec);
    }
    bits
}

/// The size of a ring.
fn ring_of(size: hda_files::RingSize) -> RingSize
    ensures { result ≡ spec.ring_in size }
{
    match size {
        hda_files::RingSize::Two => RingSize::Two,
        hda_files::RingSize::Sixteen => RingSize::Sixteen,
        hda_files::RingSize::Full => RingSize::Full,
    }
}

/// What a machine's file says of its controller, with these codecs.
pub(crate) fn shape_of(machine: &Machine, codecs: &[Codec]) -> Shape
    requires addresses { All (λ address. address ≤ 14) (addresses_of codecs.now) }
    requires codecs { codecs.now ≡ spec.codecs_in machine.now.codecs }
    ensures { result ≡ spec.shape_of machine.now }
{
    Shape {
        fifo: machine.fifo,
        corb: ring_of(machine.corb),
        rirb: ring_of(machine.rirb),
        codecs: bits_of(codecs),
    }
}
