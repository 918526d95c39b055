//! Reads a dump line by line.
ghost use Rattle.std.specs.Prelude.{◌≡◌, ◌≤◌, IfOk, length};
ghost use Rattle.dump_reader.specs.Labels as labels;
ghost use Rattle.dump_reader.specs.Reading as meaning;
ghost use Rattle.dump_reader.specs.Readers.{IsFactsOf};

use crate::codec_facts::{codec_fact, is_own, plain_codec};
use crate::cuts::{Lines, unindented};
use crate::facts::{CodecFacts, NodeFacts};
use crate::fault::ReadFault;
use crate::labels::{Label, behind, label_of};
use crate::node_facts::plain_facts;
use crate::node_lines::fact_on;
use crate::numbers::{number_at, numbers_in};
use crate::operands::nid_of;
use crate::wait::Wait;
use hda_items::Items;
use std::alloc::{AllocError, Global};

/// The most bytes of a dump.
pub const MOST_DUMP_BYTES: usize = 262_144;

/// What was read so far.
#[derive(Debug, Drop)]
pub(crate) struct Reading {
    /// The codecs that ended.
    pub codecs: Items<CodecFacts>,
    /// The first line of the first codec that was left out, since it is a modem's.
    pub modem: Option<u32>,
    /// The codec that began last.
    pub codec: Option<CodecFacts>,
    /// Its widget that began last.
    pub node: Option<NodeFacts>,
    /// What the next line has to be.
    pub wait: Wait,
}

/// Whether a line has printable bytes and tabs alone.
fn is_plain(line: &[u8]) -> bool
    ensures { result ≡ meaning.is_plain line.now }
{
    line.iter().all(|b| (32 <= *b && *b <= 126) || *b == b'\t')
}

/// The codec with the widget that began last.
fn with_node(codec: CodecFacts, node: Option<NodeFacts>) -> Result<CodecFacts, AllocError>
    ensures { IfOk result (λ after. after ≡ meaning.with_node codec node) }
{
    let mut codec = codec;
    if let Some(node) = node {
        codec.nodes.push(node)?;
    }
    Ok(codec)
}

/// The first line of the first codec that was left out.
fn or_line(first: Option<u32>, line: u32) -> Option<u32>
    ensures { result ≡ meaning.or_line first line }
{
    match first {
        Some(first) => Some(first),
        None => Some(line),
    }
}

/// The modem's codec that begins on this line is left out.
fn left_out(reading: Reading, line: u32) -> Reading
    ensures { result ≡ meaning.left_out reading line }
{
    let mut reading = reading;
    reading.modem = or_line(reading.modem, line);
    reading.codec = None;
    reading.node = None;
    reading
}

/// A codec ends: it has a widget, or it is a modem's and left out.
fn filed(reading: Reading, codec: CodecFacts) -> Result<Option<Reading>, AllocError>
    ensures { IfOk result (λ after. after ≡ meaning.filed reading codec) }
{
    if codec.nodes.is_empty() {
        if codec.is_modem {
            return Ok(Some(left_out(reading, codec.line)));
        }
        return Ok(None);
    }
    let mut reading = reading;
    reading.codecs.push(codec)?;
    reading.codec = None;
    reading.node = None;
    Ok(Some(reading))
}

/// The codec that began last ends, if there is one.
fn closed(reading: Reading) -> Result<Option<Reading>, AllocError>
    ensures { IfOk result (λ after. after ≡ meaning.closed reading) }
{
    let mut reading = reading;
    match reading.codec.take() {
        Some(codec) => {
            let codec = with_node(codec, reading.node.take())?;
            filed(reading, codec)
        }
        None => Ok(Some(reading)),
    }
}

/// A codec begins.
fn codec_begun(
    alloc: Global,
    number: u32,
    text: &[u8],
    reading: Reading,
) -> Result<Option<Reading>, AllocError>
    ensures { IfOk result (λ after. after ≡ meaning.codec_begun number text.now reading) }
{
    match closed(reading)? {
        Some(before) => {
            let mut reading = before;
            reading.codec = Some(plain_codec(alloc, number, unindented(text))?);
            Ok(Some(reading))
        }
        None => Ok(None),
    }
}

/// Whether a node identifier may come behind a widget.
fn follows(node: &Option<NodeFacts>, nid: u8) -> bool
    ensures { result ≡ meaning.follows node.now nid }
{
    match node {
        Some(node) => u16::from(nid) == u16::from(node.nid) + 1,
        None => true,
    }
}

/// Whether a widget of this identifier may begin: the codec's address and vendor stand before it.
fn may_begin(codec: &CodecFacts, node: &Option<NodeFacts>, nid: u8) -> bool
    ensures { result ≡ meaning.may_begin codec.now node.now nid }
{
    codec.address.is_some() && codec.vendor.is_some() && follows(node, nid)
}

/// A widget begins behind the one that began last.
fn begun(reading: Reading, codec: CodecFacts, node: NodeFacts) -> Result<Reading, AllocError>
    ensures { IfOk result (λ after. after ≡ meaning.begun reading codec node) }
{
    let mut reading = reading;
    let before = reading.node.take();
    reading.codec = Some(with_node(codec, before)?);
    reading.node = Some(node);
    Ok(reading)
}

/// A widget of these numbers begins.
fn node_with_words(
    alloc: Global,
    number: u32,
    fields: &[u32],
    reading: Reading,
    codec: CodecFacts,
) -> Result<Option<Reading>, AllocError>
    ensures { IfOk result (λ after. after ≡ meaning.node_with_words number fields.now reading codec) }
{
    let Some(nid) = nid_of(fields) else {
        return Ok(None);
    };
    let Some(caps) = number_at(fields, 1, 0, u32::MAX) else {
        return Ok(None);
    };
    if !may_begin(&codec, &reading.node, nid) {
        return Ok(None);
    }
    let node = plain_facts(alloc, number, nid, caps);
    Ok(Some(begun(reading, codec, node)?))
}

/// A widget begins.
fn node_begun(
    alloc: Global,
    number: u32,
    text: &[u8],
    reading: Reading,
) -> Result<Option<Reading>, AllocError>
    ensures { IfOk result (λ after. after ≡ meaning.node_begun number text.now reading reading.codec) }
{
    let mut reading = reading;
    match reading.codec.take() {
        Some(codec) => {
            let fields = numbers_in(alloc, text)?;
            node_with_words(alloc, number, &fields, reading, codec)
        }
        None => Ok(None),
    }
}

/// A line of the widget that began last.
fn node_line(
    alloc: Global,
    number: u32,
    line: &[u8],
    reading: Reading,
    node: NodeFacts,
) -> Result<Option<Reading>, AllocError>
    ensures { IfOk result (λ after. after ≡ meaning.node_line number line.now reading node) }
{
    let mut reading = reading;
    match fact_on(alloc, reading.wait, false, number, line, node)? {
        Some((node, wait)) => {
            reading.node = Some(node);
            reading.wait = wait;
            Ok(Some(reading))
        }
        None => Ok(None),
    }
}

/// A line of the function group.
fn group_line(
    alloc: Global,
    number: u32,
    line: &[u8],
    reading: Reading,
    codec: CodecFacts,
) -> Result<Option<Reading>, AllocError>
    ensures { IfOk result (λ after. after ≡ meaning.group_line number line.now reading codec) }
{
    let mut reading = reading;
    let mut codec = codec;
    match fact_on(alloc, reading.wait, true, number, line, codec.group)? {
        Some((group, wait)) => {
            codec.group = group;
            reading.codec = Some(codec);
            reading.wait = wait;
            Ok(Some(reading))
        }
        None => Ok(None),
    }
}

/// A line of the widget that began last, or of the function group where none began, or an empty line before all codecs.
fn table_line(
    alloc: Global,
    number: u32,
    line: &[u8],
    reading: Reading,
) -> Result<Option<Reading>, AllocError>
    ensures { IfOk result (λ after. after ≡ meaning.table_line number line.now reading reading.codec reading.node) }
{
    let mut reading = reading;
    if let Some(node) = reading.node.take() {
        return node_line(alloc, number, line, reading, node);
    }
    match reading.codec.take() {
        Some(codec) => group_line(alloc, number, line, reading, codec),
        None if unindented(line).is_empty() => Ok(Some(reading)),
        None => Ok(None),
    }
}

/// A line of the codec itself, before its widgets.
fn own_line(
    alloc: Global,
    label: Label,
    line: &[u8],
    reading: Reading,
) -> Result<Option<Reading>, AllocError>
    ensures { IfOk result (λ after. after ≡ meaning.own_line label line.now reading reading.codec) }
{
    let mut reading = reading;
    let Some(codec) = reading.codec.take() else {
        return Ok(None);
    };
    let fields = numbers_in(alloc, behind(label, line))?;
    match codec_fact(label, &fields, codec)? {
        Some(codec) => {
            reading.codec = Some(codec);
            Ok(Some(reading))
        }
        None => Ok(None),
    }
}

/// Whether lines of the codec itself may stand here: a codec began, and no widget of it.
fn is_at_head(codec: &Option<CodecFacts>, node: &Option<NodeFacts>) -> bool
    ensures { result ≡ meaning.is_at_head codec.now node.now }
{
    codec.is_some() && node.is_none()
}

/// A line that begins neither a codec nor a widget, where nothing is awaited.
fn head_line(
    alloc: Global,
    number: u32,
    label: Label,
    line: &[u8],
    reading: Reading,
) -> Result<Option<Reading>, AllocError>
    ensures { IfOk result (λ after. after ≡ meaning.head_line number label line.now reading) }
{
    if is_own(label) && is_at_head(&reading.codec, &reading.node) {
        return own_line(alloc, label, line, reading);
    }
    table_line(alloc, number, line, reading)
}

/// A line with a label, where nothing is awaited.
fn labelled_line(
    alloc: Global,
    number: u32,
    label: Label,
    line: &[u8],
    reading: Reading,
) -> Result<Option<Reading>, AllocError>
    ensures { IfOk result (λ after. after ≡ meaning.labelled_line number label line.now reading) }
{
    match label {
        Label::Codec => codec_begun(alloc, number, behind(label, line), reading),
        Label::Node => node_begun(alloc, number, behind(label, line), reading),
        _ => head_line(alloc, number, label, line, reading),
    }
}

/// A line where nothing is awaited.
fn unawaited_line(
    alloc: Global,
    number: u32,
    line: &[u8],
    reading: Reading,
) -> Result<Option<Reading>, AllocError>
    ensures { IfOk result (λ after. after ≡ meaning.unawaited_line number (labels.label_of line.now) line.now reading) }
{
    match label_of(line) {
        Some(label) => labelled_line(alloc, number, label, line, reading),
        None => table_line(alloc, number, line, reading),
    }
}

/// What was read, with one line more, if it can be taken.
#[tactic(auto, unfolding(crate::specs::Reading::with_line))]
fn with_line(
    alloc: Global,
    number: u32,
    line: &[u8],
    reading: Reading,
) -> Result<Option<Reading>, AllocError>
    ensures { IfOk result (λ after. after ≡ meaning.with_line number line.now reading) }
{
    if !is_plain(line) {
        return Ok(None);
    }
    match reading.wait {
        Wait::Nothing => unawaited_line(alloc, number, line, reading),
        _ => table_line(alloc, number, line, reading),
    }
}

/// Why there is no codec at the end, behind which this is the number of a further line.
fn no_codec(number: u32, modem: Option<u32>) -> ReadFault
    ensures { result ≡ meaning.no_codec number modem }
{
    match modem {
        Some(modem) => ReadFault::Modem(modem),
        None => ReadFault::Line(number),
    }
}

/// The codecs at the end.
fn codecs_read(
    number: u32,
    codecs: Items<CodecFacts>,
    modem: Option<u32>,
) -> Result<Items<CodecFacts>, ReadFault>
    ensures { result ≡ meaning.codecs_read number codecs modem }
{
    if codecs.is_empty() {
        return Err(no_codec(number, modem));
    }
    Ok(codecs)
}

/// What was read at the end.
fn all_read(number: u32, reading: Option<Reading>) -> Result<Items<CodecFacts>, ReadFault>
    ensures { result ≡ meaning.all_read number reading }
{
    match reading {
        Some(reading) => codecs_read(number, reading.codecs, reading.modem),
        None => Err(ReadFault::Line(number)),
    }
}

/// The codecs at the end, behind which this is the number of a further line.
fn ended(number: u32, reading: Reading) -> Result<Items<CodecFacts>, ReadFault>
    ensures { IsFactsOf (meaning.ended number reading) result }
{
    match reading.wait {
        Wait::Nothing => {
            let closed = closed(reading)?;
            all_read(number, closed)
        }
        _ => Err(ReadFault::Line(number)),
    }
}

/// What a dump says of its codecs with an audio function group, in order.
///
/// # Errors
/// [`ReadFault::Line`] with the first line that can't be taken, [`ReadFault::Modem`] where all codecs are modems', and
/// want of memory.
#[tactic(auto, unfolding(crate::specs::Reading::facts_of))]
pub fn read_dump(alloc: Global, bytes: &[u8]) -> Result<Items<CodecFacts>, ReadFault>
    requires { length bytes.now ≤ MOST_DUMP_BYTES }
    ensures { IsFactsOf (meaning.facts_of bytes.now) result }
{
    let mut number = 1;
    let mut reading = Reading {
        codecs: Items::new(alloc),
        modem: None,
        codec: None,
        node: None,
        wait: Wait::Nothing,
    };
    for line in Lines::new(bytes) {
        match with_line(alloc, number, line, reading)? {
            Some(more) => reading = more,
            None => return Err(ReadFault::Line(number)),
        }
        number += 1;
    }
    ended(number, reading)
}
