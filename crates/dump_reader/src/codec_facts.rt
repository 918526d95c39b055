//! Reads what a line says of a codec itself.
ghost use Rattle.std.specs.Prelude.{◌≡◌, IfOk};
ghost use Rattle.dump_reader.specs.Facts as spec;
ghost use Rattle.dump_reader.specs.Reading as meaning;

use crate::facts::CodecFacts;
use crate::labels::Label;
use crate::node_facts::{noted, plain_facts};
use crate::numbers::number_at;
use crate::operands::{nid_of, word_of};
use hda_items::Items;
use std::alloc::{AllocError, Global};

/// Nothing is known yet of the codec with this name, which begins on this line.
pub(crate) fn plain_codec(alloc: Global, line: u32, name: &[u8]) -> Result<CodecFacts, AllocError>
    ensures { IfOk result (λ codec. codec ≡ spec.plain_codec line name.now) }
{
    Ok(CodecFacts {
        name: Items::from_slice(alloc, name)?,
        line,
        address: None,
        vendor: None,
        revision: None,
        group_type: None,
        group_nid: None,
        is_modem: false,
        group: plain_facts(alloc, line, 1, 0),
        nodes: Items::new(alloc),
    })
}

/// The codec's address.
fn address_fact(fields: &[u32], codec: CodecFacts) -> Option<CodecFacts>
    ensures { result ≡ meaning.address_fact fields.now codec }
{
    let mut codec = codec;
    let address = number_at(fields, 0, 0, 14)?;
    if codec.address.is_some() {
        return None;
    }
    codec.address = Some(address as u8);
    Some(codec)
}

/// Vendor and device identification.
fn vendor_fact(fields: &[u32], codec: CodecFacts) -> Option<CodecFacts>
    ensures { result ≡ meaning.vendor_fact fields.now codec }
{
    let mut codec = codec;
    let word = word_of(fields)?;
    if codec.vendor.is_some() {
        return None;
    }
    codec.vendor = Some(word);
    Some(codec)
}

/// Revision identification.
fn revision_fact(fields: &[u32], codec: CodecFacts) -> Option<CodecFacts>
    ensures { result ≡ meaning.revision_fact fields.now codec }
{
    let mut codec = codec;
    let word = word_of(fields)?;
    if codec.revision.is_some() {
        return None;
    }
    codec.revision = Some(word);
    Some(codec)
}

/// The function group's type.
fn type_fact(fields: &[u32], codec: CodecFacts) -> Option<CodecFacts>
    ensures { result ≡ meaning.type_fact fields.now codec }
{
    let mut codec = codec;
    let word = word_of(fields)?;
    if codec.group_type.is_some() {
        return None;
    }
    codec.group_type = Some(word);
    Some(codec)
}

/// The function group's node identifier.
fn group_fact(fields: &[u32], codec: CodecFacts) -> Option<CodecFacts>
    ensures { result ≡ meaning.group_fact fields.now codec }
{
    let mut codec = codec;
    let nid = nid_of(fields)?;
    if codec.group_nid.is_some() {
        return None;
    }
    codec.group_nid = Some(nid);
    Some(codec)
}

/// The codec has a modem's function group.
fn modem_fact(label: Label, codec: CodecFacts) -> Result<Option<CodecFacts>, AllocError>
    ensures { IfOk result (λ after. after ≡ meaning.modem_fact label codec) }
{
    let mut codec = codec;
    codec.is_modem = true;
    codec.group = noted(label, codec.group)?;
    Ok(Some(codec))
}

/// The type of one of the function groups: an audio group's, or else a modem's.
fn function_fact(fields: &[u32], codec: CodecFacts) -> Result<Option<CodecFacts>, AllocError>
    ensures { IfOk result (λ after. after ≡ meaning.function_fact fields.now codec) }
{
    match word_of(fields) {
        Some(1) => Ok(type_fact(fields, codec)),
        Some(_) => modem_fact(Label::FunctionType, codec),
        None => Ok(None),
    }
}

/// Whether a line of this label says something of the codec itself.
pub(crate) fn is_own(label: Label) -> bool
    ensures { result ≡ meaning.is_own label }
{
    match label {
        Label::Address | Label::Vendor | Label::Revision => true,
        Label::GroupType | Label::FunctionType | Label::GroupState => true,
        Label::ModemType | Label::Modem => true,
        _ => false,
    }
}

/// What a line of the codec itself, with these numbers, says.
pub(crate) fn codec_fact(
    label: Label,
    fields: &[u32],
    codec: CodecFacts,
) -> Result<Option<CodecFacts>, AllocError>
    ensures { IfOk result (λ after. after ≡ meaning.codec_fact label fields.now codec) }
{
    match label {
        Label::Address => Ok(address_fact(fields, codec)),
        Label::Vendor => Ok(vendor_fact(fields, codec)),
        Label::Revision => Ok(revision_fact(fields, codec)),
        Label::GroupType => Ok(type_fact(fields, codec)),
        Label::FunctionType => function_fact(fields, codec),
        Label::GroupState => Ok(group_fact(fields, codec)),
        _ => modem_fact(label, codec),
    }
}
