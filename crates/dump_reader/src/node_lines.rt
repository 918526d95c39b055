//! Reads what a line says of the function group or of a widget, by what is awaited.
ghost use Rattle.std.specs.Prelude.{◌≡◌, IfOk};
ghost use Rattle.dump_reader.specs.Labels as labels;
ghost use Rattle.dump_reader.specs.Numbers as numbers;
ghost use Rattle.dump_reader.specs.Reading as meaning;

use crate::cuts::unindented;
use crate::facts::NodeFacts;
use crate::labels::{Label, behind, label_of};
use crate::node_facts::{group_label, node_fact, with_other};
use crate::numbers::{number_at, numbers_in};
use crate::operands::{list_of, star_in, word_of};
use crate::wait::Wait;
use std::alloc::{AllocError, Global};

/// What a line with a label says of the function group or of a widget, read as another label.
fn labelled_fact(
    alloc: Global,
    number: u32,
    own: Label,
    text: &[u8],
    facts: NodeFacts,
) -> Result<Option<(NodeFacts, Wait)>, AllocError>
    ensures { IfOk result (λ after. after ≡ meaning.node_fact number own text.now (numbers.numbers text.now) facts) }
{
    let fields = numbers_in(alloc, text)?;
    node_fact(alloc, number, own, text, &fields, facts)
}

/// A line of the function group or of a widget where nothing is awaited.
fn free_line(
    alloc: Global,
    is_group: bool,
    number: u32,
    line: &[u8],
    facts: NodeFacts,
) -> Result<Option<(NodeFacts, Wait)>, AllocError>
    ensures { IfOk result (λ after. after ≡ meaning.free_line is_group number
        (labels.label_of line.now) line.now facts) }
{
    let Some(label) = label_of(line) else {
        if unindented(line).is_empty() {
            return Ok(Some((facts, Wait::Nothing)));
        }
        return Ok(Some((with_other(number, facts), Wait::Nothing)));
    };
    let text = behind(label, line);
    if !is_group {
        return labelled_fact(alloc, number, label, text, facts);
    }
    match group_label(label) {
        Some(own) => labelled_fact(alloc, number, own, text, facts),
        None => Ok(None),
    }
}

/// The line of PCM rates, or that there are none.
fn rates_line(
    alloc: Global,
    line: &[u8],
    facts: NodeFacts,
) -> Result<Option<(NodeFacts, Wait)>, AllocError>
    ensures { IfOk result (λ after. after ≡ meaning.awaited_line Wait.Rates (labels.label_of line.now) line.now facts) }
{
    match label_of(line) {
        Some(Label::Rates) => {
            let fields = numbers_in(alloc, behind(Label::Rates, line))?;
            match number_at(&fields, 0, 0, 65_535) {
                Some(rates) => Ok(Some((facts, Wait::Bits(rates as u16)))),
                None => Ok(None),
            }
        }
        Some(Label::NotAvailable) => Ok(Some((facts, Wait::Nothing))),
        _ => Ok(None),
    }
}

/// The line of PCM sizes, behind these rates.
fn bits_line(
    alloc: Global,
    rates: u16,
    line: &[u8],
    facts: NodeFacts,
) -> Result<Option<(NodeFacts, Wait)>, AllocError>
    ensures { IfOk result (λ after. after ≡ meaning.awaited_line (Wait.Bits rates) (labels.label_of line.now) line.now
        facts) }
{
    let mut facts = facts;
    if label_of(line) != Some(Label::Bits) {
        return Ok(None);
    }
    let fields = numbers_in(alloc, behind(Label::Bits, line))?;
    let Some(bits) = number_at(&fields, 0, 0, 65_535) else {
        return Ok(None);
    };
    if facts.pcm.is_some() {
        return Ok(None);
    }
    facts.pcm = Some(bits * 0x1_0000 + u32::from(rates));
    Ok(Some((facts, Wait::Formats)))
}

/// The line of stream formats.
fn formats_line(
    alloc: Global,
    line: &[u8],
    facts: NodeFacts,
) -> Result<Option<(NodeFacts, Wait)>, AllocError>
    ensures { IfOk result (λ after. after ≡ meaning.awaited_line Wait.Formats (labels.label_of line.now) line.now
        facts) }
{
    let mut facts = facts;
    if label_of(line) != Some(Label::Formats) {
        return Ok(None);
    }
    let fields = numbers_in(alloc, behind(Label::Formats, line))?;
    let Some(formats) = word_of(&fields) else {
        return Ok(None);
    };
    if facts.formats.is_some() {
        return Ok(None);
    }
    facts.formats = Some(formats);
    Ok(Some((facts, Wait::Nothing)))
}

/// The selected place, which is one of a connection list.
fn selected(place: Option<usize>) -> Option<Option<u8>>
    ensures { result ≡ meaning.selected place }
{
    match place {
        None => Some(None),
        Some(place) if place <= 126 => Some(Some(place as u8)),
        Some(_) => None,
    }
}

/// The line of a connection list.
fn list_line(
    alloc: Global,
    count: u8,
    line: &[u8],
    facts: NodeFacts,
) -> Result<Option<(NodeFacts, Wait)>, AllocError>
    ensures { IfOk result (λ after. after ≡ meaning.list_line count line.now facts) }
{
    let mut facts = facts;
    let fields = numbers_in(alloc, line)?;
    let Some(list) = list_of(alloc, count, &fields)? else {
        return Ok(None);
    };
    let Some(select) = selected(star_in(alloc, line)?) else {
        return Ok(None);
    };
    facts.list = Some(list);
    facts.select = select;
    Ok(Some((facts, Wait::Nothing)))
}

/// What a line says of the function group or of a widget, by what is awaited.
///
/// # Errors
/// Want of memory.
pub(crate) fn fact_on(
    alloc: Global,
    wait: Wait,
    is_group: bool,
    number: u32,
    line: &[u8],
    facts: NodeFacts,
) -> Result<Option<(NodeFacts, Wait)>, AllocError>
    ensures { IfOk result (λ after. after ≡ meaning.fact_on wait is_group number line.now facts) }
{
    match wait {
        Wait::Nothing => free_line(alloc, is_group, number, line, facts),
        Wait::Passed => Ok(Some((facts, Wait::Nothing))),
        Wait::List(count) => list_line(alloc, count, line, facts),
        Wait::Rates => rates_line(alloc, line, facts),
        Wait::Bits(rates) => bits_line(alloc, rates, line, facts),
        Wait::Formats => formats_line(alloc, line, facts),
    }
}
