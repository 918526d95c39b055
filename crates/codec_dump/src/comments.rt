//! The comments of a codec file that is written of a dump. Each call here appends to a text.
ghost use Rattle.std.specs.Prelude.{◌≡◌, ◌++◌, ◌∷◌, OnOk, string_bytes};
ghost use Rattle.std.specs.List.{flat_map};
ghost use Rattle.codec_dump.specs.Comments as comments;

use crate::mend::listed;
use crate::pieces::{push_bytes, push_digits, push_number, push_text};
use codec_graph::{MOST_AMPLIFIED, has_bit};
use dump_reader::{CodecFacts, Gain, Label, NodeFacts};
use std::alloc::AllocError;
use std::fmt::Write;

/// A label as a comment names it: without the colon at its end.
fn name_of(label: Label) -> &'static str
    ensures { result.now ≡ comments.label_name label }
{
    let text = label.text();
    match text.strip_suffix(':') {
        Some(name) => name,
        None => text,
    }
}

/// A label behind a comma.
fn push_further_label(text: &mut String, label: Label) -> Result<(), AllocError>
    ensures { OnOk result (string_bytes text.new ≡ string_bytes text.old ++ comments.further_label label) }
{
    push_text(text, ", ")?;
    push_text(text, name_of(label))
}

/// Labels, each behind a comma.
fn push_further_labels(text: &mut String, labels: &[Label]) -> Result<(), AllocError>
    ensures { OnOk result (string_bytes text.new
        ≡ string_bytes text.old ++ flat_map comments.further_label labels.now) }
{
    for label in labels {
        push_further_label(text, *label)?;
    }
    Ok(())
}

/// The comment of lines with these labels, of which there is a first.
fn push_noted(text: &mut String, first: Label, further: &[Label]) -> Result<(), AllocError>
    ensures { OnOk result (string_bytes text.new
        ≡ string_bytes text.old ++ comments.labels_line (first ∷ further.now)) }
{
    push_text(text, "# no key for: ")?;
    push_text(text, name_of(first))?;
    push_further_labels(text, further)?;
    push_text(text, "\n")
}

/// The comment of lines whose labels have no key.
fn push_labels(text: &mut String, labels: &[Label]) -> Result<(), AllocError>
    ensures { OnOk result (string_bytes text.new ≡ string_bytes text.old ++ comments.labels_line labels.now) }
{
    match labels {
        [first, further @ ..] => push_noted(text, *first, further),
        [] => Ok(()),
    }
}

/// The comment of lines without a label.
fn push_others(text: &mut String, count: u32, first: u32) -> Result<(), AllocError>
    ensures { OnOk result (string_bytes text.new ≡ string_bytes text.old ++ comments.others_line count first) }
{
    if count == 0 {
        return Ok(());
    }
    write!(
        text,
        "# no key for {count} other lines, the first is line {first}\n"
    )
}

/// The comments of what has no key.
fn push_notes(text: &mut String, facts: &NodeFacts) -> Result<(), AllocError>
    ensures { OnOk result (string_bytes text.new ≡ string_bytes text.old ++ comments.note_lines facts.now) }
{
    push_labels(text, facts.notes.as_slice())?;
    push_others(text, facts.others, facts.first_other)
}

/// The comment of pin capabilities as old kernels print them.
fn push_old_pin_caps(
    text: &mut String,
    is_old: bool,
    pin_caps: Option<u32>,
) -> Result<(), AllocError>
    ensures { OnOk result (string_bytes text.new
        ≡ string_bytes text.old ++ comments.old_pin_caps_line is_old pin_caps) }
{
    match pin_caps {
        Some(caps) if is_old => write!(text, "# Pincap 0x08{caps:x} is an old kernel's form\n"),
        _ => Ok(()),
    }
}

/// The comment of a voltage reference.
fn push_reference(text: &mut String, control: Option<u8>) -> Result<(), AllocError>
    ensures { OnOk result (string_bytes text.new ≡ string_bytes text.old ++ comments.reference_line control) }
{
    let reference = match control {
        Some(control) => control % 8,
        None => 0,
    };
    if reference == 0 {
        return Ok(());
    }
    write!(text, "# VREF setting {reference} has no key\n")
}

/// Two sides, of which the left one is taken.
fn push_both(text: &mut String, gain: Gain) -> Result<(), AllocError>
    ensures { OnOk result (string_bytes text.new ≡ string_bytes text.old ++ comments.both_sides gain) }
{
    push_text(text, ": left ")?;
    push_number(text, gain.left)?;
    push_text(text, ", right ")?;
    push_number(text, gain.right)?;
    push_text(text, "; the left one is taken\n")
}

/// The comment of sides that differ.
fn push_sides(text: &mut String, key: &str, place: usize, gain: Gain) -> Result<(), AllocError>
    ensures { OnOk result (string_bytes text.new
        ≡ string_bytes text.old ++ comments.sides_line key.now place gain) }
{
    if gain.left == gain.right {
        return Ok(());
    }
    write!(text, "# {key} at place {place}")?;
    push_both(text, gain)
}

/// The comments of input amplifiers whose sides differ.
fn push_all_sides(text: &mut String, gains: &[Gain]) -> Result<(), AllocError>
    ensures { OnOk result (string_bytes text.new ≡ string_bytes text.old ++ comments.sides_lines gains.now) }
{
    for place in 0..gains.len() {
        push_sides(text, "gain_in", place, gains[place])?;
    }
    Ok(())
}

/// Those of them that have a place in a command.
fn first_gains(gains: &[Gain]) -> &[Gain]
    ensures { result.now ≡ comments.first_gains gains.now }
{
    let most = usize::from(MOST_AMPLIFIED);
    if gains.len() <= most {
        return gains;
    }
    &gains[..most]
}

/// The comment of input amplifiers that have no place in a command.
fn push_inputs(text: &mut String, count: usize) -> Result<(), AllocError>
    ensures { OnOk result (string_bytes text.new ≡ string_bytes text.old ++ comments.inputs_line count) }
{
    if count <= usize::from(MOST_AMPLIFIED) {
        return Ok(());
    }
    write!(
        text,
        "# {count} input amplifiers are given; the first 16 have a key\n"
    )
}

/// The comments of input amplifiers.
fn push_gains_in(text: &mut String, facts: &NodeFacts) -> Result<(), AllocError>
    ensures { OnOk result (string_bytes text.new
        ≡ string_bytes text.old ++ comments.gains_in_lines facts.now.gains_in) }
{
    match &facts.gains_in {
        Some(gains) => {
            push_all_sides(text, first_gains(gains.as_slice()))?;
            push_inputs(text, gains.len())
        }
        None => Ok(()),
    }
}

/// The comment of the output amplifier.
fn push_gain_out(text: &mut String, gain: Option<Gain>) -> Result<(), AllocError>
    ensures { OnOk result (string_bytes text.new ≡ string_bytes text.old ++ comments.gain_out_line gain) }
{
    match gain {
        Some(gain) => push_sides(text, "gain_out", 0, gain),
        None => Ok(()),
    }
}

/// The comments of what a widget's pin and amplifiers have that has no key.
fn push_parts(text: &mut String, facts: &NodeFacts) -> Result<(), AllocError>
    ensures { OnOk result (string_bytes text.new ≡ string_bytes text.old ++ comments.part_lines facts.now) }
{
    push_old_pin_caps(text, facts.is_old_pin_caps, facts.pin_caps)?;
    push_reference(text, facts.control)?;
    push_gains_in(text, facts)?;
    push_gain_out(text, facts.gain_out)
}

/// The comment of a connection list of a widget that has none.
fn push_unlisted(text: &mut String, facts: &NodeFacts) -> Result<(), AllocError>
    ensures { OnOk result (string_bytes text.new ≡ string_bytes text.old ++ comments.unlisted_line facts.now) }
{
    if facts.list.is_none() || has_bit(facts.caps, 8) {
        return Ok(());
    }
    push_text(
        text,
        "# no key for: Connection, since caps has no connection list\n",
    )
}

/// Whether a word is this one.
fn is_word(word: u32, other: Option<u32>) -> bool
    ensures { result ≡ comments.is_word word other }
{
    match other {
        Some(other) => other == word,
        None => false,
    }
}

/// The comment of amplifier capabilities whose offset was above their steps.
fn push_offset(text: &mut String, key: &str, word: u32) -> Result<(), AllocError>
    ensures { OnOk result (string_bytes text.new ≡ string_bytes text.old ++ comments.offset_line key.now word) }
{
    write!(text, "# mended: {key} was ")?;
    push_digits(text, word)?;
    push_text(text, ", whose offset is above its steps\n")
}

/// The comment of a change of amplifier capabilities.
fn push_mended_word(
    text: &mut String,
    key: &str,
    before: Option<u32>,
    after: Option<u32>,
) -> Result<(), AllocError>
    ensures { OnOk result (string_bytes text.new
        ≡ string_bytes text.old ++ comments.mended_word_line key.now before after) }
{
    match before {
        Some(word) if !is_word(word, after) => push_offset(text, key, word),
        _ => Ok(()),
    }
}

/// The comments of changes of amplifier capabilities.
fn push_mended_words(
    text: &mut String,
    before: &NodeFacts,
    after: &NodeFacts,
) -> Result<(), AllocError>
    ensures { OnOk result (string_bytes text.new
        ≡ string_bytes text.old ++ comments.mended_words before.now after.now) }
{
    push_mended_word(text, "amp_in", before.amp_in, after.amp_in)?;
    push_mended_word(text, "amp_out", before.amp_out, after.amp_out)
}

/// A selected place.
fn push_place(text: &mut String, place: u8) -> Result<(), AllocError>
    ensures { OnOk result (string_bytes text.new ≡ string_bytes text.old ++ comments.place_text place) }
{
    push_text(text, " with select ")?;
    push_number(text, place)
}

/// The selected place, where it is given.
fn push_select(text: &mut String, select: Option<u8>) -> Result<(), AllocError>
    ensures { OnOk result (string_bytes text.new ≡ string_bytes text.old ++ comments.with_select select) }
{
    match select {
        Some(place) => push_place(text, place),
        None => Ok(()),
    }
}

/// Which connections were taken out.
fn push_taken_out(text: &mut String, group: u8) -> Result<(), AllocError>
    ensures { OnOk result (string_bytes text.new ≡ string_bytes text.old ++ comments.taken_out group) }
{
    push_text(text, "; ")?;
    push_number(text, group)?;
    push_text(text, " is the function group\n")
}

/// The comment of a connection list of which connections were taken out.
fn push_old_list(
    text: &mut String,
    group: u8,
    list: &[u8],
    select: Option<u8>,
) -> Result<(), AllocError>
    ensures { OnOk result (string_bytes text.new
        ≡ string_bytes text.old ++ comments.old_list_line group list.now select) }
{
    push_text(text, "# mended: list was ")?;
    push_bytes(text, list)?;
    push_select(text, select)?;
    push_taken_out(text, group)
}

/// The comment of a change of a connection list.
fn push_mended_list(
    text: &mut String,
    group: u8,
    before: &NodeFacts,
    after: &NodeFacts,
) -> Result<(), AllocError>
    ensures { OnOk result (string_bytes text.new
        ≡ string_bytes text.old ++ comments.mended_list_line group before.now after.now) }
{
    let list = listed(before);
    if list.len() == listed(after).len() {
        return Ok(());
    }
    push_old_list(text, group, list, before.select)
}

/// The comments of a widget.
pub(crate) fn push_node_comments(
    text: &mut String,
    group: u8,
    before: &NodeFacts,
    after: &NodeFacts,
) -> Result<(), AllocError>
    ensures { OnOk result (string_bytes text.new
        ≡ string_bytes text.old ++ comments.node_comments group before.now after.now) }
{
    push_notes(text, after)?;
    push_parts(text, after)?;
    push_unlisted(text, after)?;
    push_mended_words(text, before, after)?;
    push_mended_list(text, group, before, after)
}

/// The comment of a usual value, where nothing is given.
#[tactic(auto, unfolding(crate::specs::Comments::usual_line))]
fn push_usual(text: &mut String, is_given: bool, key: &str, usual: &str) -> Result<(), AllocError>
    ensures { OnOk result (string_bytes text.new
        ≡ string_bytes text.old ++ comments.usual_line is_given key.now usual.now) }
{
    if is_given {
        return Ok(());
    }
    write!(text, "# {key} isn't in the dump: the usual {usual}\n")
}

/// The comments of usual values of the codec's own words.
fn push_usual_words(text: &mut String, codec: &CodecFacts) -> Result<(), AllocError>
    ensures { OnOk result (string_bytes text.new ≡ string_bytes text.old ++ comments.usual_words codec.now) }
{
    push_usual(text, codec.revision.is_some(), "revision", "0")?;
    push_usual(text, codec.group_nid.is_some(), "group", "1")?;
    push_usual(text, codec.group_type.is_some(), "group_type", "1")
}

/// The comments of usual values of its function group.
fn push_usual_group(text: &mut String, group: &NodeFacts) -> Result<(), AllocError>
    ensures { OnOk result (string_bytes text.new ≡ string_bytes text.old ++ comments.usual_group group.now) }
{
    push_usual(text, group.power_state.is_some(), "group_power", "0")?;
    push_usual(text, group.pcm.is_some(), "pcm", "0x00020040")?;
    push_usual(text, group.formats.is_some(), "formats", "1")
}

/// Whether power states of a widget are the usual ones.
fn has_usual_power(facts: &NodeFacts) -> bool
    ensures { result ≡ comments.has_usual_power facts.now }
{
    facts.power.is_none() && has_bit(facts.caps, 10)
}

/// Whether those of any widget are.
fn any_has_usual_power(nodes: &[NodeFacts]) -> bool
    ensures { result ≡ comments.any_has_usual_power nodes.now }
{
    nodes.iter().any(|facts| has_usual_power(facts))
}

/// The comment of usual power states.
fn push_usual_power(text: &mut String, nodes: &[NodeFacts]) -> Result<(), AllocError>
    ensures { OnOk result (string_bytes text.new ≡ string_bytes text.old ++ comments.usual_power_line nodes.now) }
{
    if !any_has_usual_power(nodes) {
        return Ok(());
    }
    push_text(
        text,
        "# power states aren't in the dump: 0x0f (D0 to D3) where a node has power control\n",
    )
}

/// The comments of a codec.
pub(crate) fn push_codec_comments(
    text: &mut String,
    before: &CodecFacts,
    after: &CodecFacts,
) -> Result<(), AllocError>
    ensures { OnOk result (string_bytes text.new
        ≡ string_bytes text.old ++ comments.codec_comments before.now after.now) }
{
    push_usual_words(text, after)?;
    push_usual_group(text, &after.group)?;
    push_usual_power(text, after.nodes.as_slice())?;
    push_notes(text, &after.group)?;
    push_mended_words(text, &before.group, &after.group)
}
