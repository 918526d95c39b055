//! Reads what a widget's table says of its settings at the start.
ghost use Rattle.std.specs.Prelude.{◌≡◌, ◌≤◌, length, IfOk};
ghost use Rattle.toml.specs.View.{table_view};
ghost use Rattle.hda_files.specs.Openings as openings;
ghost use Rattle.hda_files.specs.Values as values;
ghost use Rattle.hda_files.specs.Readers.{IsMeant};

use crate::fault::{FileFault, Key, Place};
use crate::numbers::read_bytes;
use crate::values::{flag_at, given_byte, given_short, value_at};
use codec_graph::MOST_AMPLIFIED;
use hda_items::Items;
use std::alloc::Global;
use toml::Table;

/// What a table says of its widget's settings at the start (HDA 1.0a, 7.3.3). A setting that is not given is `None`.
#[derive(Debug, Drop)]
pub(crate) struct NodeOpening {
    /// The selected place of the connection list.
    pub select: Option<u8>,
    /// The power state.
    pub power_state: Option<u8>,
    /// The stream tag and the channel.
    pub stream: Option<u8>,
    /// The pin control.
    pub control: Option<u8>,
    /// The control of unsolicited responses.
    pub unsol: Option<u8>,
    /// The control of the external amplifier.
    pub eapd: Option<u8>,
    /// The digital converter control.
    pub digital: Option<u8>,
    /// Mute and gain of both sides of the output amplifier.
    pub gain_out: Option<u8>,
    /// The stream format.
    pub format: Option<u16>,
    /// Mute and gain of both sides of the input amplifier, for the first places of the connection list.
    pub gain_in: Items<u8>,
    /// Whether something is plugged in.
    pub present: bool,
}

/// The 8 bits at a key, if it is given.
fn given_bits(table: &Table, place: Place, key: Key) -> Result<Option<u8>, FileFault>
    ensures { result ≡ openings.given_byte (table_view table.now) place key }
{
    given_byte(table, place, key, 0, 255)
}

/// Mute and gain of the input amplifier at the places of the connection list.
fn gains_at(alloc: Global, table: &Table, place: Place) -> Result<Items<u8>, FileFault>
    ensures { IsMeant result (openings.gains_of place (values.value_at (table_view table.now) Key.GainIn)) }
{
    match value_at(table, Key::GainIn) {
        Some(value) => read_bytes(
            alloc,
            value,
            place,
            Key::GainIn,
            usize::from(MOST_AMPLIFIED),
        ),
        None => Ok(Items::new(alloc)),
    }
}

/// Reads what a table says of its widget's settings.
pub(crate) fn read_opening(
    alloc: Global,
    table: &Table,
    place: Place,
) -> Result<NodeOpening, FileFault>
    ensures { IsMeant result (openings.opening_of (table_view table.now) place) }
{
    let select = given_bits(table, place, Key::Select)?;
    let power_state = given_bits(table, place, Key::PowerState)?;
    let stream = given_bits(table, place, Key::Stream)?;
    let control = given_bits(table, place, Key::Control)?;
    let unsol = given_bits(table, place, Key::Unsol)?;
    let eapd = given_bits(table, place, Key::Eapd)?;
    let digital = given_bits(table, place, Key::Digital)?;
    let gain_out = given_bits(table, place, Key::GainOut)?;
    let format = given_short(table, place, Key::Format, 0, 65_535)?;
    let gain_in = gains_at(alloc, table, place)?;
    let present = flag_at(table, place, Key::Present)?;
    Ok(NodeOpening {
        select,
        power_state,
        stream,
        control,
        unsol,
        eapd,
        digital,
        gain_out,
        format,
        gain_in,
        present,
    })
}
