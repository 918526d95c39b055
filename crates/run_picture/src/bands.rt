//! What pins heard, column by column.
ghost use Rattle.std.specs.Prelude.{◌≡◌, ◌≤◌, ◌<◌, ◌++◌, ◌∷◌, [], length, get_or, IfOk, OnOk, slice_range};
ghost use Rattle.heard_lists.specs.declared.pin_list.PinHeard.{PinHeard};
ghost use Rattle.run_picture.specs.Bands as spec;

use crate::columns::Column;
use crate::scales::height_if;
use crate::series::push_area;
use hda_items::Items;
use heard_frames::Heard;
use heard_lists::{HeardPins, Kind};
use std::alloc::{AllocError, Global};
use svg_text::{Paint, Shape};

/// The height of a band.
const BAND: u32 = 18;
/// From one band to the next.
const PITCH: u32 = 26;
/// The base line of the first band.
pub(crate) const BANDS: u32 = 836;

/// Whether an item is of a kind.
fn is_of(kind: Kind, heard: &Heard) -> bool
    ensures { result ≡ spec.is_of kind heard.now }
{
    matches!(
        (kind, heard),
        (Kind::Sound, Heard::Sound(..))
            | (Kind::Quiet, Heard::Quiet)
            | (Kind::Hole, Heard::Hole)
            | (Kind::Altered, Heard::Altered)
    )
}

/// Whether some item is of a kind.
fn has_kind(kind: Kind, items: &[Heard]) -> bool
    ensures { result ≡ spec.has_kind kind items.now }
{
    items.iter().any(|heard| is_of(kind, heard))
}

/// Up to which of so many items a column goes, from one on.
fn until(from: usize, items: usize, column: &Column) -> usize
    requires { from ≤ items }
    ensures value { result ≡ spec.until from items column.now }
    ensures after { from ≤ result }
    ensures within { result ≤ items }
{
    (column.items.min(items as u64) as usize).max(from)
}

/// Marks at the columns in which a pin heard something of a kind.
fn kind_marks(
    alloc: Global,
    columns: &[Column],
    items: &[Heard],
    kind: Kind,
) -> Result<Vec<u32>, AllocError>
    ensures items { IfOk result (λ list. list.items ≡ spec.kind_marks kind items.now 0 columns.now) }
    ensures len { IfOk result (λ list. length list.items ≡ length columns.now) }
{
    let mut list = Vec::new(alloc);
    let mut from = 0;
    for column in columns {
        let to = until(from, items.len(), column);
        list.push(height_if(has_kind(kind, &items[from..to]), BAND))?;
        from = to;
    }
    Ok(list)
}

/// The marks of a kind over a base line, as an area.
fn push_kind(
    shapes: &mut Items<Shape>,
    alloc: Global,
    columns: &[Column],
    items: &[Heard],
    kind: Kind,
    paint: Paint,
    base: u32,
) -> Result<(), AllocError>
    requires { length columns.now ≤ 540 }
    ensures { OnOk result (shapes.new ≡ shapes.old ++ spec.kind_shape columns.now items.now kind paint base ∷ []) }
{
    let marks = kind_marks(alloc, columns, items, kind)?;
    push_area(shapes, alloc, paint, base, marks.as_slice())
}

/// The band of a pin that heard these items.
fn push_band(
    shapes: &mut Items<Shape>,
    alloc: Global,
    columns: &[Column],
    items: &[Heard],
    base: u32,
) -> Result<(), AllocError>
    requires { length columns.now ≤ 540 }
    ensures { OnOk result (shapes.new ≡ shapes.old ++ spec.band_shapes columns.now items.now base) }
{
    push_kind(
        shapes,
        alloc,
        columns,
        items,
        Kind::Quiet,
        Paint::Quiet,
        base,
    )?;
    push_kind(
        shapes,
        alloc,
        columns,
        items,
        Kind::Sound,
        Paint::Sound,
        base,
    )?;
    push_kind(
        shapes,
        alloc,
        columns,
        items,
        Kind::Altered,
        Paint::Limit,
        base,
    )?;
    push_kind(shapes, alloc, columns, items, Kind::Hole, Paint::Hole, base)
}

/// The base line of the band of a number.
pub(crate) fn band_base(place: usize) -> u32
    requires { place < 16 }
    ensures value { result ≡ spec.band_base place }
    ensures bound { result ≤ 1300 }
{
    BANDS + PITCH * place as u32
}

/// How many bands there are: those of the first sixteen pins, of which a machine has no more.
pub(crate) fn band_count(pins: &HeardPins) -> usize
    ensures value { result ≡ spec.band_count pins.now }
    ensures few { result ≤ 16 }
    ensures there { result ≤ length pins.now }
{
    pins.len().min(16)
}

/// The band of the pin at a place, counted from 0, whose items are gathered in `items`.
fn push_band_at(
    shapes: &mut Items<Shape>,
    alloc: Global,
    columns: &[Column],
    pins: &HeardPins,
    place: usize,
) -> Result<(), AllocError>
    requires few { length columns.now ≤ 540 }
    requires there { place < length pins.now }
    requires drawn { place < 16 }
    ensures { (pin : PinHeard) → OnOk result (shapes.new
        ≡ shapes.old ++ spec.band_shapes columns.now (get_or pins.now place pin).list (spec.band_base place)) }
{
    let mut items = Vec::new(alloc);
    pins.push_list(place, &mut items)?;
    push_band(shapes, alloc, columns, items.as_slice(), band_base(place))
}

/// The bands of pins.
///
/// # Errors
/// Want of memory.
pub(crate) fn push_bands(
    shapes: &mut Items<Shape>,
    alloc: Global,
    columns: &[Column],
    pins: &HeardPins,
) -> Result<(), AllocError>
    requires { length columns.now ≤ 540 }
    ensures { OnOk result (shapes.new ≡ shapes.old ++ spec.bands columns.now 0 pins.now) }
{
    for place in 0..band_count(pins) {
        push_band_at(shapes, alloc, columns, pins, place)?;
    }
    Ok(())
}
