//! The whole text of a picture.
ghost use Rattle.std.specs.Prelude.{◌≡◌, ◌≤◌, max, ◌++◌, OnOk, OnErr};
ghost use Rattle.std.specs.List.{flat_map};
ghost use Rattle.hda_outside.specs.Counts.{Rose};
ghost use Rattle.hda_outside.specs.Sink.{taken_with, TookFront};
ghost use Rattle.sound_report.specs.Pages.{Writes};
ghost use Rattle.svg_text.specs.Pictures.{picture_text, head_text, root_text, view_text};
ghost use Rattle.svg_text.specs.Shapes.{shape_text};

use crate::shapes::{Picture, Shape};
use crate::style::STYLE;
use crate::texts::{push_count, push_extent, push_shape, push_title};
use hda_outside::{Fault, Sink, write_all};
use sound_report::{PAGE_LEN, push_number, push_word, turn};
use std::alloc::{AllocError, Global};

/// The attribute that says which places the picture has.
fn push_view(out: &mut Vec<u8>, width: u32, height: u32) -> Result<(), AllocError>
    ensures { OnOk result (out.new.items ≡ out.old.items ++ view_text width height) }
{
    push_word(out, " viewBox=\"0 0 ")?;
    push_number(out, width.into())?;
    push_word(out, " ")?;
    push_number(out, height.into())?;
    push_word(out, "\"")
}

/// The front of the outermost element.
fn push_root(out: &mut Vec<u8>, width: u32, height: u32) -> Result<(), AllocError>
    ensures { OnOk result (out.new.items ≡ out.old.items ++ root_text width height) }
{
    push_word(
        out,
        "<svg xmlns=\"http://www.w3.org/2000/svg\" role=\"img\"",
    )?;
    push_extent(out, width, height)?;
    push_view(out, width, height)?;
    push_word(out, ">\n")
}

/// What stands before the shapes.
#[tactic(auto, unfolding(crate::specs::Pictures::head_text))]
fn push_head(out: &mut Vec<u8>, picture: &Picture) -> Result<(), AllocError>
    ensures { OnOk result (out.new.items ≡ out.old.items ++ head_text picture.now) }
{
    push_root(out, picture.width, picture.height)?;
    push_title(out, picture.title.as_str())?;
    push_word(out, "\n<style>")?;
    push_word(out, STYLE)?;
    push_word(out, "</style>\n<rect class=\"ground\"")?;
    push_extent(out, picture.width, picture.height)?;
    push_word(out, "/>\n")
}

/// Writes the shapes, page by page, but for what stands on the page at the end.
fn write_shapes<K: Sink>(out: &mut K, page: &mut Vec<u8>, shapes: &[Shape]) -> Result<(), Fault>
    ensures text { Writes result (K.taken out.old) (K.taken out.new)
        (page.old.items ++ flat_map shape_text shapes.now) page.new.items }
    ensures pieces { K.longest out.new ≤ max (K.longest out.old) 4096 }
    ensures later { K.faults out.old ≤ K.faults out.new }
    ensures failed { result ≡ Err Fault.Failed → Rose (K.faults out.old) (K.faults out.new) }
{
    for shape in shapes {
        push_shape(page, shape)?;
        turn(out, page)?;
    }
    Ok(())
}

/// Writes a picture as a text in SVG: an element a line, in the order of its shapes. A text's `<`, `>`, `&` and `"` are
/// written as references, and each byte of it outside the printable ones of ASCII as a question mark, so that the text
/// is well-formed whatever the picture holds. It goes out in pages of 61,440 bytes and up to a shape more. This
/// project's own.
///
/// # Errors
/// The sink's fault, or want of memory. The sink then took the first of the text's bytes, maybe none.
pub fn write_picture<K: Sink>(alloc: Global, out: &mut K, picture: &Picture) -> Result<(), Fault>
    ensures all { OnOk result (K.taken out.new ≡ taken_with (K.taken out.old) (picture_text picture.now)) }
    ensures front { OnErr result (TookFront (K.taken out.old) (K.taken out.new) (picture_text picture.now)) }
    ensures pieces { K.longest out.new ≤ max (K.longest out.old) 4096 }
    ensures later { K.faults out.old ≤ K.faults out.new }
    ensures failed { result ≡ Err Fault.Failed → Rose (K.faults out.old) (K.faults out.new) }
{
    let mut page = Vec::new(alloc);
    page.reserve(PAGE_LEN)?;
    push_head(&mut page, picture)?;
    write_shapes(out, &mut page, picture.shapes.as_slice())?;
    push_word(&mut page, "</svg>\n")?;
    write_all(alloc, out, page.as_slice())
}
