//! Heights of columns as shapes: a step where the height changes.
ghost use Rattle.std.specs.Prelude.{◌≡◌, ◌≤◌, ◌<◌, ◌++◌, ◌∷◌, [], length, OnOk, IfOk, reverse};
ghost use Rattle.svg_text.specs.declared.shapes.Shape.TheVariants as shape;
ghost use Rattle.run_picture.specs.Series as spec;

use hda_items::Items;
use std::alloc::{AllocError, Global};
use svg_text::{Paint, Point, Shape};

/// The place of the first column, in pixels from the left.
pub(crate) const LEFT: u32 = 110;
/// How many pixels all columns have together.
pub(crate) const WIDTH: u32 = 1050;
/// How many heights there are at most.
const MOST_HEIGHTS: usize = 540;

/// Where a column of so many begins, or ends where it is one behind the last.
pub(crate) fn place_of(column: usize, count: usize) -> u32
    requires within { column ≤ count }
    requires few { count ≤ MOST_HEIGHTS }
    ensures value { result ≡ spec.place_of column count }
    ensures bound { result ≤ 1160 }
{
    if count == 0 {
        return LEFT;
    }
    LEFT + column as u32 * WIDTH / count as u32
}

/// A corner over a base line.
fn corner(column: usize, count: usize, base: u32, height: u32) -> Point
    requires within { column ≤ count }
    requires few { count ≤ MOST_HEIGHTS }
    ensures { result ≡ spec.corner count base column height }
{
    Point {
        x: place_of(column, count),
        y: base.saturating_sub(height),
    }
}

/// The step to a height, if it is another one.
fn push_step(
    points: &mut Vec<Point>,
    column: usize,
    count: usize,
    base: u32,
    last: u32,
    height: u32,
) -> Result<(), AllocError>
    requires within { column ≤ count }
    requires few { count ≤ MOST_HEIGHTS }
    ensures { OnOk result (points.new.items ≡ points.old.items ++ spec.step count base column last height) }
{
    if height == last {
        return Ok(());
    }
    points.push(corner(column, count, base, last))?;
    points.push(corner(column, count, base, height))?;
    Ok(())
}

/// The corners of heights, from a height on.
fn push_corners(
    points: &mut Vec<Point>,
    base: u32,
    from: u32,
    heights: &[u32],
) -> Result<(), AllocError>
    requires { length heights.now ≤ MOST_HEIGHTS }
    ensures { OnOk result (points.new.items
        ≡ points.old.items ++ spec.corners (length heights.now) base 0 from heights.now) }
{
    let count = heights.len();
    let mut last = from;
    for column in 0..count {
        push_step(points, column, count, base, last, heights[column])?;
        last = heights[column];
    }
    points.push(corner(count, count, base, last))?;
    Ok(())
}

/// The first of heights, 0 where there is none.
fn first_of(heights: &[u32]) -> u32
    ensures { result ≡ spec.first_of heights.now }
{
    if heights.is_empty() { 0 } else { heights[0] }
}

/// The points of a line along heights.
pub(crate) fn line_points(
    alloc: Global,
    base: u32,
    heights: &[u32],
) -> Result<Vec<Point>, AllocError>
    requires { length heights.now ≤ MOST_HEIGHTS }
    ensures { IfOk result (λ points. points.items ≡ spec.line_points base heights.now) }
{
    let mut points = Vec::new(alloc);
    let first = first_of(heights);
    points.push(corner(0, heights.len(), base, first))?;
    push_corners(&mut points, base, first, heights)?;
    Ok(points)
}

/// A line along heights over a base line.
///
/// # Errors
/// Want of memory.
pub(crate) fn push_line(
    shapes: &mut Items<Shape>,
    alloc: Global,
    paint: Paint,
    base: u32,
    heights: &[u32],
) -> Result<(), AllocError>
    requires { length heights.now ≤ MOST_HEIGHTS }
    ensures { OnOk result (shapes.new ≡ shapes.old
        ++ shape.Trail paint (spec.line_points base heights.now) ∷ []) }
{
    let points = line_points(alloc, base, heights)?;
    shapes.push(Shape::Trail {
        paint,
        points: Items::from_vec(points),
    })?;
    Ok(())
}

/// The area between two lines of heights over a base line.
///
/// # Errors
/// Want of memory.
pub(crate) fn push_between(
    shapes: &mut Items<Shape>,
    alloc: Global,
    paint: Paint,
    base: u32,
    lower: &[u32],
    upper: &[u32],
) -> Result<(), AllocError>
    requires few_lower { length lower.now ≤ MOST_HEIGHTS }
    requires few_upper { length upper.now ≤ MOST_HEIGHTS }
    ensures { OnOk result (shapes.new ≡ shapes.old
        ++ shape.Area paint (spec.line_points base upper.now ++ reverse (spec.line_points base lower.now)) ∷ []) }
{
    let mut points = line_points(alloc, base, upper)?;
    let mut back = line_points(alloc, base, lower)?;
    back.reverse();
    points.extend_from_slice(back.as_slice())?;
    shapes.push(Shape::Area {
        paint,
        points: Items::from_vec(points),
    })?;
    Ok(())
}

/// The area between heights and a base line.
///
/// # Errors
/// Want of memory.
pub(crate) fn push_area(
    shapes: &mut Items<Shape>,
    alloc: Global,
    paint: Paint,
    base: u32,
    heights: &[u32],
) -> Result<(), AllocError>
    requires { length heights.now ≤ MOST_HEIGHTS }
    ensures { OnOk result (shapes.new ≡ shapes.old ++ shape.Area paint (spec.area_points base heights.now) ∷ []) }
{
    let mut points = Vec::new(alloc);
    push_corners(&mut points, base, 0, heights)?;
    points.push(corner(heights.len(), heights.len(), base, 0))?;
    shapes.push(Shape::Area {
        paint,
        points: Items::from_vec(points),
    })?;
    Ok(())
}
