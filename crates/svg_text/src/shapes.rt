//! A picture as a list of shapes. They are plain data in contracts.
use crate::lettering::Lettering;
use hda_items::Items;

/// A place in a picture, in pixels from its upper left corner.
#[derive(Clone, Copy, Debug, PartialEq, Eq)]
pub struct Point {
    /// Pixels to the right.
    pub x: u32,
    /// Pixels down.
    pub y: u32,
}

/// In what a shape is painted: what it stands for. The style of the picture has a colour for each, on a light and on a
/// dark ground. This project's own.
#[derive(Clone, Copy, Debug, PartialEq, Eq)]
pub enum Paint {
    /// Words.
    Ink,
    /// Words that say less.
    Faint,
    /// The box of a widget, which has an outline.
    Box,
    /// A connection that no route takes.
    Edge,
    /// A line of a scale.
    Grid,
    /// A route of this number, in one of eight colours in turn.
    Route(u8),
    /// A pin whose paths are all taken by others, which has an outline.
    Blocked,
    /// A pin without a path, which has an outline.
    Pathless,
    /// Bytes that the link has sent.
    Sent,
    /// Bytes that the stream has fetched.
    Fetched,
    /// How far a run may write.
    Reach,
    /// What a run wrote.
    Written,
    /// Silence on the line.
    Silence,
    /// A hole in the sound.
    Hole,
    /// The limit behind which a run is late.
    Limit,
    /// Sound at a pin.
    Sound,
    /// Quiet at a pin.
    Quiet,
}

/// Which part of a text stands at its place.
#[derive(Clone, Copy, Debug, PartialEq, Eq)]
pub enum Anchor {
    /// Its first letter begins there.
    Start,
    /// Its middle.
    Middle,
    /// Its last letter ends there.
    End,
}

/// A shape of a picture.
#[derive(Drop)]
pub enum Shape {
    /// A filled rectangle.
    Rect {
        /// In what.
        paint: Paint,
        /// Its upper left corner.
        at: Point,
        /// Its width in pixels.
        width: u32,
        /// Its height in pixels.
        height: u32,
    },
    /// A straight line.
    Line {
        /// In what.
        paint: Paint,
        /// Its one end.
        from: Point,
        /// Its other end.
        to: Point,
    },
    /// A line from point to point.
    Trail {
        /// In what.
        paint: Paint,
        /// The points in order.
        points: Items<Point>,
    },
    /// A filled area between points, the last of which is joined to the first.
    Area {
        /// In what.
        paint: Paint,
        /// The points in order.
        points: Items<Point>,
    },
    /// A text in one line.
    Text {
        /// In what.
        paint: Paint,
        /// Which part of it stands at the place.
        anchor: Anchor,
        /// The place, on the line on which its letters stand.
        at: Point,
        /// Its words.
        text: Lettering,
    },
    /// A filled rectangle with a text that shows under the pointer.
    Hint {
        /// In what.
        paint: Paint,
        /// Its upper left corner.
        at: Point,
        /// Its width in pixels.
        width: u32,
        /// Its height in pixels.
        height: u32,
        /// Its words.
        text: Lettering,
    },
}

/// A picture.
#[derive(Drop)]
pub struct Picture {
    /// Its width in pixels.
    pub width: u32,
    /// Its height in pixels.
    pub height: u32,
    /// What it shows.
    pub title: Lettering,
    /// Its shapes; each lies over those before it.
    pub shapes: Items<Shape>,
}
