use crate::Class;
use plain_text::{Bytes, Sequence};

/// A place: so much to the right of the left edge, and so much below the upper one.
#[derive(Clone, Copy)]
pub struct Point {
    pub x: u32,
    pub y: u32,
}

/// Points, in the order in which a line goes through them.
pub type Points = Sequence<Point>;

/// The shapes of the elements of a picture.
#[derive(Drop)]
pub enum Shape {
    /// A straight line between two places.
    Line {
        from: Point,
        to: Point,
    },
    /// A rectangle, by its upper left corner.
    Rectangle {
        corner: Point,
        width: u32,
        height: u32,
    },
    /// A circle, by its middle.
    Circle {
        middle: Point,
        radius: u32,
    },
    /// A line through these points, and back to the first of them.
    Polygon(Points),
    /// A line through these points.
    Polyline(Points),
    /// Words, by the place where they stand.
    Words {
        at: Point,
        words: Bytes,
    },
}

/// One element of a picture.
#[derive(Drop)]
pub struct Element {
    /// What it stands for.
    pub class: Class,
    /// What is shown where the pointer rests on it.
    pub title: Option<Bytes>,
    pub shape: Shape,
}

/// Elements, in the order in which they are drawn: a later one covers an earlier one.
pub type Elements = Sequence<Element>;

/// A picture.
#[derive(Drop)]
pub struct Drawing {
    pub width: u32,
    pub height: u32,
    pub title: Bytes,
    pub elements: Elements,
}
