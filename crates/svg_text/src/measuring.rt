ghost use Rattle.std.specs.Prelude.{◌≡◌, ◌++◌, OnOk};
ghost use Rattle.std.specs.List.{flat_map};
ghost use Rattle.svg_text.specs.Drawing.{attribute, circle_text, line_text, measures, place_text};
ghost use Rattle.svg_text.specs.Drawing.{point_text, points_text, rectangle_text};

use crate::{Point, Shape};
use plain_text::{Bytes, NoMemory, put_u64};

/// Appends an attribute with a number.
pub fn put_attribute(out: &mut Bytes, name: &[u8], number: u32) -> Result<(), NoMemory>
    ensures { OnOk result (out.new ≡ out.old ++ attribute name.now number) }
{
    out.push(b' ')?;
    out.extend(name)?;
    out.extend(b"=\"")?;
    put_u64(out, u64::from(number))?;
    out.push(b'"')
}

/// Appends a point of a line.
fn put_point(out: &mut Bytes, point: Point) -> Result<(), NoMemory>
    ensures { OnOk result (out.new ≡ out.old ++ point_text point) }
{
    put_u64(out, u64::from(point.x))?;
    out.push(b',')?;
    put_u64(out, u64::from(point.y))?;
    out.push(b' ')
}

/// Appends points of a line.
fn put_each_point(out: &mut Bytes, points: &[Point]) -> Result<(), NoMemory>
    ensures { OnOk result (out.new ≡ out.old ++ flat_map point_text points.now) }
{
    for point in points {
        put_point(out, *point)?;
    }
    Ok(())
}

/// Appends the points of a line, as an attribute.
fn put_points(out: &mut Bytes, points: &[Point]) -> Result<(), NoMemory>
    ensures { OnOk result (out.new ≡ out.old ++ points_text points.now) }
{
    out.extend(b" points=\"")?;
    put_each_point(out, points)?;
    out.push(b'"')
}

/// Appends where a straight line begins and ends.
fn put_line(out: &mut Bytes, from: Point, to: Point) -> Result<(), NoMemory>
    ensures { OnOk result (out.new ≡ out.old ++ line_text from to) }
{
    put_attribute(out, b"x1", from.x)?;
    put_attribute(out, b"y1", from.y)?;
    put_attribute(out, b"x2", to.x)?;
    put_attribute(out, b"y2", to.y)
}

/// Appends where a thing stands.
fn put_place(out: &mut Bytes, at: Point) -> Result<(), NoMemory>
    ensures { OnOk result (out.new ≡ out.old ++ place_text at) }
{
    put_attribute(out, b"x", at.x)?;
    put_attribute(out, b"y", at.y)
}

/// Appends where a rectangle stands, and how large it is.
fn put_rectangle(out: &mut Bytes, corner: Point, width: u32, height: u32) -> Result<(), NoMemory>
    ensures { OnOk result (out.new ≡ out.old ++ rectangle_text corner width height) }
{
    put_place(out, corner)?;
    put_attribute(out, b"width", width)?;
    put_attribute(out, b"height", height)
}

/// Appends where a circle stands, and how large it is.
fn put_circle(out: &mut Bytes, middle: Point, radius: u32) -> Result<(), NoMemory>
    ensures { OnOk result (out.new ≡ out.old ++ circle_text middle radius) }
{
    put_attribute(out, b"cx", middle.x)?;
    put_attribute(out, b"cy", middle.y)?;
    put_attribute(out, b"r", radius)
}

/// Appends the attributes of a shape.
pub fn put_measures(out: &mut Bytes, shape: &Shape) -> Result<(), NoMemory>
    ensures { OnOk result (out.new ≡ out.old ++ measures shape.now) }
{
    match shape {
        Shape::Line { from, to } => put_line(out, *from, *to),
        Shape::Rectangle {
            corner,
            width,
            height,
        } => put_rectangle(out, *corner, *width, *height),
        Shape::Circle { middle, radius } => put_circle(out, *middle, *radius),
        Shape::Polygon(points) | Shape::Polyline(points) => put_points(out, points.as_slice()),
        Shape::Words { at, .. } => put_place(out, *at),
    }
}
