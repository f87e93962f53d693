ghost use Rattle.std.specs.Prelude.{◌≡◌, ◌≤◌, ◌+◌, ◌∷◌, [], IfOk};
ghost use Rattle.run_drawing.specs.Places.{in_cell as cell_point, left as left_of, top as top_of};

use plain_text::NoMemory;
use std::alloc::Global;
use svg_text::{Point, Points};

/// The left edge of a column.
pub fn left(column: u64) -> u32
    ensures edge { result ≡ left_of column }
    ensures within { result ≤ 300000 }
{
    120 + 24 * column.min(10000) as u32
}

/// The upper edge of a lane.
pub fn top(lane: u64) -> u32
    ensures edge { result ≡ top_of lane }
    ensures within { result ≤ 300000 }
{
    60 + 40 * lane.min(100) as u32
}

/// A place in the cell of a column and a lane, so much from its upper left corner.
pub fn in_cell(column: u64, lane: u64, right: u32, down: u32) -> Point
    requires right { right ≤ 100000 }
    requires down { down ≤ 100000 }
    ensures { result ≡ cell_point column lane right down }
{
    Point {
        x: left(column) + right,
        y: top(lane) + down,
    }
}

/// The number with these. It is told as want of memory where it would pass 2^64 - 1: no picture that is drawn comes
/// near.
pub fn advance(number: u64, by: u64) -> Result<u64, NoMemory>
    ensures { IfOk result (λ sum. sum ≡ number + by) }
{
    match number.checked_add(by) {
        Some(sum) => Ok(sum),
        None => Err(NoMemory),
    }
}

/// Three points.
pub fn three(alloc: Global, first: Point, second: Point, third: Point) -> Result<Points, NoMemory>
    ensures { IfOk result (λ points. points ≡ first ∷ second ∷ third ∷ []) }
{
    let mut points = Points::new(alloc);
    points.push(first)?;
    points.push(second)?;
    points.push(third)?;
    Ok(points)
}
