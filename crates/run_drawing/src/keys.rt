//! The legend of an overview.
ghost use Rattle.std.specs.Prelude.{◌≡◌, ◌++◌, ◌≤◌, OnOk};
ghost use Rattle.run_drawing.specs.Overview.{curve_keys, key_of, line_key, other_keys};

use crate::ground::words;
use plain_text::NoMemory;
use std::alloc::Global;
use svg_text::{Class, Element, Elements, Point, Shape};

/// Appends a thing of the legend with its word.
#[tactic(auto, unfolding(crate::specs::Overview::key_of))]
fn put_key(
    alloc: Global,
    out: &mut Elements,
    x: u32,
    class: Class,
    shape: Shape,
    word: &[u8],
) -> Result<(), NoMemory>
    requires { x ≤ 1300 }
    ensures { OnOk result (out.new ≡ out.old ++ key_of x class shape word.now) }
{
    out.push(Element {
        class,
        title: None,
        shape,
    })?;
    let at = Point { x: x + 24, y: 284 };
    out.push(words(alloc, Class::Label, at, word)?)
}

/// Appends a line of the legend with its word.
fn put_line_key(
    alloc: Global,
    out: &mut Elements,
    x: u32,
    class: Class,
    word: &[u8],
) -> Result<(), NoMemory>
    requires { x ≤ 1300 }
    ensures { OnOk result (out.new ≡ out.old ++ line_key x class word.now) }
{
    let from = Point { x, y: 280 };
    let to = Point { x: x + 18, y: 280 };
    put_key(alloc, out, x, class, Shape::Line { from, to }, word)
}

/// Appends the legend of the curves.
fn put_curve_keys(alloc: Global, out: &mut Elements) -> Result<(), NoMemory>
    ensures { OnOk result (out.new ≡ out.old ++ curve_keys) }
{
    put_line_key(alloc, out, 120, Class::Fed, b"packets that came in")?;
    put_line_key(alloc, out, 320, Class::Left, b"outputs released")?;
    put_line_key(alloc, out, 500, Class::Held, b"outputs that wait")
}

/// Appends the legend of the epochs and of the bars.
fn put_other_keys(alloc: Global, out: &mut Elements) -> Result<(), NoMemory>
    ensures { OnOk result (out.new ≡ out.old ++ other_keys) }
{
    put_line_key(alloc, out, 680, Class::Crash, b"a new epoch")?;
    let bar = Shape::Rectangle {
        corner: Point { x: 840, y: 272 },
        width: 18,
        height: 16,
    };
    put_key(alloc, out, 840, Class::Bar, bar, b"moves of a thread")
}

/// Appends the legend.
pub fn put_keys(alloc: Global, out: &mut Elements) -> Result<(), NoMemory>
    ensures { OnOk result (out.new ≡ out.old ++ (curve_keys ++ other_keys)) }
{
    put_curve_keys(alloc, out)?;
    put_other_keys(alloc, out)
}
