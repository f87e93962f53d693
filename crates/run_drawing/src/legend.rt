ghost use Rattle.std.specs.Prelude.{◌≡◌, ◌++◌, OnOk};
ghost use Rattle.made_moves.specs.declared.made.Did.TheVariants as did_kind;
ghost use Rattle.run_drawing.specs.Picture.{circle_item, event_items, first_moves, last_moves};
ghost use Rattle.run_drawing.specs.Picture.{legend, legend_item, line_item, logger_items};
ghost use Rattle.run_drawing.specs.Picture.{move_item};
ghost use Rattle.run_drawing.specs.Picture.{told_moves};

use crate::ground::words;
use crate::marks::did_shape;
use crate::places::in_cell;
use entry_order::What;
use made_moves::Did;
use plain_text::NoMemory;
use std::alloc::Global;
use svg_text::{Class, Element, Elements, Shape};

/// Appends a thing of the legend with its word.
#[tactic(auto, unfolding(crate::specs::Picture::legend_item))]
fn put_item(
    alloc: Global,
    out: &mut Elements,
    column: u64,
    lane: u64,
    class: Class,
    shape: Shape,
    word: &[u8],
) -> Result<(), NoMemory>
    ensures { OnOk result (out.new ≡ out.old ++ legend_item column lane class shape word.now) }
{
    out.push(Element {
        class,
        title: None,
        shape,
    })?;
    let at = in_cell(column, lane, 24, 24);
    out.push(words(alloc, Class::Label, at, word)?)
}

/// Appends a kind of moves.
fn put_move_item(
    alloc: Global,
    out: &mut Elements,
    column: u64,
    lane: u64,
    class: Class,
    did: Did,
    word: &[u8],
) -> Result<(), NoMemory>
    ensures { OnOk result (out.new ≡ out.old ++ move_item column lane class did word.now) }
{
    let shape = did_shape(alloc, column, lane, did)?;
    put_item(alloc, out, column, lane, class, shape, word)
}

/// A logged move of this kind.
fn logged(what: What) -> Did
    ensures { result ≡ did_kind.Logged 0 what }
{
    Did::Logged { number: 0, what }
}

/// Appends the first kinds of moves.
fn put_first(alloc: Global, out: &mut Elements, lane: u64) -> Result<(), NoMemory>
    ensures { OnOk result (out.new ≡ out.old ++ first_moves lane) }
{
    let touch = logged(What::Access { var: 0, place: 0 });
    let read = logged(What::Read { var: 0, after: 0 });
    put_move_item(alloc, out, 0, lane, Class::Take, Did::Took(0), b"take")?;
    put_move_item(alloc, out, 5, lane, Class::Touch, touch, b"touch")?;
    put_move_item(alloc, out, 10, lane, Class::Read, read, b"read")
}

/// Appends the kinds of moves that are told something, and those that send.
fn put_told(alloc: Global, out: &mut Elements, lane: u64) -> Result<(), NoMemory>
    ensures { OnOk result (out.new ≡ out.old ++ told_moves lane) }
{
    let clock = logged(What::Clock(0));
    let draw = logged(What::Draw(0));
    put_move_item(alloc, out, 15, lane, Class::Clock, clock, b"clock")?;
    put_move_item(alloc, out, 20, lane, Class::Draw, draw, b"draw")?;
    put_move_item(alloc, out, 25, lane, Class::Send, Did::Sent(0), b"send")
}

/// Appends the ends of packets, and the marks of moves that were lost or made again.
fn put_last(alloc: Global, out: &mut Elements, lane: u64) -> Result<(), NoMemory>
    ensures { OnOk result (out.new ≡ out.old ++ last_moves lane) }
{
    let touch = logged(What::Access { var: 0, place: 0 });
    put_move_item(alloc, out, 30, lane, Class::End, Did::Ended(0), b"end")?;
    put_move_item(alloc, out, 35, lane, Class::Again, touch, b"made again")?;
    put_move_item(alloc, out, 40, lane, Class::Lost, touch, b"lost")
}

/// Appends a kind of marks at the output logger.
fn put_circle(
    alloc: Global,
    out: &mut Elements,
    column: u64,
    lane: u64,
    class: Class,
    radius: u32,
    word: &[u8],
) -> Result<(), NoMemory>
    ensures { OnOk result (out.new ≡ out.old ++ circle_item column lane class radius word.now) }
{
    let middle = in_cell(column, lane, 10, 20);
    put_item(
        alloc,
        out,
        column,
        lane,
        class,
        Shape::Circle { middle, radius },
        word,
    )
}

/// Appends a kind of events.
fn put_line(
    alloc: Global,
    out: &mut Elements,
    column: u64,
    lane: u64,
    class: Class,
    word: &[u8],
) -> Result<(), NoMemory>
    ensures { OnOk result (out.new ≡ out.old ++ line_item column lane class word.now) }
{
    let from = in_cell(column, lane, 2, 20);
    let to = in_cell(column, lane, 20, 20);
    put_item(
        alloc,
        out,
        column,
        lane,
        class,
        Shape::Line { from, to },
        word,
    )
}

/// Appends the marks at the output logger.
fn put_logger_items(alloc: Global, out: &mut Elements, lane: u64) -> Result<(), NoMemory>
    ensures { OnOk result (out.new ≡ out.old ++ logger_items lane) }
{
    put_circle(alloc, out, 0, lane, Class::Entry, 5, b"entry")?;
    put_circle(alloc, out, 5, lane, Class::Waiting, 7, b"output waits")?;
    put_circle(alloc, out, 10, lane, Class::Released, 7, b"released")
}

/// Appends the events that have a line.
fn put_event_items(alloc: Global, out: &mut Elements, lane: u64) -> Result<(), NoMemory>
    ensures { OnOk result (out.new ≡ out.old ++ event_items lane) }
{
    put_line(alloc, out, 15, lane, Class::Snap, b"snapshot")?;
    put_line(alloc, out, 20, lane, Class::Store, b"stored")?;
    put_line(alloc, out, 25, lane, Class::Crash, b"crash")?;
    put_line(alloc, out, 30, lane, Class::Recover, b"recovery")
}

/// Appends the second row of the legend.
fn put_signs(alloc: Global, out: &mut Elements, lane: u64) -> Result<(), NoMemory>
    ensures { OnOk result (out.new ≡ out.old ++ (logger_items lane ++ event_items lane)) }
{
    put_logger_items(alloc, out, lane)?;
    put_event_items(alloc, out, lane)
}

/// Appends the legend, in two rows.
pub fn put_legend(
    alloc: Global,
    out: &mut Elements,
    moves_row: u64,
    signs_row: u64,
) -> Result<(), NoMemory>
    ensures { OnOk result (out.new ≡ out.old ++ legend moves_row signs_row) }
{
    put_first(alloc, out, moves_row)?;
    put_told(alloc, out, moves_row)?;
    put_last(alloc, out, moves_row)?;
    put_signs(alloc, out, signs_row)
}
