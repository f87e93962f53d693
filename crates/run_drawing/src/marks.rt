ghost use Rattle.std.specs.Prelude.{◌≡◌, ◌++◌, ◌∷◌, ◌≤◌, [], IfOk, OnOk, length, decimal};
ghost use Rattle.run_drawing.specs.Marks.{did_class, did_words as words_of, shape_of, what_words};
ghost use Rattle.run_drawing.specs.Marks.{clock_shape as clock_shape_of};
ghost use Rattle.run_drawing.specs.Marks.{entry_shape as entry_shape_of};
ghost use Rattle.run_drawing.specs.Marks.{is_again as is_again_among, is_lost as is_lost_in};
ghost use Rattle.run_drawing.specs.Marks.{mark_class as class_for};
ghost use Rattle.run_drawing.specs.Marks.{mark_of, move_title, same_did as are_same_did};
ghost use Rattle.run_drawing.specs.Marks.{same_what as are_same_what};

use crate::places::{in_cell, three};
use crate::{Cell, Note};
use entry_order::What;
use made_moves::{Did, Made};
use plain_text::{Bytes, NoMemory, put_u64};
use std::alloc::Global;
use svg_text::{Class, Element, Shape};

/// Appends a word, and a number.
pub fn put_named(out: &mut Bytes, word: &[u8], number: u64) -> Result<(), NoMemory>
    ensures { OnOk result (out.new ≡ out.old ++ (word.now ++ decimal number)) }
{
    out.extend(word)?;
    put_u64(out, number)
}

/// Appends two words, each with its number.
pub fn put_two(
    out: &mut Bytes,
    word: &[u8],
    number: u64,
    other: &[u8],
    second: u64,
) -> Result<(), NoMemory>
    ensures { OnOk result
        (out.new ≡ out.old ++ (word.now ++ decimal number ++ other.now ++ decimal second)) }
{
    put_named(out, word, number)?;
    put_named(out, other, second)
}

/// Appends what a logged move did.
fn put_what(out: &mut Bytes, what: What) -> Result<(), NoMemory>
    ensures { OnOk result (out.new ≡ out.old ++ what_words what) }
{
    match what {
        What::Access { var, place } => put_two(out, b" touch ", u64::from(var), b" place ", place),
        What::Read { var, after } => put_two(out, b" read ", u64::from(var), b" after ", after),
        What::Clock(time) => put_named(out, b" clock ", time),
        What::Draw(word) => put_named(out, b" draw ", word),
    }
}

/// Appends what a move did.
fn put_did(out: &mut Bytes, did: Did) -> Result<(), NoMemory>
    ensures { OnOk result (out.new ≡ out.old ++ words_of did) }
{
    match did {
        Did::Took(input) => put_named(out, b" take ", input),
        Did::Logged { number, what } => {
            put_named(out, b" entry ", number)?;
            put_what(out, what)
        }
        Did::Sent(number) => put_named(out, b" output ", number),
        Did::Ended(input) => put_named(out, b" end ", input),
    }
}

/// What is shown of a move.
pub fn title_of(alloc: Global, line: &[u8], made: Made) -> Result<Bytes, NoMemory>
    ensures { IfOk result (λ title. title ≡ move_title line.now made) }
{
    let mut title = Bytes::new(alloc);
    put_named(&mut title, b"thread ", u64::from(made.thread))?;
    put_did(&mut title, made.did)?;
    title.push(b'\n')?;
    title.extend(line)?;
    Ok(title)
}

/// The shape of the mark of a logged move.
fn entry_shape(alloc: Global, column: u64, lane: u64, what: What) -> Result<Shape, NoMemory>
    ensures { IfOk result (λ shape. shape ≡ entry_shape_of column lane what) }
{
    match what {
        What::Access { .. } => Ok(Shape::Rectangle {
            corner: in_cell(column, lane, 4, 14),
            width: 12,
            height: 12,
        }),
        What::Read { .. } => Ok(Shape::Circle {
            middle: in_cell(column, lane, 10, 20),
            radius: 6,
        }),
        What::Clock(_) => clock_shape(alloc, column, lane),
        What::Draw(_) => Ok(Shape::Polygon(three(
            alloc,
            in_cell(column, lane, 3, 14),
            in_cell(column, lane, 17, 14),
            in_cell(column, lane, 10, 27),
        )?)),
    }
}

/// The shape of the mark of a move that was told the time: a square on its corner.
fn clock_shape(alloc: Global, column: u64, lane: u64) -> Result<Shape, NoMemory>
    ensures { IfOk result (λ shape. shape ≡ clock_shape_of column lane) }
{
    let mut points = three(
        alloc,
        in_cell(column, lane, 10, 12),
        in_cell(column, lane, 18, 20),
        in_cell(column, lane, 10, 28),
    )?;
    points.push(in_cell(column, lane, 2, 20))?;
    Ok(Shape::Polygon(points))
}

/// The shape of the mark of a move.
pub fn did_shape(alloc: Global, column: u64, lane: u64, did: Did) -> Result<Shape, NoMemory>
    ensures { IfOk result (λ shape. shape ≡ shape_of column lane did) }
{
    match did {
        Did::Took(_) => Ok(Shape::Polygon(three(
            alloc,
            in_cell(column, lane, 4, 13),
            in_cell(column, lane, 17, 20),
            in_cell(column, lane, 4, 27),
        )?)),
        Did::Logged { what, .. } => entry_shape(alloc, column, lane, what),
        Did::Sent(_) => Ok(Shape::Polygon(three(
            alloc,
            in_cell(column, lane, 10, 13),
            in_cell(column, lane, 17, 26),
            in_cell(column, lane, 3, 26),
        )?)),
        Did::Ended(_) => Ok(Shape::Rectangle {
            corner: in_cell(column, lane, 8, 12),
            width: 4,
            height: 16,
        }),
    }
}

/// The class of a move by its kind.
fn class_of(did: Did) -> Class
    ensures { result ≡ did_class did }
{
    match did {
        Did::Took(_) => Class::Take,
        Did::Logged { what, .. } => match what {
            What::Access { .. } => Class::Touch,
            What::Read { .. } => Class::Read,
            What::Clock(_) => Class::Clock,
            What::Draw(_) => Class::Draw,
        },
        Did::Sent(_) => Class::Send,
        Did::Ended(_) => Class::End,
    }
}

/// Whether the move at this place of the master's moves is lost.
fn is_lost(place: u64, later: &[Note]) -> bool
    ensures { result ≡ is_lost_in place later.now }
{
    later.iter().any(|note| note.kept <= place)
}

/// Whether two logged moves did the same.
fn is_same_what(what: What, other: What) -> bool
    ensures { result ≡ are_same_what what other }
{
    match (what, other) {
        (
            What::Access { var, place },
            What::Access {
                var: touched,
                place: at,
            },
        ) => var == touched && place == at,
        (
            What::Read { var, after },
            What::Read {
                var: looked,
                after: at,
            },
        ) => { var == looked && after == at }
        (What::Clock(time), What::Clock(told)) => time == told,
        (What::Draw(word), What::Draw(told)) => word == told,
        _ => false,
    }
}

/// Whether two moves of a thread did the same.
fn is_same(did: Did, other: Did) -> bool
    ensures { result ≡ are_same_did did other }
{
    match (did, other) {
        (Did::Took(input), Did::Took(taken)) => input == taken,
        (
            Did::Logged { number, what },
            Did::Logged {
                number: logged,
                what: made,
            },
        ) => number == logged && is_same_what(what, made),
        (Did::Sent(number), Did::Sent(sent)) => number == sent,
        (Did::Ended(input), Did::Ended(ended)) => input == ended,
        _ => false,
    }
}

/// Whether the move is made again, where these were lost.
fn is_again(made: Made, gone: &[Cell]) -> bool
    ensures { result ≡ is_again_among made gone.now }
{
    gone.iter().any(|cell| cell.made.thread == made.thread && is_same(cell.made.did, made.did))
}

/// The class of a mark.
fn mark_class(lost: bool, again: bool, did: Did) -> Class
    ensures { result ≡ class_for lost again did }
{
    if lost {
        return Class::Lost;
    }
    if again {
        return Class::Again;
    }
    class_of(did)
}

/// What the moves of an event have in common, with the moves that were lost before it, and the notes of the events
/// behind it.
#[derive(Clone, Copy)]
pub struct Scene<'a> {
    /// How many threads the box has.
    pub threads: u64,
    /// Its line of the report.
    pub line: &'a [u8],
    /// Whether it is of several events.
    pub several: bool,
    pub gone: &'a [Cell],
    pub later: &'a [Note],
}

/// The mark of a move, at this place of the master's moves.
pub fn mark(
    alloc: Global,
    scene: Scene<'_>,
    place: u64,
    column: u64,
    made: Made,
) -> Result<Element, NoMemory>
    ensures { IfOk result (λ element. element
        ≡ mark_of scene.entry.line.now scene.entry.gone.now scene.entry.later.now place column made) }
{
    let lost = is_lost(place, scene.later);
    let again = is_again(made, scene.gone);
    Ok(Element {
        class: mark_class(lost, again, made.did),
        title: Some(title_of(alloc, scene.line, made)?),
        shape: did_shape(alloc, column, u64::from(made.thread), made.did)?,
    })
}
