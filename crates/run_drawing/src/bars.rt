ghost use Rattle.std.specs.Prelude.{◌≡◌, ◌++◌, ◌∷◌, ◌-◌, [], IfOk, OnOk, codes, decimal};
ghost use Rattle.run_drawing.specs.Slices.{bar_of, bar_title, bars_of, floor_elements, floor_line};
ghost use Rattle.run_drawing.specs.Scales.{floor_of};
ghost use Rattle.run_drawing.specs.Slices.{floors_from, floors_of, number_at, word_at};

use crate::Note;
use crate::ground::{put_number, words};
use crate::marks::{put_named, put_two};
use crate::places::advance;
use crate::samples::Slice;
use crate::scales::{across, floor, tall};
use crate::slices::{most_of_threads, take_slices};
use plain_text::{Bytes, NoMemory};
use std::alloc::Global;
use svg_text::{Class, Element, Elements, Point, Shape};

/// The title of a bar.
fn title_of(alloc: Global, thread: u64, moves: u64) -> Result<Bytes, NoMemory>
    ensures { IfOk result (λ title. title ≡ bar_title thread moves) }
{
    let mut title = Bytes::new(alloc);
    put_two(&mut title, b"thread ", thread, b" moves ", moves)?;
    Ok(title)
}

/// The bar of a slice, where there are so many events, and the tallest bar has so many moves.
fn bar(alloc: Global, many: u64, most: u64, thread: u64, slice: Slice) -> Result<Element, NoMemory>
    ensures { IfOk result (λ element. element ≡ bar_of many most thread slice) }
{
    let left = across(many, slice.first);
    let right = across(many, advance(slice.first, slice.events)?);
    let height = tall(most, slice.moves);
    Ok(Element {
        class: Class::Bar,
        title: Some(title_of(alloc, thread, slice.moves)?),
        shape: Shape::Rectangle {
            corner: Point {
                x: left,
                y: floor(thread) - height,
            },
            width: right.saturating_sub(left),
            height,
        },
    })
}

/// Appends the bars of a thread.
fn put_bars(
    alloc: Global,
    out: &mut Elements,
    many: u64,
    most: u64,
    thread: u64,
    slices: &[Slice],
) -> Result<(), NoMemory>
    ensures { OnOk result (out.new ≡ out.old ++ bars_of many most thread slices.now) }
{
    for slice in slices {
        out.push(bar(alloc, many, most, thread, *slice)?)?;
    }
    Ok(())
}

/// The word of a thread.
fn word_of(alloc: Global, thread: u64) -> Result<Element, NoMemory>
    ensures { IfOk result (λ element.
        element ≡ word_at 10 (floor_of thread) (codes "thread " ++ decimal thread)) }
{
    let mut word = Bytes::new(alloc);
    put_named(&mut word, b"thread ", thread)?;
    let y = floor(thread);
    words(alloc, Class::Label, Point { x: 10, y }, word.as_slice())
}

/// The floor of a thread.
fn line_of(thread: u64) -> Element
    ensures { result ≡ floor_line thread }
{
    let y = floor(thread);
    Element {
        class: Class::Lane,
        title: None,
        shape: Shape::Line {
            from: Point { x: 120, y },
            to: Point { x: 1120, y },
        },
    }
}

/// Appends the number of moves of the tallest bar that there can be.
fn put_tallest(alloc: Global, out: &mut Elements, most: u64, thread: u64) -> Result<(), NoMemory>
    ensures { OnOk result (out.new ≡ out.old ++ number_at 100 (floor_of thread - 22) most) }
{
    let y = floor(thread) - 22;
    put_number(alloc, out, Point { x: 100, y }, most)
}

/// Appends a thread with its word and its bars.
fn put_floor(
    alloc: Global,
    out: &mut Elements,
    most: u64,
    thread: u64,
    notes: &[Note],
) -> Result<(), NoMemory>
    ensures { OnOk result (out.new ≡ out.old ++ floor_elements most thread notes.now) }
{
    out.push(word_of(alloc, thread)?)?;
    out.push(line_of(thread))?;
    put_tallest(alloc, out, most, thread)?;
    let slices = take_slices(alloc, thread, notes)?;
    put_bars(
        alloc,
        out,
        notes.len() as u64,
        most,
        thread,
        slices.as_slice(),
    )
}

/// Appends so many threads.
fn put_each_floor(
    alloc: Global,
    out: &mut Elements,
    most: u64,
    threads: u64,
    notes: &[Note],
) -> Result<(), NoMemory>
    ensures { OnOk result (out.new ≡ out.old ++ floors_from most 0 threads notes.now) }
{
    'floors: for thread in 0..threads {
        put_floor(alloc, out, most, thread, notes)?;
    }
    Ok(())
}

/// Appends how many moves each of so many threads made, slice by slice.
pub fn put_floors(
    alloc: Global,
    out: &mut Elements,
    threads: u64,
    notes: &[Note],
) -> Result<(), NoMemory>
    ensures { OnOk result (out.new ≡ out.old ++ floors_of threads notes.now) }
{
    let most = most_of_threads(alloc, threads, notes)?;
    put_each_floor(alloc, out, most, threads, notes)
}
