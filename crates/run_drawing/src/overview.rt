ghost use Rattle.std.specs.Prelude.{◌≡◌, ◌++◌, ◌∷◌, ◌≤◌, ◌/◌, [], IfOk, OnOk, codes, length};
ghost use Rattle.run_drawing.specs.Overview.{axis_elements, chart_of, count_marks, counted};
ghost use Rattle.run_drawing.specs.Overview.{count_class, count_mark, counts_axis, curve, curves};
ghost use Rattle.run_drawing.specs.Overview.{epoch_line, epochs_from, event_chart, event_mark};
ghost use Rattle.run_drawing.specs.Overview.{first_sample, most_from, point_at, points_from};
ghost use Rattle.run_drawing.specs.Overview.{sample_of, samples_from, scales};

use crate::Note;
use crate::ground::{put_number, words};
use crate::marks::put_named;
use crate::samples::{Count, Sample};
use crate::scales::{across, upwards};
use plain_text::{Bytes, NoMemory};
use std::alloc::Global;
use svg_text::{Class, Element, Elements, Point, Points, Shape};

/// What stands before any event.
pub fn first() -> Sample
    ensures { result ≡ first_sample }
{
    Sample {
        index: 0,
        fed: 0,
        released: 0,
        waiting: 0,
        epoch: 1,
    }
}

/// What stands after the event of this number, from 1, or at this time.
pub fn sample(index: u64, note: &Note) -> Sample
    ensures { result ≡ sample_of index note.now }
{
    Sample {
        index,
        fed: note.fed,
        released: note.released,
        waiting: note.waiting,
        epoch: note.epoch,
    }
}

/// One before any event, one after every so many events, and one after the last.
fn take_samples(alloc: Global, every: u64, notes: &[Note]) -> Result<Vec<Sample>, NoMemory>
    requires { 1 ≤ every }
    ensures { IfOk result (λ samples. samples.items
        ≡ first_sample ∷ samples_from every (length notes.now) 0 notes.now) }
{
    let many = notes.len() as u64;
    let mut samples = Vec::new(alloc);
    samples.push(first())?;
    for (index, note) in notes.iter().enumerate() {
        let place = index as u64 + 1;
        if place % every == 0 || place == many {
            samples.push(sample(place, note))?;
        }
    }
    Ok(samples)
}

/// The greatest count.
pub fn most_of(notes: &[Note]) -> u64
    ensures { result ≡ most_from 0 notes.now }
{
    let mut most = 0u64;
    for note in notes {
        most = most.max(note.fed.max(note.released).max(note.waiting));
    }
    most
}

/// The count of a sample.
fn count_in(count: Count, sample: Sample) -> u64
    ensures { result ≡ counted count sample }
{
    match count {
        Count::Fed => sample.fed,
        Count::Left => sample.released,
        Count::Held => sample.waiting,
    }
}

/// Where a sample stands.
fn point(count: Count, many: u64, most: u64, sample: Sample) -> Point
    ensures { result ≡ point_at count many most sample }
{
    Point {
        x: across(many, sample.index),
        y: upwards(most, count_in(count, sample)),
    }
}

/// Where all samples stand.
fn points(
    alloc: Global,
    count: Count,
    many: u64,
    most: u64,
    samples: &[Sample],
) -> Result<Points, NoMemory>
    ensures { IfOk result (λ points. points ≡ points_from count many most samples.now) }
{
    let mut points = Points::new(alloc);
    for sample in samples {
        points.push(point(count, many, most, *sample))?;
    }
    Ok(points)
}

/// The class of a curve.
fn class_of(count: Count) -> Class
    ensures { result ≡ count_class count }
{
    match count {
        Count::Fed => Class::Fed,
        Count::Left => Class::Left,
        Count::Held => Class::Held,
    }
}

/// The curve of a count.
fn curve_of(
    alloc: Global,
    count: Count,
    many: u64,
    most: u64,
    samples: &[Sample],
) -> Result<Element, NoMemory>
    ensures { IfOk result (λ element. element ≡ curve count many most samples.now) }
{
    Ok(Element {
        class: class_of(count),
        title: None,
        shape: Shape::Polyline(points(alloc, count, many, most, samples)?),
    })
}

/// The line where an epoch begins.
fn line_of(alloc: Global, many: u64, sample: Sample) -> Result<Element, NoMemory>
    ensures { IfOk result (λ element. element ≡ epoch_line many sample) }
{
    let mut title = Bytes::new(alloc);
    put_named(&mut title, b"epoch ", u64::from(sample.epoch))?;
    let x = across(many, sample.index);
    Ok(Element {
        class: Class::Crash,
        title: Some(title),
        shape: Shape::Line {
            from: Point { x, y: 60 },
            to: Point { x, y: 260 },
        },
    })
}

/// Appends a line for each sample that has another epoch than the one before it.
pub fn put_epochs(
    alloc: Global,
    out: &mut Elements,
    many: u64,
    samples: &[Sample],
) -> Result<(), NoMemory>
    ensures { OnOk result (out.new ≡ out.old ++ epochs_from many 1 samples.now) }
{
    let mut before = 1;
    for sample in samples {
        if sample.epoch != before {
            out.push(line_of(alloc, many, *sample)?)?;
        }
        before = sample.epoch;
    }
    Ok(())
}

/// Appends the axis with its word.
pub fn put_axis(alloc: Global, out: &mut Elements, word: &[u8]) -> Result<(), NoMemory>
    ensures { OnOk result (out.new ≡ out.old ++ axis_elements word.now) }
{
    out.push(Element {
        class: Class::Lane,
        title: None,
        shape: Shape::Line {
            from: Point { x: 120, y: 260 },
            to: Point { x: 1120, y: 260 },
        },
    })?;
    let at = Point { x: 1130, y: 264 };
    out.push(words(alloc, Class::Label, at, word)?)
}

/// Appends the axis of the counts.
pub fn put_counts_axis(out: &mut Elements) -> Result<(), NoMemory>
    ensures { OnOk result (out.new ≡ out.old ++ counts_axis ∷ []) }
{
    out.push(Element {
        class: Class::Lane,
        title: None,
        shape: Shape::Line {
            from: Point { x: 120, y: 60 },
            to: Point { x: 120, y: 260 },
        },
    })
}

/// Appends a number beside the axis of the counts.
fn put_count(alloc: Global, out: &mut Elements, most: u64, number: u64) -> Result<(), NoMemory>
    ensures { OnOk result (out.new ≡ out.old ++ count_mark most number) }
{
    let y = upwards(most, number);
    put_number(alloc, out, Point { x: 100, y }, number)
}

/// Appends a number below the axis of the events.
fn put_place(alloc: Global, out: &mut Elements, many: u64, index: u64) -> Result<(), NoMemory>
    ensures { OnOk result (out.new ≡ out.old ++ event_mark many index) }
{
    let x = across(many, index);
    put_number(alloc, out, Point { x, y: 272 }, index)
}

/// Appends the numbers of the counts.
pub fn put_count_scale(alloc: Global, out: &mut Elements, most: u64) -> Result<(), NoMemory>
    ensures { OnOk result (out.new ≡ out.old ++ count_marks most) }
{
    put_count(alloc, out, most, 0)?;
    put_count(alloc, out, most, most / 2)?;
    put_count(alloc, out, most, most)
}

/// Appends the numbers of the events.
fn put_event_scale(alloc: Global, out: &mut Elements, many: u64) -> Result<(), NoMemory>
    ensures { OnOk result (out.new ≡ out.old
        ++ (event_mark many 0 ++ event_mark many (many / 2) ++ event_mark many many)) }
{
    put_place(alloc, out, many, 0)?;
    put_place(alloc, out, many, many / 2)?;
    put_place(alloc, out, many, many)
}

/// Appends the scales.
fn put_scales(alloc: Global, out: &mut Elements, many: u64, most: u64) -> Result<(), NoMemory>
    ensures { OnOk result (out.new ≡ out.old ++ scales many most) }
{
    put_counts_axis(out)?;
    put_count_scale(alloc, out, most)?;
    put_event_scale(alloc, out, many)
}

/// Appends the three curves: that of the packets of some samples, and those of the outputs of others.
pub fn put_curves(
    alloc: Global,
    out: &mut Elements,
    many: u64,
    most: u64,
    came: &[Sample],
    samples: &[Sample],
) -> Result<(), NoMemory>
    ensures { OnOk result (out.new ≡ out.old ++ curves many most came.now samples.now) }
{
    out.push(curve_of(alloc, Count::Fed, many, most, came)?)?;
    out.push(curve_of(alloc, Count::Left, many, most, samples)?)?;
    out.push(curve_of(alloc, Count::Held, many, most, samples)?)
}

/// Appends the chart of samples.
fn put_sampled(
    alloc: Global,
    out: &mut Elements,
    many: u64,
    most: u64,
    samples: &[Sample],
) -> Result<(), NoMemory>
    ensures { OnOk result (out.new ≡ out.old ++ chart_of many most samples.now) }
{
    put_axis(alloc, out, b"events")?;
    put_scales(alloc, out, many, most)?;
    put_epochs(alloc, out, many, samples)?;
    put_curves(alloc, out, many, most, samples, samples)
}

/// Appends the chart of a long run, event by event.
pub fn put_event_chart(alloc: Global, out: &mut Elements, notes: &[Note]) -> Result<(), NoMemory>
    ensures { OnOk result (out.new ≡ out.old ++ event_chart notes.now) }
{
    let many = notes.len() as u64;
    let samples = take_samples(alloc, many / 200 + 1, notes)?;
    put_sampled(alloc, out, many, most_of(notes), samples.as_slice())
}
