ghost use Rattle.std.specs.Prelude.{◌≡◌, ◌++◌, ◌<◌, IfOk, OnOk, codes, decimal};
ghost use Rattle.run_drawing.specs.Picture.{full_mark, is_output_event};
ghost use Rattle.run_drawing.specs.Picture.{is_several as is_of_several};
ghost use Rattle.run_drawing.specs.Picture.{number_note, releases_from, sign_at, sign_class};
ghost use Rattle.run_drawing.specs.Picture.{signs_of};

use crate::marks::put_named;
use crate::places::{advance, in_cell};
use plain_text::{Bytes, Kind, NoMemory, put_u64};
use recovery_world::{Event, Outcome};
use std::alloc::Global;
use svg_text::{Class, Element, Elements, Shape};

/// Whether the outcome is that of several events.
pub fn is_several(outcome: &Outcome) -> bool
    ensures { result ≡ is_of_several outcome.now }
{
    matches!(outcome, Outcome::Summary { .. })
}

/// Whether the event is the arrival of an output.
fn is_output(event: Event) -> bool
    ensures { result ≡ is_output_event event }
{
    match event {
        Event::Out { .. } => true,
        Event::Late { kind, .. } => matches!(kind, Kind::Out),
        Event::Cut { kind, .. } => matches!(kind, Kind::Out),
        _ => false,
    }
}

/// What the sign of an event stands for, if it has one.
pub fn sign_for(event: Event, outcome: &Outcome) -> Option<Class>
    ensures { result ≡ sign_class event outcome.now }
{
    match outcome {
        Outcome::Copied(_) => Some(Class::Snap),
        Outcome::Covers(_) => Some(Class::Store),
        Outcome::Crashed => Some(Class::Crash),
        Outcome::Recovered { .. } => Some(Class::Recover),
        Outcome::New => Some(Class::Entry),
        Outcome::Waits { .. } if is_output(event) => Some(Class::Waiting),
        _ => None,
    }
}

/// The sign of an event of this class.
fn sign(
    alloc: Global,
    threads: u64,
    column: u64,
    line: &[u8],
    class: Class,
) -> Result<Element, NoMemory>
    requires { threads < 1000 }
    ensures { IfOk result (λ element. element ≡ sign_at threads column line.now class) }
{
    let shape = match class {
        Class::Entry => Shape::Circle {
            middle: in_cell(column, threads, 10, 20),
            radius: 5,
        },
        Class::Waiting => Shape::Circle {
            middle: in_cell(column, threads + 1, 10, 20),
            radius: 7,
        },
        _ => Shape::Line {
            from: in_cell(column, 0, 10, 0),
            to: in_cell(column, threads + 2, 10, 0),
        },
    };
    Ok(Element {
        class,
        title: Some(Bytes::of(alloc, line)?),
        shape,
    })
}

/// Appends the sign of an event, if it has one.
pub fn put_sign(
    alloc: Global,
    out: &mut Elements,
    threads: u64,
    column: u64,
    line: &[u8],
    class: Option<Class>,
) -> Result<(), NoMemory>
    requires { threads < 1000 }
    ensures { OnOk result (out.new ≡ out.old ++ signs_of threads column line.now class) }
{
    match class {
        None => Ok(()),
        Some(class) => out.push(sign(alloc, threads, column, line, class)?),
    }
}

/// What is shown of a released output.
fn released_title(alloc: Global, line: &[u8], number: u64) -> Result<Bytes, NoMemory>
    ensures { IfOk result (λ title.
        title ≡ codes "released " ++ decimal number ++ codes "\n" ++ line.now) }
{
    let mut title = Bytes::new(alloc);
    put_named(&mut title, b"released ", number)?;
    title.push(b'\n')?;
    title.extend(line)?;
    Ok(title)
}

/// The full mark of a released output.
fn full(
    alloc: Global,
    threads: u64,
    column: u64,
    line: &[u8],
    number: u64,
) -> Result<Element, NoMemory>
    requires { threads < 1000 }
    ensures { IfOk result (λ element. element ≡ full_mark threads column line.now number) }
{
    Ok(Element {
        class: Class::Released,
        title: Some(released_title(alloc, line, number)?),
        shape: Shape::Circle {
            middle: in_cell(column, threads + 1, 10, 20),
            radius: 7,
        },
    })
}

/// The number of a release, as a word below its mark.
fn number_below(alloc: Global, threads: u64, column: u64, number: u64) -> Result<Element, NoMemory>
    requires { threads < 1000 }
    ensures { IfOk result (λ element. element ≡ number_note threads column number) }
{
    let mut words = Bytes::new(alloc);
    put_u64(&mut words, number)?;
    Ok(Element {
        class: Class::Note,
        title: None,
        shape: Shape::Words {
            at: in_cell(column, threads + 1, 10, 38),
            words,
        },
    })
}

/// Appends the full marks of so many released outputs, from this number and this column on.
pub fn put_releases(
    alloc: Global,
    out: &mut Elements,
    threads: u64,
    first: u64,
    line: &[u8],
    released: u64,
    many: u64,
) -> Result<(), NoMemory>
    requires { threads < 1000 }
    ensures { OnOk result (out.new
        ≡ out.old ++ releases_from threads first line.now released many) }
{
    let mut column = first;
    let mut number = released;
    'releases: for _ in 0..many {
        out.push(full(alloc, threads, column, line, number)?)?;
        out.push(number_below(alloc, threads, column, number)?)?;
        column = advance(column, 1)?;
        number = advance(number, 1)?;
    }
    Ok(())
}
