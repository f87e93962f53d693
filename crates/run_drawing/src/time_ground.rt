ghost use Rattle.std.specs.Prelude.{◌≡◌, ◌++◌, ◌≤◌, OnOk};
ghost use Rattle.run_drawing.specs.TimeChart.{time_ground, time_mark, time_marks, time_scales};
ghost use Rattle.run_drawing.specs.TimeChart.{unit_length, unit_of as unit_for, unit_word};
ghost use Rattle.run_drawing.specs.TimeChart.{whole_units};

use crate::ground::put_number;
use crate::overview::{put_axis, put_count_scale, put_counts_axis, put_epochs};
use crate::samples::{Sample, TimeUnit};
use crate::scales::across;
use plain_text::NoMemory;
use std::alloc::Global;
use svg_text::{Elements, Point};

/// The unit in which a span is told.
fn unit_of(span: u64) -> TimeUnit
    ensures { result ≡ unit_for span }
{
    if span >= 10_000_000 {
        return TimeUnit::Second;
    }
    if span >= 10_000 {
        TimeUnit::Millisecond
    } else {
        TimeUnit::Microsecond
    }
}

/// How many microseconds a unit has.
fn length_of(unit: TimeUnit) -> u64
    ensures length { result ≡ unit_length unit }
    ensures some { 1 ≤ result }
{
    match unit {
        TimeUnit::Second => 1_000_000,
        TimeUnit::Millisecond => 1000,
        TimeUnit::Microsecond => 1,
    }
}

/// The word of a unit.
fn word_of(unit: TimeUnit) -> &'static [u8]
    ensures { result.now ≡ unit_word unit }
{
    match unit {
        TimeUnit::Second => b"seconds",
        TimeUnit::Millisecond => b"milliseconds",
        TimeUnit::Microsecond => b"microseconds",
    }
}

/// The whole units of a time.
fn whole(unit: TimeUnit, time: u64) -> u64
    ensures { result ≡ whole_units unit time }
{
    time - time % length_of(unit)
}

/// Appends a number below the axis of the times.
fn put_time(
    alloc: Global,
    out: &mut Elements,
    unit: TimeUnit,
    span: u64,
    time: u64,
) -> Result<(), NoMemory>
    ensures { OnOk result (out.new ≡ out.old ++ time_mark unit span time) }
{
    let x = across(span, time);
    put_number(alloc, out, Point { x, y: 272 }, time / length_of(unit))
}

/// Appends the numbers of the times.
fn put_time_scale(
    alloc: Global,
    out: &mut Elements,
    unit: TimeUnit,
    span: u64,
) -> Result<(), NoMemory>
    ensures { OnOk result (out.new ≡ out.old ++ time_marks unit span) }
{
    put_time(alloc, out, unit, span, 0)?;
    put_time(alloc, out, unit, span, whole(unit, span / 2))?;
    put_time(alloc, out, unit, span, whole(unit, span))
}

/// Appends the scales.
fn put_time_scales(
    alloc: Global,
    out: &mut Elements,
    unit: TimeUnit,
    span: u64,
    most: u64,
) -> Result<(), NoMemory>
    ensures { OnOk result (out.new ≡ out.old ++ time_scales unit span most) }
{
    put_counts_axis(out)?;
    put_count_scale(alloc, out, most)?;
    put_time_scale(alloc, out, unit, span)
}

/// Appends the axes with their scales, and where epochs began.
pub fn put_time_ground(
    alloc: Global,
    out: &mut Elements,
    span: u64,
    most: u64,
    steps: &[Sample],
) -> Result<(), NoMemory>
    ensures { OnOk result (out.new ≡ out.old ++ time_ground span most steps.now) }
{
    let unit = unit_of(span);
    put_axis(alloc, out, word_of(unit))?;
    put_time_scales(alloc, out, unit, span, most)?;
    put_epochs(alloc, out, span, steps)
}
