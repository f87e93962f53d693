ghost use Rattle.std.specs.Prelude.{◌≡◌, ◌++◌, OnOk};
ghost use Rattle.run_drawing.specs.TimeChart.{chart, is_by_time as is_run_by_time, overview};
ghost use Rattle.run_drawing.specs.TimeChart.{time_chart};

use crate::Note;
use crate::bars::put_floors;
use crate::keys::put_keys;
use crate::overview::{most_of, put_curves, put_event_chart};
use crate::time_curves::{count_came, first_in, first_of, latest, take_came, take_steps};
use crate::time_ground::put_time_ground;
use plain_text::NoMemory;
use std::alloc::Global;
use svg_text::Elements;

/// Whether a run is drawn by time: where it has few events, and more packets came in than it has events.
fn is_by_time(notes: &[Note]) -> bool
    ensures { result ≡ is_run_by_time notes.now }
{
    notes.len() <= 20 && (notes.len() as u64) < count_came(notes)
}

/// Appends the chart of a run by time, with these times of the packets.
fn put_time_chart(
    alloc: Global,
    out: &mut Elements,
    times: &[u64],
    notes: &[Note],
) -> Result<(), NoMemory>
    ensures { OnOk result (out.new ≡ out.old ++ time_chart times.now notes.now) }
{
    let first = first_in(times);
    let came = first_of(times, count_came(notes));
    let span = latest(first, 0, came);
    let most = most_of(notes);
    let packets = take_came(alloc, came.len() as u64 / 200 + 1, first, came)?;
    let steps = take_steps(alloc, times, notes)?;
    put_time_ground(alloc, out, span, most, steps.as_slice())?;
    put_curves(alloc, out, span, most, packets.as_slice(), steps.as_slice())
}

/// Appends the chart of a long run: by time, or event by event.
fn put_chart(
    alloc: Global,
    out: &mut Elements,
    times: &[u64],
    notes: &[Note],
) -> Result<(), NoMemory>
    ensures { OnOk result (out.new ≡ out.old ++ chart times.now notes.now) }
{
    if is_by_time(notes) {
        return put_time_chart(alloc, out, times, notes);
    }
    put_event_chart(alloc, out, notes)
}

/// Appends the overview of a long run of so many threads, with these times of the packets.
pub fn put_overview(
    alloc: Global,
    out: &mut Elements,
    threads: u64,
    times: &[u64],
    notes: &[Note],
) -> Result<(), NoMemory>
    ensures { OnOk result (out.new ≡ out.old ++ overview threads times.now notes.now) }
{
    put_chart(alloc, out, times, notes)?;
    put_keys(alloc, out)?;
    put_floors(alloc, out, threads, notes)
}
