ghost use Rattle.std.specs.Prelude.{◌≡◌, ◌∷◌, ◌≤◌, IfOk, length, take};
ghost use Rattle.run_drawing.specs.Overview.{first_sample, sample_of};
ghost use Rattle.run_drawing.specs.TimeChart.{came_from, came_sample, first_time, last_fed};
ghost use Rattle.run_drawing.specs.TimeChart.{latest as latest_of, steps_from, steps_of, time_of};

use crate::Note;
use crate::overview::{first, sample};
use crate::samples::Sample;
use plain_text::NoMemory;
use std::alloc::Global;

/// How many packets came in.
pub fn count_came(notes: &[Note]) -> u64
    ensures { result ≡ last_fed 0 notes.now }
{
    let mut came = 0;
    for note in notes {
        came = note.fed;
    }
    came
}

/// The first so many times, or all.
pub fn first_of(times: &[u64], many: u64) -> &[u64]
    ensures { result.now ≡ take many times.now }
{
    let many = times.len().min(many as usize);
    &times[..many]
}

/// The time of the first packet.
pub fn first_in(times: &[u64]) -> u64
    ensures { result ≡ first_time times.now }
{
    times.first().copied().unwrap_or(0)
}

/// How long after the first time the latest of these is, or this long.
pub fn latest(first: u64, least: u64, times: &[u64]) -> u64
    ensures { result ≡ latest_of first least times.now }
{
    let mut latest = least;
    for time in times {
        latest = latest.max(time.saturating_sub(first));
    }
    latest
}

/// How many packets came in until this time.
fn came_until(time: u64, many: u64) -> Sample
    ensures { result ≡ came_sample time many }
{
    Sample {
        index: time,
        fed: many,
        ..first()
    }
}

/// One before any packet, one after every so many packets, and one after the last.
pub fn take_came(
    alloc: Global,
    every: u64,
    first_time: u64,
    times: &[u64],
) -> Result<Vec<Sample>, NoMemory>
    requires { 1 ≤ every }
    ensures { IfOk result (λ samples. samples.items
        ≡ first_sample ∷ came_from every (length times.now) first_time 0 0 times.now) }
{
    let many = times.len() as u64;
    let mut samples = Vec::new(alloc);
    samples.push(first())?;
    let mut latest = 0u64;
    for (index, time) in times.iter().enumerate() {
        latest = latest.max(time.saturating_sub(first_time));
        let place = index as u64 + 1;
        if place % every == 0 || place == many {
            samples.push(came_until(latest, place))?;
        }
    }
    Ok(samples)
}

/// What stands after an event, at its time.
fn step(times: &[u64], before: Sample, note: &Note) -> Sample
    ensures { result ≡ sample_of (time_of times.now before note.now) note.now }
{
    let until = first_of(times, note.fed);
    sample(latest(first_in(times), before.index, until), note)
}

/// One before any event, and two at the time of each: what stood before it, and what stands after it.
pub fn take_steps(alloc: Global, times: &[u64], notes: &[Note]) -> Result<Vec<Sample>, NoMemory>
    ensures { IfOk result (λ samples. samples.items ≡ steps_of times.now notes.now) }
{
    let mut samples = Vec::new(alloc);
    let mut before = first();
    samples.push(before)?;
    for note in notes {
        let after = step(times, before, note);
        samples.push(Sample {
            index: after.index,
            ..before
        })?;
        samples.push(after)?;
        before = after;
    }
    Ok(samples)
}
