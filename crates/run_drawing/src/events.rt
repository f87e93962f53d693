ghost use Rattle.std.specs.Prelude.{◌≡◌, ◌++◌, ◌<◌, ◌+◌, OnOk, drop, take};
ghost use Rattle.run_drawing.specs.Picture.{after_note, at_first, event_elements, events_from};
ghost use Rattle.run_drawing.specs.Standing.{drawn_by};

use crate::ground::width;
use crate::marks::Scene;
use crate::moves::put_moves;
use crate::places::advance;
use crate::signs::{is_several, put_releases, put_sign, sign_for};
use crate::{Cell, Note};
use plain_text::NoMemory;
use std::alloc::Global;
use svg_text::Elements;

/// Where a picture has come to.
#[derive(Drop)]
pub struct State {
    /// The next column.
    pub column: u64,
    /// The moves of the present master.
    pub earlier: Vec<Cell>,
    /// Those that were lost.
    pub gone: Vec<Cell>,
    /// How many outputs were released.
    pub released: u64,
}

/// Moves the cells that are lost behind an event, of which so many are kept.
fn lose(state: &mut State, kept: u64) -> Result<(), NoMemory>
    ensures earlier { OnOk result (state.new.earlier.items ≡ take kept state.old.earlier.items) }
    ensures gone { OnOk result (state.new.gone.items
        ≡ state.old.gone.items ++ drop kept state.old.earlier.items) }
    ensures column { state.new.column ≡ state.old.column }
    ensures released { state.new.released ≡ state.old.released }
{
    let from = kept.min(state.earlier.len() as u64) as usize;
    state.gone.extend_from_slice(&state.earlier[from..])?;
    state.earlier.truncate(from);
    Ok(())
}

/// Appends what is drawn of an event, with those that follow it, and goes on behind it.
fn put_note(
    alloc: Global,
    out: &mut Elements,
    threads: u64,
    state: &mut State,
    note: &Note,
    later: &[Note],
) -> Result<(), NoMemory>
    requires { threads < 1000 }
    ensures elements { OnOk result (out.new
        ≡ out.old ++ event_elements threads (drawn_by state.old) note.now later.now) }
    ensures state { OnOk result (drawn_by state.new ≡ after_note (drawn_by state.old) note.now) }
{
    lose(state, note.kept)?;
    let column = state.column;
    let before = state.released;
    let line = note.line.as_slice();
    let scene = Scene {
        threads,
        line,
        several: is_several(&note.outcome),
        gone: state.gone.as_slice(),
        later,
    };
    put_moves(
        alloc,
        out,
        scene,
        column,
        &mut state.earlier,
        note.made.as_slice(),
    )?;
    let arrivals = advance(column, note.made.len() as u64)?;
    put_sign(
        alloc,
        out,
        threads,
        arrivals,
        line,
        sign_for(note.event, &note.outcome),
    )?;
    let many = note.released.saturating_sub(before);
    put_releases(
        alloc,
        out,
        threads,
        arrivals,
        line,
        advance(before, 1)?,
        many,
    )?;
    state.column = advance(column, width(before, note)?)?;
    state.released = note.released;
    Ok(())
}

/// Appends what is drawn of the events.
pub fn put_events(
    alloc: Global,
    out: &mut Elements,
    threads: u64,
    notes: &[Note],
) -> Result<(), NoMemory>
    requires { threads < 1000 }
    ensures { OnOk result (out.new ≡ out.old ++ events_from threads at_first notes.now) }
{
    let mut state = State {
        column: 0,
        earlier: Vec::new(alloc),
        gone: Vec::new(alloc),
        released: 0,
    };
    for (index, note) in notes.iter().enumerate() {
        put_note(alloc, out, threads, &mut state, note, &notes[index + 1..])?;
    }
    Ok(())
}
