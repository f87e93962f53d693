ghost use Rattle.std.specs.Prelude.{◌≡◌, ◌++◌, OnOk, None};
ghost use Rattle.run_drawing.specs.Marks.{access_before as last_before, arrow_from, entry_with};
ghost use Rattle.run_drawing.specs.Marks.{is_var as is_variable, last_access as last_found};
ghost use Rattle.run_drawing.specs.Marks.{move_title, var_of};
ghost use Rattle.run_drawing.specs.Picture.{cells_from, move_elements, moves_from};

use crate::Cell;
use crate::marks::{Scene, mark, title_of};
use crate::places::{advance, in_cell};
use entry_order::What;
use made_moves::{Did, Made};
use plain_text::NoMemory;
use std::alloc::Global;
use svg_text::{Class, Element, Elements, Shape};

/// The variable that a move touches or reads.
fn variable_of(did: Did) -> Option<u32>
    ensures { result ≡ var_of did }
{
    match did {
        Did::Logged {
            what: What::Access { var, .. },
            ..
        } => Some(var),
        Did::Logged {
            what: What::Read { var, .. },
            ..
        } => Some(var),
        _ => None,
    }
}

/// Whether it is this variable.
fn is_var(var: u32, other: Option<u32>) -> bool
    ensures { result ≡ is_variable var other }
{
    match other {
        Some(other) => other == var,
        None => false,
    }
}

/// The last of these that accesses the variable.
fn last_access(var: u32, cells: &[Cell]) -> Option<Cell>
    ensures { result ≡ last_found var None cells.now }
{
    let mut found = None;
    for cell in cells {
        if is_var(var, variable_of(cell.made.did)) {
            found = Some(*cell);
        }
    }
    found
}

/// The last of these that accesses the variable that a move accesses.
fn access_before(did: Did, cells: &[Cell]) -> Option<Cell>
    ensures { result ≡ last_before (var_of did) cells.now }
{
    match variable_of(did) {
        Some(var) => last_access(var, cells),
        None => None,
    }
}

/// Appends an arrow from this move, if there is one.
fn put_arrow(
    out: &mut Elements,
    column: u64,
    thread: u64,
    before: Option<Cell>,
) -> Result<(), NoMemory>
    ensures { OnOk result (out.new ≡ out.old ++ arrow_from column thread before) }
{
    match before {
        None => Ok(()),
        Some(cell) => out.push(Element {
            class: Class::Arrow,
            title: None,
            shape: Shape::Line {
                from: in_cell(cell.column, u64::from(cell.made.thread), 18, 20),
                to: in_cell(column, thread, 2, 20),
            },
        }),
    }
}

/// Appends the entry of a move, where it is logged and its event is of several.
fn put_entry(
    alloc: Global,
    out: &mut Elements,
    several: bool,
    lane: u64,
    column: u64,
    line: &[u8],
    made: Made,
) -> Result<(), NoMemory>
    ensures { OnOk result (out.new
        ≡ out.old ++ entry_with several lane column (move_title line.now made) made.did) }
{
    match made.did {
        Did::Logged { .. } if several => {
            let title = title_of(alloc, line, made)?;
            out.push(Element {
                class: Class::Entry,
                title: Some(title),
                shape: Shape::Circle {
                    middle: in_cell(column, lane, 10, 20),
                    radius: 5,
                },
            })
        }
        _ => Ok(()),
    }
}

/// Appends what is drawn of a move, behind these moves of its master.
fn put_move(
    alloc: Global,
    out: &mut Elements,
    scene: Scene<'_>,
    column: u64,
    earlier: &[Cell],
    made: Made,
) -> Result<(), NoMemory>
    ensures { OnOk result (out.new ≡ out.old ++ move_elements scene.entry.threads scene.entry.line.now
        scene.entry.several scene.entry.gone.now scene.entry.later.now column earlier.now made) }
{
    let before = access_before(made.did, earlier);
    put_arrow(out, column, u64::from(made.thread), before)?;
    out.push(mark(alloc, scene, earlier.len() as u64, column, made)?)?;
    put_entry(
        alloc,
        out,
        scene.several,
        scene.threads,
        column,
        scene.line,
        made,
    )
}

/// Appends what is drawn of moves, from this column on, each behind the earlier ones of its master.
pub fn put_moves(
    alloc: Global,
    out: &mut Elements,
    scene: Scene<'_>,
    first: u64,
    earlier: &mut Vec<Cell>,
    made: &[Made],
) -> Result<(), NoMemory>
    ensures elements { OnOk result (out.new ≡ out.old ++ moves_from scene.entry.threads scene.entry.line.now
        scene.entry.several scene.entry.gone.now scene.entry.later.now first earlier.old.items made.now) }
    ensures cells { OnOk result
        (earlier.new.items ≡ earlier.old.items ++ cells_from first made.now) }
{
    let mut column = first;
    for made in made {
        put_move(alloc, out, scene, column, earlier, *made)?;
        earlier.push(Cell {
            made: *made,
            column,
        })?;
        column = advance(column, 1)?;
    }
    Ok(())
}
