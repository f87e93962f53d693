ghost use Rattle.std.specs.Prelude.{◌≡◌, ◌+◌, [], ℕ, IfOk};
ghost use Rattle.noted_runs.specs.Fates.{dropped_for as dropped_for_of};
ghost use Rattle.noted_runs.specs.Filling.{AreFilled, IsFilled, became_noted};
ghost use Rattle.noted_runs.specs.Filling.{fate_at as fate_at_of};
ghost use Rattle.noted_runs.specs.Filling.{fate_from, lacks_noted};
ghost use Rattle.noted_runs.specs.Rows.{left_by};

use crate::trace::following::Inputs;
use crate::trace::places::place_of;
use crate::trace::rows::{Became, Departure, Fate, Row};
use crate::trace::running::{Gone, Lacking, Seen};
use plain_text::{NoMemory, Sequence};
use recovery_core::Lacks;
use std::alloc::Global;

/// The rows of a table.
pub type Rows = Sequence<Row>;

/// What the output of this thread and number lacks; of one that is not noted, that the master did not send it.
fn lacks_of(lists: &[Lacking], thread: u32, number: u64) -> Lacks
    ensures { result ≡ lacks_noted lists.now thread number }
{
    let Some(list) = lists.get(thread as usize) else {
        return Lacks::NotSent;
    };
    match list.as_slice().get(number as usize) {
        Some(lacks) => *lacks,
        None => Lacks::NotSent,
    }
}

/// The fate of a packet whose output has this place in the order of release, or lacks this where it has none.
fn fate_at(place: u64, lacks: Lacks) -> Fate
    ensures { result ≡ fate_at_of place lacks }
{
    if place > 0 {
        return Fate::Released(place);
    }
    match lacks {
        Lacks::Entry { thread, number } => Fate::Waiting { thread, number },
        Lacks::Arrival => Fate::UnderWay,
        Lacks::NotSent => Fate::InHand,
    }
}

/// The fate of a packet that was ended with no output, by the number in the register of reasons.
fn dropped_for(reason: u64) -> Fate
    ensures { result ≡ dropped_for_of reason }
{
    if 1 <= reason && reason <= 10 {
        Fate::Dropped(b'0' + reason as u8)
    } else {
        Fate::NoOutput
    }
}

/// What became of a packet of this thread.
fn fate_of(seen: &Seen, thread: u32, became: Became) -> Fate
    ensures { result ≡ fate_from seen.now.places.items seen.now.lacks.items thread became }
{
    match became {
        Became::Untaken => Fate::NotTaken,
        Became::InHand => Fate::InHand,
        Became::Sent(number) => fate_at(
            place_of(&seen.places, thread, number),
            lacks_of(&seen.lacks, thread, number),
        ),
        Became::Ended(reason) => dropped_for(reason),
    }
}

/// What became of an input of a thread, from 1.
fn became_of(inputs: &[Inputs], thread: u32, input: u64) -> Became
    ensures { result ≡ became_noted inputs.now thread input }
{
    let Some(earlier) = input.checked_sub(1) else {
        return Became::Untaken;
    };
    let Some(list) = inputs.get(thread as usize) else {
        return Became::Untaken;
    };
    match list.as_slice().get(earlier as usize) {
        Some(became) => *became,
        None => Became::Untaken,
    }
}

/// How a packet of this fate left.
fn left_of(departures: &[Departure], fate: Fate) -> Option<Departure>
    ensures { result ≡ left_by departures.now fate }
{
    match fate {
        Fate::Released(place) => departures.get(place.saturating_sub(1) as usize).copied(),
        _ => None,
    }
}

/// The row of the packet with this number, of this thread and input.
fn row_of(gone: &Gone, inputs: &[Inputs], packet: u64, turn: (u32, u64)) -> Row
    ensures { (i : ℕ) → packet ≡ i + 1 → IsFilled gone.now.departures gone.now.seen.places.items
        gone.now.seen.lacks.items inputs.now i turn result }
{
    let (thread, input) = turn;
    let fate = fate_of(&gone.seen, thread, became_of(inputs, thread, input));
    Row {
        packet,
        thread,
        input,
        left: left_of(gone.departures.as_slice(), fate),
        fate,
    }
}

/// The rows of packets, by their threads and inputs.
pub fn fill_rows(
    alloc: Global,
    gone: &Gone,
    inputs: &[Inputs],
    turns: &[(u32, u64)],
) -> Result<Rows, NoMemory>
    ensures { IfOk result (λ rows. AreFilled gone.now.departures gone.now.seen.places.items
        gone.now.seen.lacks.items inputs.now turns.now rows) }
{
    let mut rows = Rows::new(alloc);
    for (earlier, turn) in turns.iter().enumerate() {
        rows.push(row_of(gone, inputs, earlier as u64 + 1, *turn))?;
    }
    Ok(rows)
}
