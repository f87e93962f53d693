//! Workers are made of what each thread has, and what they leave is put together, by thread.
ghost use Rattle.std.specs.Prelude.{◌≡◌, IfOk, List, Ok, length, map};
ghost use Rattle.frame_intake.specs.Orders.{orders_of};
ghost use Rattle.live_workers.specs.Working.{Course};
ghost use Rattle.live_workers.specs.Racing.{AreLeftBy, AreWorkers};

use crate::working::{Worker, Working};
use box_program::Program;
use frame_intake::RoundOrders;
use plain_text::NoMemory;
use rand_pcg::Pcg32;
use round_join::Moves;
use std::alloc::Global;
use var_locks::VarSeat;

/// What all workers left, by thread.
#[derive(Drop)]
pub(crate) struct Left<P: Program> {
    pub(crate) seats: Vec<VarSeat<P>>,
    pub(crate) moves: Vec<Moves>,
    pub(crate) generators: Vec<Pcg32>,
}

/// The last of these rooms; a new one where there is none.
fn room_of(alloc: Global, rooms: &mut Vec<Moves>) -> Moves {
    match rooms.pop() {
        Some(room) => room,
        None => Moves::new(alloc),
    }
}

/// Workers for these seats and generators. Their rooms say nothing of what they do.
pub(crate) fn workers_of<P: Program>(
    alloc: Global,
    mut seats: Vec<VarSeat<P>>,
    mut generators: Vec<Pcg32>,
    mut rooms: Vec<Moves>,
    orders: &RoundOrders,
) -> Result<Vec<Worker<P>>, NoMemory>
    requires generators { length generators.items ≡ length seats.items }
    ensures { IfOk result (λ workers. AreWorkers seats.items generators.items
        (orders_of orders.now).moves workers.items) }
{
    let mut workers = Vec::with_capacity(alloc, seats.len())?;
    while let Some(seat) = seats.pop() {
        let Some(generator) = generators.pop() else {
            unreachable!()
        };
        // A thread has a number of 32 bits: no memory has more seats than that.
        let Ok(thread) = u32::try_from(seats.len()) else {
            return Err(NoMemory);
        };
        workers.push(Worker {
            seat,
            generator,
            room: room_of(alloc, &mut rooms),
            limit: orders.most_moves(thread),
        })?;
    }
    workers.reverse();
    Ok(workers)
}

/// What the workers left that all came to their ends.
pub(crate) fn part_all<P: Program>(
    alloc: Global,
    mut ended: Vec<Result<Working<P>, NoMemory>>,
) -> Result<Left<P>, NoMemory>
    ensures { IfOk result (λ left. (courses : List (Course P.Value))
        × (ended.items ≡ map Ok courses)
        × AreLeftBy courses left.seats.items left.moves.items left.generators.items) }
{
    let count = ended.len();
    let mut left = Left {
        seats: Vec::with_capacity(alloc, count)?,
        moves: Vec::with_capacity(alloc, count)?,
        generators: Vec::with_capacity(alloc, count)?,
    };
    while let Some(one) = ended.pop() {
        let Working {
            seat,
            moves,
            generator,
        } = one?;
        left.seats.push(seat)?;
        left.moves.push(moves)?;
        left.generators.push(generator)?;
    }
    left.seats.reverse();
    left.moves.reverse();
    left.generators.reverse();
    Ok(left)
}
