//! A round of racing threads, by the recovering system.
ghost use Rattle.std.specs.Prelude.{◌≡◌, [], true, false, IfErr, IfOk, List, length};
ghost use Rattle.box_program.specs.Hands.{FitsProgram};
ghost use Rattle.master_core.specs.Mastered.{Mastered, value_of};
ghost use Rattle.master_core.specs.MasterStanding.{Stands};
ghost use Rattle.recovery_world.specs.World.{Setting, World};
ghost use Rattle.system_parts.specs.Resting.{RestsFor};
ghost use Rattle.recovery_core.specs.Partings.{PartsStandForSome};
ghost use Rattle.recovery_core.specs.Systems.{SystemStands};
ghost use Rattle.atomic_table.specs.Seated.{TableId};
ghost use Rattle.var_locks.specs.Seats.{Seated};
ghost use Rattle.frame_intake.specs.Orders.{orders_of};
ghost use Rattle.round_join.specs.Racing.{CameTo, HasRaced, Raced};
ghost use Rattle.live_workers.specs.Rounds.{Rounds, RoundsRest, StopsRound};

use crate::draws::Draws;
use crate::moving::Sender;
use crate::racing::{Race, run_race};
use crate::sent::frames_sent;
use box_program::Program;
use frame_intake::{FrameName, RoundOrders};
use master_core::Master;
use plain_machine::PlainMove;
use plain_text::{Limit, MOST_MOVES, NoMemory};
use recovery_core::{Rest, System, SystemParted};
use round_join::{Moves, NoteStop, Noted, note_round};
use round_order::Marks;
use std::alloc::Global;
use std::sync::Wait;
use std::thread::Threads;
use var_locks::Gate;
use world_io::Clock;

/// What a round came to.
#[derive(Drop)]
pub struct RoundDone<P: Program> {
    /// The system after the steps.
    pub system: System<P>,
    /// The steps that the threads made, one after another, as events with what each came to.
    pub steps: Vec<Noted>,
    /// The frames that may arrive now, in the order of the steps that sent them.
    pub arriving: Vec<FrameName>,
    /// The generators of the next round.
    pub draws: Draws,
}

/// What a round came to whose system has its master out.
#[derive(Drop)]
struct Over<P: Program> {
    master: Master<P>,
    steps: Vec<Noted>,
    arriving: Vec<FrameName>,
    draws: Draws,
}

/// Why a round came to no end. The system is gone.
#[derive(Drop)]
pub enum RoundStop {
    /// After these steps the next one would pass the limit.
    Limit {
        limit: Limit,
        steps: Vec<Noted>,
        next: PlainMove,
    },
    NoMemory,
}

impl From<NoMemory> for RoundStop {
    ghost use Rattle.std.specs.Prelude.{◌≡◌};
    ghost use Rattle.live_workers.specs.declared.rounds.RoundStop.TheVariants as stop;

    ghost from_gives = { λ _ r. r ≡ stop.NoMemory };

    fn from(_: NoMemory) -> Self {
        RoundStop::NoMemory
    }
}

/// Room for the steps that these moves are.
fn room_for(alloc: Global, moves: &[Moves]) -> Result<Vec<Noted>, NoMemory>
    ensures { IfOk result (λ steps. steps.items ≡ []) }
{
    let mut count: usize = 0;
    for of_thread in moves {
        count = count.saturating_add(of_thread.len());
    }
    Ok(Vec::with_capacity(alloc, count)?)
}

/// Notes the moves of a race in the woven order. The lists keep their room.
fn note_moves<P: Program>(
    alloc: Global,
    rest: &mut Rest<P>,
    marks: &[Marks],
    moves: &mut Vec<Moves>,
) -> Result<Vec<Noted>, RoundStop>
    requires raced { HasRaced (P.meaning rest.old.program) (P.fits rest.old.program) marks.now
        moves.old.items rest.old }
    ensures came { IfOk result (λ noted. (s : Setting P.Value) (w : World P.Value)
        (p : Mastered P.Value) (round : TableId) (seats : List (Seated P.Value))
        (q : Mastered P.Value)
        → Raced (P.meaning rest.old.program) (P.fits rest.old.program) s w p round seats q
        marks.entry.now moves.old.items rest.old
        → CameTo (P.meaning rest.old.program) s w seats q moves.old.items rest.old.guide
        noted.items rest.new) }
    ensures stops { IfErr result (λ stop. (s : Setting P.Value) (w : World P.Value)
        (p : Mastered P.Value) (round : TableId) (seats : List (Seated P.Value))
        (q : Mastered P.Value)
        → Raced (P.meaning rest.old.program) (P.fits rest.old.program) s w p round seats q
        marks.entry.now moves.old.items rest.old
        → StopsRound s w stop) }
    ensures program { IfOk result (λ noted. rest.new.program ≡ rest.old.program) }
{
    let mut steps = room_for(alloc, moves.as_slice())?;
    match note_round(alloc, rest, marks, moves, &mut steps) {
        Ok(()) => Ok(steps),
        Err(NoteStop::Limit { limit, next }) => Err(RoundStop::Limit { limit, steps, next }),
        Err(NoteStop::NoMemory) => Err(RoundStop::NoMemory),
    }
}

/// The round of a system whose master is out.
fn go_round<
    P: Program + Send + Sync,
    C: Clock + Sync,
    G: Gate + Sync,
    R: AllocGlobal + Threads + Wait + Sync,
>(
    rt: &R,
    rest: &mut Rest<P>,
    clock: &C,
    gate: &G,
    master: Master<P>,
    orders: &RoundOrders,
    draws: Draws,
) -> Result<Over<P>, RoundStop>
    requires fits { FitsProgram (P.meaning rest.old.program) (P.fits rest.old.program)
        value_of master.vars }
    requires threads { length master.threads ≡ rest.old.inputs.threads }
    requires up { rest.old.up ≡ true }
    requires draws { length draws ≡ rest.old.inputs.threads }
    requires some { PartsStandForSome (P.meaning rest.old.program) rest.old master }
    ensures on { IfOk result (λ r. (s : Setting P.Value) (w : World P.Value)
        → RestsFor (P.meaning rest.old.program) s w rest.old
        → Stands s.meaning s.threads w.past master
        → RoundsRest (P.meaning rest.old.program) s w (orders_of orders.now) (C.may clock.now)
        rest.old.guide draws r.steps.items r.arriving.items r.draws r.master rest.new) }
    ensures stops { IfErr result (λ stop. (s : Setting P.Value) (w : World P.Value)
        → RestsFor (P.meaning rest.old.program) s w rest.old
        → Stands s.meaning s.threads w.past master → StopsRound s w stop) }
    ensures fits { IfOk result (λ r. FitsProgram (P.meaning rest.old.program)
        (P.fits rest.old.program) value_of r.master.vars) }
    ensures program { IfOk result (λ r. rest.new.program ≡ rest.old.program) }
{
    let alloc = rt.alloc();
    rest.has_parts();
    let most = u64::from(MOST_MOVES) - rest.moves() + 1;
    let sender = Sender {
        epoch: rest.epoch(),
        threads: rest.threads(),
    };
    let (program, guide, inputs) = (rest.program(), rest.guide(), rest.inputs());
    let Race {
        master,
        marks,
        mut moves,
        generators,
    } = run_race(
        rt, program, guide, inputs, clock, gate, master, orders, draws, most, sender,
    )?;
    let steps = match note_moves(alloc, rest, &marks, &mut moves) {
        Ok(steps) => steps,
        Err(stop) => return Err(stop),
    };
    rest.has_parts();
    let frames = frames_sent(alloc, &steps)?;
    let arriving = orders.arriving(alloc, &frames)?;
    Ok(Over {
        master,
        steps,
        arriving,
        draws: Draws::of(generators, moves),
    })
}

/// Threads race in a round: each makes moves until it made as many as it is ordered, is idle, or waits for an entry
/// that is missing. Afterwards the system stands where it would stand had the moves been events `step`, one after
/// another.
///
/// Each thread is run by a worker, on a thread of the machine, or by the caller where none can be started. Which of the
/// frames that they sent may arrive is told, in the order of the steps, and they have not arrived yet.
pub fn round<
    P: Program + Send + Sync,
    C: Clock + Sync,
    G: Gate + Sync,
    R: AllocGlobal + Threads + Wait + Sync,
>(
    rt: &R,
    system: System<P>,
    clock: &C,
    gate: &G,
    orders: &RoundOrders,
    draws: Draws,
) -> Result<RoundDone<P>, RoundStop>
    requires runs { system.stopped ≡ false }
    requires up { system.parts.up ≡ true }
    requires draws { length draws ≡ system.parts.inputs.threads }

    // For every world that the system stood for.
    ensures on { IfOk result (λ r. (s : Setting P.Value) (w : World P.Value)
        → SystemStands (P.meaning system.parts.program) s w system
        → Rounds (P.meaning system.parts.program) s w (orders_of orders.now) (C.may clock.now)
        system.parts.guide draws r.steps.items r.arriving.items r.draws r.system) }
    ensures stops { IfErr result (λ stop. (s : Setting P.Value) (w : World P.Value)
        → SystemStands (P.meaning system.parts.program) s w system → StopsRound s w stop) }
    ensures goes_on { IfOk result (λ r. r.system.stopped ≡ false) }
    ensures program { IfOk result (λ r. r.system.parts.program ≡ system.parts.program) }

    // What was released and not handed over is still there.
    ensures handed { IfOk result (λ r. r.system.handed ≡ system.handed) }
    ensures fresh { IfOk result (λ r. r.system.fresh ≡ system.fresh) }
{
    let SystemParted {
        master,
        mut rest,
        kept,
    } = system.part()?;
    match go_round(rt, &mut rest, clock, gate, master, orders, draws) {
        Ok(over) => Ok(RoundDone {
            system: System::rejoin(rest, over.master, kept),
            steps: over.steps,
            arriving: over.arriving,
            draws: over.draws,
        }),
        Err(stop) => {
            rest.discard();
            Err(stop)
        }
    }
}
