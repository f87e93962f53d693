//! How a round of two threads begins and ends.
ghost use Rattle.std.specs.Prelude.{◌≡◌, ℕ, ◌<◌, List, length, false, true, IfOk, IfSome};
ghost use Rattle.box_program.specs.Hands.{FitsProgram};
ghost use Rattle.master_core.specs.Mastered.{value_of};
ghost use Rattle.master_core.specs.declared.parts.ThreadPart.{ThreadPart};
ghost use Rattle.atomic_table.specs.Seated.{TableId};
ghost use Rattle.var_locks.specs.Codes.{master_code};
ghost use Rattle.var_locks.specs.Openings.{fresh_seats, places_of};
ghost use Rattle.var_locks.specs.Rounds.{AreVarsOf};
ghost use Rattle.test_locks.specs.Racing.{IsSeatIn};

use box_program::Program;
use master_core::Master;
use plain_text::NoMemory;
use replay_guide::Guide;
use std::alloc::Global;
use var_locks::{Closed, Round, VarSeat, Vars};

/// The two seats of a round.
fn two_of<P: Program>(mut seats: Vec<VarSeat<P>>) -> Option<(VarSeat<P>, VarSeat<P>)>
    ensures { (round : TableId) (places : List ℕ) (threads : List ThreadPart)
        → seats.items ≡ fresh_seats round places 0 threads → length threads ≡ 2
        → IfSome result
        (λ both. IsSeatIn round 0 false both.0 × IsSeatIn round 1 false both.1) }
{
    let second = seats.pop()?;
    let first = seats.pop()?;
    Some((first, second))
}

/// A round of two threads, with their seats.
pub fn open_two<P: Program, J: Round>(
    alloc: Global,
    program: &P,
    master: Master<P>,
    guide: &Guide,
) -> Result<(Vars<P, J>, VarSeat<P>, VarSeat<P>), NoMemory>
    requires program { P.row.coded.code program.now ≡ J.program }
    requires master { (master_code P.Value.row.coded).code master ≡ J.opening }
    requires threads { master.threads ≡ J.threads }
    requires places { places_of master.vars ≡ J.places }
    requires guide { guide.now ≡ J.guide }
    requires fits { FitsProgram (P.meaning program.now) (P.fits program.now) value_of master.vars }
    requires two { length master.threads ≡ 2 }
    ensures vars { IfOk result (λ r.
        AreVarsOf P.meaning P.row.coded P.Value.row.coded program.now r.0) }
    ensures two { IfOk result (λ r. r.0.threads ≡ 2) }
    ensures first { IfOk result (λ r. IsSeatIn r.0.round 0 false r.1) }
    ensures second { IfOk result (λ r. IsSeatIn r.0.round 1 false r.2) }
{
    let (vars, seats) = Vars::<P, J>::of(alloc, program, master, guide)?;
    let Some((first, second)) = two_of(seats) else {
        return Err(NoMemory);
    };
    Ok((vars, first, second))
}

/// The end of a round of two threads.
pub fn close_two<P: Program, J: Round>(
    alloc: Global,
    program: &P,
    vars: Vars<P, J>,
    first: VarSeat<P>,
    second: VarSeat<P>,
) -> Result<Closed<P>, NoMemory>
    requires of { AreVarsOf P.meaning P.row.coded P.Value.row.coded program.now vars }
    requires two { vars.threads ≡ 2 }
    requires first { IsSeatIn vars.round 0 true first }
    requires second { IsSeatIn vars.round 1 true second }
    ensures fits { IfOk result (λ closed. FitsProgram (P.meaning program.now) (P.fits program.now)
        value_of closed.master.vars) }
    ensures two { IfOk result (λ closed. length closed.master.threads ≡ 2) }
{
    let mut seats = Vec::new(alloc);
    seats.push(first)?;
    seats.push(second)?;
    vars.close(alloc, program, seats)
}
