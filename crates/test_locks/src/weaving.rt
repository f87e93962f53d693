//! The receipts of a round as one run of the plain player.
use crate::steps::Did;
use box_program::Program;
use input_logger::InputLog;
use master_core::{Woven, WovenStep};
use plain_machine::Schedule;
use plain_player::play;
use plain_text::NoMemory;
use round_order::weave;
use std::alloc::Global;

/// What each thread did.
fn all_steps<'a>(alloc: Global, receipts: &'a [Woven]) -> Result<Vec<&'a [WovenStep]>, NoMemory> {
    let mut steps = Vec::new(alloc);
    for did in receipts {
        steps.push(did.as_slice())?;
    }
    Ok(steps)
}

/// The moves that are left, each taken from its thread as its turn comes.
fn merged(alloc: Global, turns: &[usize], left: &mut [&[WovenStep]]) -> Result<Woven, NoMemory> {
    let mut steps = Woven::new(alloc);
    for turn in turns {
        let Some(did) = left.get_mut(*turn) else {
            return Ok(steps);
        };
        if let Some((step, others)) = did.split_first() {
            steps.push(*step)?;
            *did = others;
        }
    }
    Ok(steps)
}

/// What the threads did, in one order.
pub fn woven(alloc: Global, did: &Did) -> Result<Woven, NoMemory> {
    let turns = weave(alloc, &did.marks)?;
    let mut left = all_steps(alloc, &did.receipts)?;
    merged(alloc, turns.as_slice(), &mut left)
}

/// Whether the moves are legal for the plain player with these inputs.
pub fn is_legal<P: Program>(
    alloc: Global,
    program: &P,
    inputs: &InputLog,
    steps: &[WovenStep],
) -> Result<bool, NoMemory> {
    let mut schedule = Schedule::new(alloc);
    for step in steps {
        schedule.push(step.moved)?;
    }
    Ok(play(alloc, program, inputs, &schedule).is_ok())
}
