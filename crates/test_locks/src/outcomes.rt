//! What a round came to.
ghost use Rattle.std.specs.Prelude.{◌≡◌, ◌<◌, length};
ghost use Rattle.box_program.specs.Hands.{FitsProgram};
ghost use Rattle.master_core.specs.Mastered.{value_of};

use crate::races::RoundEnd;
use crate::weaving::{is_legal, woven};
use box_program::Program;
use input_logger::InputLog;
use master_core::{Counts, Master};
use plain_text::{NoMemory, Text};
use std::alloc::Global;

/// What a round of two threads came to.
#[derive(Clone, Copy, PartialEq)]
pub struct Outcome {
    /// How much each thread did.
    pub counts: [Counts; 2],
    /// How many moves the threads made together.
    pub moves: usize,
    /// Whether the plain player may make them in one order.
    pub legal: bool,
}

/// What the round, which began with a fresh master, came to.
pub fn outcome_of<P: Program>(
    alloc: Global,
    program: &P,
    inputs: &InputLog,
    raced: &RoundEnd<P>,
) -> Result<Outcome, NoMemory>
    requires { length raced.now.master.threads ≡ 2 }
{
    let steps = woven(alloc, &raced.did)?;
    let steps = steps.as_slice();
    Ok(Outcome {
        counts: [raced.master.counts(0), raced.master.counts(1)],
        moves: steps.len(),
        legal: is_legal(alloc, program, inputs, steps)?,
    })
}

/// What a variable shows.
fn shown<P: Program>(
    alloc: Global,
    program: &P,
    master: &Master<P>,
    var: u32,
) -> Result<Text, NoMemory>
    requires fits { FitsProgram (P.meaning program.now) (P.fits program.now)
        value_of master.now.vars }
    requires low { var < (P.meaning program.now).vars }
{
    program.show(alloc, var, master.value(var))
}

/// Whether a variable shows so.
pub fn shows<P: Program>(
    alloc: Global,
    program: &P,
    master: &Master<P>,
    var: u32,
    text: &str,
) -> Result<bool, NoMemory>
    requires fits { FitsProgram (P.meaning program.now) (P.fits program.now)
        value_of master.now.vars }
{
    if var >= program.vars() {
        return Ok(false);
    }
    Ok(shown(alloc, program, master, var)?.as_str() == text)
}
