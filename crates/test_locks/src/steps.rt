//! What the calls of a round answered, as the steps of its threads.
use access_log::What;
use master_core::{Stepped, Trace, Woven, WovenStep};
use plain_machine::PlainMove;
use plain_text::NoMemory;
use round_order::Marks;
use std::alloc::Global;

/// What the threads of a round did, by their numbers: the marks that the round kept, and what each was answered.
#[derive(Drop)]
pub struct Did {
    pub marks: Vec<Marks>,
    pub receipts: Vec<Woven>,
}

/// What two threads did, of which the round kept these marks.
pub fn did_of(
    alloc: Global,
    marks: Vec<Marks>,
    first: Woven,
    second: Woven,
) -> Result<Did, NoMemory> {
    let mut receipts = Vec::new(alloc);
    receipts.push(first)?;
    receipts.push(second)?;
    Ok(Did { marks, receipts })
}

/// What the move left, if one was made.
pub fn trace_of(stepped: &Stepped) -> Option<Trace> {
    match stepped {
        Stepped::Took(number) => Some(Trace::Took(*number)),
        Stepped::Did(entry) => Some(Trace::Did(*entry)),
        Stepped::Emitted(output) => Some(Trace::Emitted(output.number)),
        Stepped::Ended(number) => Some(Trace::Ended(*number)),
        Stepped::Idle | Stepped::NotTurn { .. } | Stepped::NoMemory => None,
    }
}

/// What the move was told, by what it left.
fn told_by(trace: &Trace) -> Option<u64> {
    let Trace::Did(entry) = trace else {
        return None;
    };
    match entry.what {
        What::Clock(answer) | What::Draw(answer) => Some(answer),
        What::Access { .. } | What::Read { .. } => None,
    }
}

/// Adds the move to what its thread did; whether one was made.
pub fn add(did: &mut Woven, thread: u32, stepped: &Stepped) -> Result<bool, NoMemory> {
    let Some(trace) = trace_of(stepped) else {
        return Ok(false);
    };
    let answer = told_by(&trace);
    did.push(WovenStep {
        moved: PlainMove { thread, answer },
        trace,
    })?;
    Ok(true)
}
