ghost use Rattle.std.specs.Prelude.{◌≡◌, ◌<◌, [], List, Ok, IfOk, OnOk, length, replicate};
ghost use Rattle.std.specs.Prelude.{slice_index_or, slice_set};
ghost use Rattle.input_logger.specs.Inputs.{inputs_of};
ghost use Rattle.plain_machine.specs.History.{Step, play};
ghost use Rattle.noted_runs.specs.Became.{reason_at};
ghost use Rattle.noted_runs.specs.Became.{with_end as with_end_of, with_output as with_output_of};
ghost use Rattle.noted_runs.specs.Following.{HasBecome, after_made, made_of};

use crate::trace::rows::Became;
use box_program::{Local, Program};
use input_logger::InputLog;
use plain_machine::{Emission, Schedule};
use plain_player::Player;
use plain_text::{NoMemory, Sequence};
use std::alloc::Global;

/// What a move did with the packet in hand.
#[derive(Clone, Copy)]
pub enum Made {
    /// It took it.
    Took,
    /// It went on with it.
    Went,
    /// It sent out this output of the thread.
    Sent(u64),
    /// It ended it. This number stood in the register of reasons, or 0.
    Ended(u64),
}

/// What became of the inputs of a thread, in their order.
pub type Inputs = Sequence<Became>;

/// The number in the register of reasons at a place; 0 where there is no such register.
fn reason_of(register: Option<usize>, place: &Local) -> u64
    ensures { result ≡ reason_at register place.now }
{
    match register {
        None => 0,
        Some(register) => match place.regs.get(register) {
            Some(reason) => *reason,
            None => 0,
        },
    }
}

/// What a move did, by where the thread was with its packet in hand, what it sent out, and where it is.
fn made_by(
    register: Option<usize>,
    before: Option<Local>,
    sent: Option<Emission>,
    after: Option<Local>,
) -> Made
    ensures { result ≡ made_of register before sent after }
{
    let Some(place) = before else {
        return Made::Took;
    };
    if let Some(emission) = sent {
        return Made::Sent(emission.number);
    }
    match after {
        Some(_) => Made::Went,
        None => Made::Ended(reason_of(register, &place)),
    }
}

/// The first output that is sent out for an input counts.
fn with_output(number: u64, before: Became) -> Became
    ensures { result ≡ with_output_of number before }
{
    match before {
        Became::Sent(first) => Became::Sent(first),
        Became::Untaken | Became::InHand | Became::Ended(_) => Became::Sent(number),
    }
}

/// An end counts where nothing was sent out for the input.
fn with_end(reason: u64, before: Became) -> Became
    ensures { result ≡ with_end_of reason before }
{
    match before {
        Became::Sent(first) => Became::Sent(first),
        Became::Untaken | Became::InHand | Became::Ended(_) => Became::Ended(reason),
    }
}

/// Notes what a move did with the input that its thread took last.
fn note_move(inputs: &mut Inputs, made: Made) -> Result<(), NoMemory>
    ensures { OnOk result (inputs.new ≡ after_made made inputs.old) }
{
    let count = inputs.len();
    let last = match inputs.as_slice().last() {
        Some(last) => *last,
        None => Became::Untaken,
    };
    let next = match made {
        Made::Took => return inputs.push(Became::InHand),
        Made::Went => return Ok(()),
        Made::Sent(number) => with_output(number, last),
        Made::Ended(reason) => with_end(reason, last),
    };
    if count == 0 {
        return Ok(());
    }
    inputs.truncate(count - 1);
    inputs.push(next)
}

/// Notes what a move of this thread did. It is told as want of memory where there is no such thread.
fn note_thread(lists: &mut Vec<Inputs>, thread: u32, made: Made) -> Result<(), NoMemory>
    ensures thread { OnOk result (thread < length lists.old.items) }
    ensures lists { OnOk result (lists.new.items ≡ slice_set lists.old.items thread
        (after_made made (slice_index_or lists.old.items thread []))) }
{
    let at = thread as usize;
    if at >= lists.len() {
        return Err(NoMemory);
    }
    note_move(&mut lists[at], made)
}

/// No inputs, for each thread.
fn no_inputs(alloc: Global, threads: u32) -> Result<Vec<Inputs>, NoMemory>
    ensures { IfOk result (λ lists. lists.items ≡ replicate threads []) }
{
    let mut lists = Vec::new(alloc);
    for _ in 0..threads {
        lists.push(Inputs::new(alloc))?;
    }
    Ok(lists)
}

/// What became of each input in a run that has this schedule, by its thread. Reasons of drops stand in this register.
///
/// It is told as want of memory where the schedule is not legal.
pub fn follow_schedule<P: Program>(
    alloc: Global,
    program: &P,
    inputs: &InputLog,
    schedule: &Schedule,
    register: Option<usize>,
) -> Result<Vec<Inputs>, NoMemory>
    ensures { IfOk result (λ lists. (steps : List (Step P.Value))
        → play (P.meaning program.now) (inputs_of inputs.now) inputs.now.threads schedule.now
        ≡ Ok steps → HasBecome register inputs.now.threads steps lists.items) }
{
    let mut player = Player::fresh(alloc, program, inputs.threads())?;
    let mut lists = no_inputs(alloc, inputs.threads())?;
    for index in 0..schedule.len() {
        let plain = schedule.at(index);
        let before = player.place(plain.thread);
        let input = inputs.input(plain.thread, player.next_input(plain.thread));
        let Ok(sent) = player.step(alloc, program, plain, input) else {
            return Err(NoMemory);
        };
        let made = made_by(register, before, sent, player.place(plain.thread));
        note_thread(&mut lists, plain.thread, made)?;
    }
    Ok(lists)
}
