ghost use Rattle.std.specs.Prelude.{◌≡◌, ◌+◌, ◌≤◌, ◌<◌, ◌^◌, ◌-◌, filter, length};
ghost use Rattle.made_moves.specs.Made.{did_by, entry_next, is_entry_of, is_output_of};
ghost use Rattle.made_moves.specs.Made.{is_touch_of, next_did};

use crate::{Did, Made};
use box_program::Program;
use entry_order::What;
use plain_machine::{Local, Move};

/// Whether the move made an entry of the thread.
fn is_entry(made: &Made, thread: u32) -> bool
    ensures { result ≡ is_entry_of thread made.now }
{
    made.thread == thread && matches!(made.did, Did::Logged { .. })
}

/// Whether the move sent an output of the thread out.
fn is_output(made: &Made, thread: u32) -> bool
    ensures { result ≡ is_output_of thread made.now }
{
    made.thread == thread && matches!(made.did, Did::Sent(_))
}

/// Whether the move touched the variable.
fn is_touch(made: &Made, var: u32) -> bool
    ensures { result ≡ is_touch_of var made.now }
{
    match made.did {
        Did::Logged {
            what: What::Access { var: touched, .. },
            ..
        } => touched == var,
        _ => false,
    }
}

/// How many of the moves made an entry of the thread.
fn count_entries(made: &[Made], thread: u32) -> u64
    ensures count { result ≡ length (filter (is_entry_of thread) made.now) }
    ensures few { result ≤ length made.now }
{
    made.iter().filter(|m| is_entry(m, thread)).count() as u64
}

/// How many of the moves sent an output of the thread out.
fn count_outputs(made: &[Made], thread: u32) -> u64
    ensures count { result ≡ length (filter (is_output_of thread) made.now) }
    ensures few { result ≤ length made.now }
{
    made.iter().filter(|m| is_output(m, thread)).count() as u64
}

/// How many of the moves touched the variable.
fn count_touches(made: &[Made], var: u32) -> u64
    ensures count { result ≡ length (filter (is_touch_of var) made.now) }
    ensures few { result ≤ length made.now }
{
    made.iter().filter(|m| is_touch(m, var)).count() as u64
}

/// A move that makes the next entry of the thread.
fn logged(made: &[Made], thread: u32, what: What) -> Did
    requires { length made.now < 2 ^ 64 - 1 }
    ensures { result ≡ entry_next made.now thread what }
{
    Did::Logged {
        number: count_entries(made, thread) + 1,
        what,
    }
}

/// What the next move with a packet in hand does, by what the program asks for.
fn did_with(made: &[Made], thread: u32, input: u64, answer: Option<u64>, asks: Move) -> Did
    requires { length made.now < 2 ^ 64 - 1 }
    ensures { result ≡ did_by made.now thread input answer asks }
{
    match asks {
        Move::Access(var) => {
            let place = count_touches(made, var) + 1;
            logged(made, thread, What::Access { var, place })
        }
        Move::Read(var) => {
            let after = count_touches(made, var);
            logged(made, thread, What::Read { var, after })
        }
        Move::Clock => logged(made, thread, What::Clock(answer.unwrap_or(0))),
        Move::Draw => logged(made, thread, What::Draw(answer.unwrap_or(0))),
        Move::Emit => Did::Sent(count_outputs(made, thread) + 1),
        Move::End => Did::Ended(input),
    }
}

/// What the next move of a thread does, which has this input in hand at this place, or takes it, and is told this.
pub fn next_of<P: Program>(
    program: &P,
    made: &[Made],
    thread: u32,
    input: u64,
    answer: Option<u64>,
    place: Option<Local>,
) -> Did
    requires { length made.now < 2 ^ 64 - 1 }
    ensures { result ≡ next_did (P.meaning program.now) made.now thread input answer place }
{
    match place {
        None => Did::Took(input),
        Some(place) => did_with(made, thread, input, answer, program.next(&place)),
    }
}
