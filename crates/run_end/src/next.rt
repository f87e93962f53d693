ghost use Rattle.std.specs.Prelude.{◌≡◌, ◌<◌, ℕ, List, IfOk, length, option_copied};
ghost use Rattle.input_logger.specs.Inputs.{inputs_of};
ghost use Rattle.plain_machine.specs.Program.{Meaning};
ghost use Rattle.plain_machine.specs.History.{Step, IsHistory};
ghost use Rattle.box_program.specs.Hands.{IsInputAfter};
ghost use Rattle.master_core.specs.Mastered.{HasRoom};
ghost use Rattle.master_core.specs.Stepping.{MadeOne};
ghost use Rattle.master_core.specs.MasterStanding.{Stands};
ghost use Rattle.recovery_world.specs.Files.{answer_of_entry};
ghost use Rattle.run_end.specs.Playing.{told_by as told_is, IsBusy};

use box_program::Program;
use entry_order::What;
use input_logger::InputLog;
use master_core::{Master, Stepped};
use plain_text::{NoMemory, Packet};

/// The packet that the thread's next move is made with: the one in hand, else its next input, if there is one.
pub fn input_of<'a, P: Program>(
    inputs: &'a InputLog,
    master: &Master<P>,
    thread: u32,
) -> Option<&'a Packet>
    requires thread_in { thread < length master.now.threads }
    requires room { HasRoom master.now thread }
    ensures { (m : Meaning P.Value) (threads : ℕ) (steps : List (Step P.Value))
        → IsHistory m (inputs_of inputs.now) threads steps → Stands m threads steps master.now
        → thread < threads
        → IsInputAfter (inputs_of inputs.now) thread steps (option_copied result) }
{
    match master.in_hand(thread) {
        Some(k) => inputs.input(thread, k),
        None => inputs.input(thread, master.counts(thread).taken + 1),
    }
}

/// What a logged move was told, if it asked.
pub fn answer_of(what: &What) -> Option<u64>
    ensures { result ≡ answer_of_entry what.now }
{
    match what {
        What::Clock(value) | What::Draw(value) => Some(*value),
        What::Access { .. } | What::Read { .. } => None,
    }
}

/// What the move was told that a master made, or that memory ran out.
pub fn told_by(stepped: &Stepped) -> Result<Option<u64>, NoMemory>
    requires { IsBusy stepped.now }
    ensures told { IfOk result (λ told. (told ≡ told_is stepped.now) × MadeOne stepped.now) }
{
    match stepped {
        Stepped::Took(_) | Stepped::Emitted(_) | Stepped::Ended(_) => Ok(None),
        Stepped::Did(entry) => Ok(answer_of(&entry.what)),
        Stepped::NoMemory => Err(NoMemory),
        Stepped::Idle | Stepped::NotTurn { .. } => unreachable!(),
    }
}
