ghost use Rattle.std.specs.Prelude.{◌≡◌, All, OnOk, false};
ghost use Rattle.plain_text.specs.Packets.{IsShort};
ghost use Rattle.recovery_world.specs.World.{Setting, World as SystemWorld};
ghost use Rattle.run_writes.specs.Replies.{packets_in};
ghost use Rattle.run_command.specs.Running.{ComesTo, IsSystemAt};

use access_log::Outputs;
use box_program::Program;
use recovery_core::{Reply, Stop, System};
use recovery_world::Event;

/// What an event came to, and the outputs that it released.
#[derive(Drop)]
pub struct Performed {
    /// Its reply, or why it did not end. The system is stopped then.
    pub reply: Result<Reply, Stop>,
    /// What it released, in order of release. Where it stopped at a limit: what it released before.
    pub outputs: Outputs,
}

/// Performs an event, and takes what it released.
pub fn perform<P: Program>(system: &mut System<P>, event: &Event) -> Performed
    requires runs { system.old.stopped ≡ false }
    ensures comes { ComesTo (P.meaning system.old.parts.program) event.now result.reply
        result.outputs system.old system.new }
    ensures short { (s : Setting P.Value) (w : SystemWorld P.Value)
        → IsSystemAt (P.meaning system.old.parts.program) s w system.old → All IsShort s.packets
        → All IsShort (packets_in result.outputs) }
    ensures goes_on { OnOk result.reply (system.new.stopped ≡ false) }
    ensures program { OnOk result.reply (system.new.parts.program ≡ system.old.parts.program) }
{
    let reply = system.on(event);
    let outputs = system.take_released();
    Performed { reply, outputs }
}
