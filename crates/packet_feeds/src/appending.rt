ghost use Rattle.std.specs.Prelude.{◌≡◌, ◌+◌, ◌<◌, ◌++◌, ◌∷◌, [], OnOk, OnErr, length};
ghost use Rattle.plain_text.specs.Packets.{IsShort};
ghost use Rattle.plain_text.specs.declared.limit.TheConstants.{MOST_PACKETS};
ghost use Rattle.recovery_world.specs.World.{Setting, World};
ghost use Rattle.longer_captures.specs.Longer.{with_more};
ghost use Rattle.system_parts.specs.SystemStanding.{StandsFor};

use box_program::Program;
use plain_text::{NoMemory, Packet};
use system_parts::Core;

/// A packet is put behind those of the capture. The system stands for the same worlds, on the longer capture. After
/// `NoMemory` all is as it was.
pub fn append<P: Program>(core: &mut Core<P>, packet: Packet) -> Result<(), NoMemory>
    requires short { IsShort packet }
    requires room { length core.old.inputs.packets + length core.old.left < MOST_PACKETS }
    ensures ok { OnOk result
        (core.new ≡ record core.old { left = core.old.left ++ packet ∷ [] }) }
    ensures stands { OnOk result ((s : Setting P.Value) (w : World P.Value)
        → StandsFor (P.meaning core.old.program) s w core.old
        → StandsFor (P.meaning core.old.program) (with_more s (packet ∷ [])) w core.new) }
    ensures err { OnErr result (core.new ≡ core.old) }
{
    core.left.push_back(packet)?;
    Ok(())
}
