ghost use Rattle.std.specs.Prelude.{◌≡◌, ℕ, IfOk};
ghost use Rattle.recovery_world.specs.declared.event.Event.TheVariants as event_is;
ghost use Rattle.recovery_world.specs.World.{Setting, World};
ghost use Rattle.recovery_world.specs.Limits.{OnWithin};
ghost use Rattle.system_parts.specs.SystemStanding.{StandsFor};
ghost use Rattle.system_parts.specs.Performing.{ComesTo};

use box_program::Program;
use plain_text::NoMemory;
use recovery_world::Outcome;
use system_parts::Core;

/// Shows the value of a variable.
pub fn show<P: Program>(core: &Core<P>, var: u64) -> Result<Outcome, NoMemory>
    ensures on { IfOk result (λ to. (s : Setting P.Value) (w : World P.Value)
        → StandsFor (P.meaning core.now.program) s w core.now
        → ComesTo (event_is.Show var) to s w w) }
{
    if var >= u64::from(core.program.vars()) {
        return Ok(Outcome::Nothing);
    }
    if !core.up {
        return Ok(Outcome::Down);
    }
    let var = var as u32;
    let value = core.master.value(var);
    Ok(Outcome::Shown(core.program.show(core.alloc, var, value)?))
}
