ghost use Rattle.std.specs.Prelude.{◌≡◌, ◌<◌};
ghost use Rattle.entry_order.specs.Log.{entries};
ghost use Rattle.handover_world.specs.Ready.{AreBehind, AreLeft, IsReadiness};
ghost use Rattle.plain_machine.specs.History.{outputs, sent_of};
ghost use Rattle.recovery_world.specs.World.{Setting, World};
ghost use Rattle.system_parts.specs.SystemStanding.{StandsFor};

use box_program::Program;
use handover_world::Unready;
use system_parts::Core;

/// How many entries of a thread that the master must follow are not made yet.
fn left_of<P: Program>(core: &Core<P>, thread: u32) -> u64
    requires { thread < core.now.inputs.threads }
    ensures { (s : Setting P.Value) (w : World P.Value)
        → (st : StandsFor (P.meaning core.now.program) s w core.now)
        → result ≡ entries thread st.sound.firm.more }
{
    let made = core.master.counts(thread).entries;
    for number in made..u64::MAX {
        let Some(_) = core.guide.get(thread, number + 1) else {
            return number - made;
        };
    }
    u64::MAX - made
}

/// How many entries that the master must follow are not made yet.
fn left<P: Program>(core: &Core<P>) -> u64
    ensures { (s : Setting P.Value) (w : World P.Value)
        → StandsFor (P.meaning core.now.program) s w core.now → AreLeft w result }
{
    let mut left: u64 = 0;
    for thread in 0..core.inputs.threads() {
        left = left.saturating_add(left_of(core, thread));
    }
    left
}

/// How many outputs of a thread the master sent out.
fn outputs_of<P: Program>(core: &Core<P>, thread: u32) -> u64
    ensures { (s : Setting P.Value) (w : World P.Value)
        → StandsFor (P.meaning core.now.program) s w core.now
        → result ≡ outputs thread (sent_of w.past) }
{
    if thread >= core.inputs.threads() {
        return 0;
    }
    core.master.counts(thread).outputs
}

/// How many released outputs a master that follows nothing more did not send out yet.
fn behind<P: Program>(core: &Core<P>) -> u64
    ensures { (s : Setting P.Value) (w : World P.Value)
        → StandsFor (P.meaning core.now.program) s w core.now → AreLeft w 0 → AreBehind w result }
{
    let mut behind = 0;
    for (thread, number) in core.released.as_slice() {
        if *number > outputs_of(core, *thread) {
            behind += 1;
        }
    }
    behind
}

/// Whether the system may be handed over: its master is up, and has made again and sent out again all that it must. It
/// takes no memory, and time that grows with the number of entries that it still follows and of released outputs.
pub fn readiness<P: Program>(core: &Core<P>) -> Result<(), Unready>
    ensures { (s : Setting P.Value) (w : World P.Value)
        → StandsFor (P.meaning core.now.program) s w core.now → IsReadiness w result }
{
    if !core.up {
        return Err(Unready::Down);
    }
    let left = left(core);
    if left > 0 {
        return Err(Unready::Left(left));
    }
    let behind = behind(core);
    if behind > 0 {
        return Err(Unready::Behind(behind));
    }
    Ok(())
}
