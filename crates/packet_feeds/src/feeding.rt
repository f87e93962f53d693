ghost use Rattle.std.specs.Prelude.{◌≡◌, ℕ, IfOk};
ghost use Rattle.recovery_world.specs.declared.event.Event.TheVariants as event_is;
ghost use Rattle.recovery_world.specs.World.{microseconds as microseconds_of};
ghost use Rattle.system_parts.specs.Performing.{MovesOn, ComesTo};

use box_program::Program;
use plain_text::{NoMemory, Packet, Unit};
use recovery_world::Outcome;
use system_parts::Core;

/// The time of a packet, in microseconds.
fn microseconds(unit: Unit, packet: &Packet) -> u64
    ensures { result ≡ microseconds_of unit packet.now }
{
    let whole = u64::from(packet.seconds) * 1_000_000;
    match unit {
        Unit::Micro => whole + u64::from(packet.fraction),
        Unit::Nano => whole + u64::from(packet.fraction) / 1000,
    }
}

/// The next packets of the capture are fed, this many or as many as are left. Each sets the clock to its own time,
/// where that is later.
pub fn feed<P: Program>(core: &mut Core<P>, n: u64) -> Result<Outcome, NoMemory>
    ensures { IfOk result (λ to.
        MovesOn (P.meaning core.old.program) (ComesTo (event_is.Feed n) to) core.old core.new) }
{
    'packets: for _ in 0..n {
        let Some(packet) = core.left.pop_front() else {
            break;
        };
        core.clock = core.clock.max(microseconds(core.unit, &packet));
        core.inputs.feed(packet)?;
    }
    Ok(Outcome::Total(core.inputs.fed()))
}

/// The clock becomes this number.
pub fn set_time<P: Program>(core: &mut Core<P>, time: u64) -> Outcome
    ensures { MovesOn (P.meaning core.old.program) (ComesTo (event_is.Time time) result)
        core.old core.new }
{
    core.clock = time;
    Outcome::Set
}
