ghost use Rattle.std.specs.Prelude.{◌≡◌, IfOk, Err};
ghost use Rattle.plain_text.specs.declared.limit.Limit.{Limit as LimitKind};
ghost use Rattle.system_parts.specs.SystemStanding.{StandsForSome};
ghost use Rattle.single_events.specs.Single.{IsSingle};
ghost use Rattle.system_parts.specs.Performing.{Appends, MovesOn, StopsAt, Releasing, Replies};
ghost use Rattle.system_parts.specs.Performing.{WouldPass};

use crate::showing::show;
use access_log::Outputs;
use box_program::Program;
use crash_recovery::{crash, recover};
use event_replies::{Reply, Stop, only};
use message_arrivals::{arrive, arrive_cut, arrive_late};
use packet_feeds::{feed, set_time};
use plain_text::Kind;
use recovery_world::{Event, Outcome};
use snapshot_steps::{snap, store};
use system_parts::Core;
use thread_steps::step;

/// Performs an event that is one by itself: no settling, no choice of events, and a flow only while the master is down.
pub fn perform_single<P: Program>(
    core: &mut Core<P>,
    event: Event,
    out: &mut Outputs,
) -> Result<Reply, Stop>
    requires stands { StandsForSome (P.meaning core.old.program) core.old }
    requires single { IsSingle core.old.up event }
    ensures on { IfOk result (λ reply.
        MovesOn (P.meaning core.old.program)
        (Releasing out.old out.new (Replies event reply)) core.old core.new) }
    ensures limit { (limit : LimitKind) → result ≡ Err (Stop.Limit limit)
        → StopsAt (P.meaning core.old.program)
        (Releasing out.old out.new (WouldPass event limit)) core.old core.new }
    ensures appends { Appends out.old out.new }
{
    let alloc = core.alloc;
    match event {
        Event::Feed(n) => Ok(only(alloc, feed(core, n)?)),
        Event::Time(n) => Ok(only(alloc, set_time(core, n))),
        Event::Step { thread, answer } => Ok(only(alloc, step(core, thread, answer)?)),
        Event::Log { thread, number } => Ok(arrive(core, Kind::Log, thread, number, out)?),
        Event::Out { thread, number } => Ok(arrive(core, Kind::Out, thread, number, out)?),
        Event::Late {
            epoch,
            kind,
            thread,
            number,
        } => Ok(arrive_late(core, epoch, kind, thread, number, out)?),
        Event::Cut {
            kind,
            thread,
            number,
            length,
        } => Ok(arrive_cut(core, kind, thread, number, length, out)?),
        Event::Snap => Ok(only(alloc, snap(core)?)),
        Event::Store => Ok(store(core, out)?),
        Event::Crash => Ok(only(alloc, crash(core))),
        Event::Recover => Ok(only(alloc, recover(core)?)),
        Event::Show(var) => Ok(only(alloc, show(core, var)?)),
        Event::Flow(_) => Ok(only(alloc, Outcome::Down)),
        Event::Settle | Event::Auto { .. } => unreachable!(),
    }
}
