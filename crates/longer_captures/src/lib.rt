//! More packets may be put behind those of a capture while a system is at work on it: no event looks at packets that
//! are not there yet. The law is proved, and does nothing: a caller has it by the call.
#![tactic(auto)]

ghost use Rattle.std.specs.Prelude.{List};
ghost use Rattle.plain_text.specs.declared.limit.Limit.{Limit};
ghost use Rattle.plain_text.specs.declared.packet.Packet.{Packet};
ghost use Rattle.recovery_world.specs.declared.event.Event.{Event};
ghost use Rattle.recovery_world.specs.declared.event.Outcome.{Outcome};
ghost use Rattle.recovery_world.specs.World.{Setting, Sent, World};
ghost use Rattle.recovery_world.specs.Limits.{OnWithin};
ghost use Rattle.recovery_world.specs.Many.{OnAny, Stops};
ghost use Rattle.recovery_laws.specs.Sound.{Sound};
ghost use Rattle.longer_captures.specs.Longer.{with_more, as_fed, IsPerformed};

/// A sound world is sound on every longer capture, where a single event comes to the same. So a
/// world that events lead to, also with some of several among them, is one to which a script leads
/// on the longer capture.
pub fn longer_captures_keep_worlds<X>()
    ensures sound { (s : Setting X) (w : World X) (more : List Packet) → Sound s w
        → Sound (with_more s more) w }
    ensures single { (s : Setting X) (w : World X) (more : List Packet) (ev : Event) (to : Outcome)
        (freed : List Sent) (new : World X) → Sound s w → OnWithin s w ev to freed new
        → OnWithin (with_more s more) w (as_fed s w ev) to freed new }
    ensures longer { (s : Setting X) (w : World X) (more : List Packet) → IsPerformed s w
        → IsPerformed (with_more s more) w }
    ensures goes_on { (s : Setting X) (w : World X) (ev : Event) (to : Outcome) (freed : List Sent)
        (new : World X) → IsPerformed s w → OnAny s w ev to freed new → IsPerformed s new }
    ensures stopped { (s : Setting X) (w : World X) (ev : Event) (limit : Limit) (new : World X)
        → IsPerformed s w → Stops s w ev limit new → IsPerformed s new }
{}
