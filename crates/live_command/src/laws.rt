//! The law of the scripts that are written. It is proved, and does nothing: a caller has it by the call.
ghost use Rattle.live_command.specs.Telling.{LiveScriptsAreScripts};

use world_io::Clock;

/// What racing threads made of a plan, by a clock, is a script of it. So it is performed, event by event, and all that
/// is proved of scripts is true of it.
pub fn live_scripts_are_scripts<X, C: Clock>(clock: &C)
    ensures scripts { LiveScriptsAreScripts X (C.may clock.now) }
{}
