use box_program::Program;
use live_workers::Draws;
use run_command::System;

/// A system, and the generators of its racing threads.
#[derive(Drop)]
pub struct Standing<P: Program> {
    pub system: System<P>,
    pub draws: Draws,
}
