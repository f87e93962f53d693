use plain_machine::Schedule;
use plain_text::{Packets, Unit};

/// What is played: a schedule, on the packets of a capture, by 1 to 16 threads.
#[derive(Drop)]
pub struct ScheduleRun {
    /// The number of threads, 1 to 16.
    pub threads: u32,
    /// Whether one tag is looked through.
    pub tags: bool,
    /// What the fractions of the packets count.
    pub unit: Unit,
    /// The packets of the capture, in its order, at most 65,536.
    pub packets: Packets,
    /// The moves, in order, at most 4,000,000.
    pub schedule: Schedule,
}
