use plain_text::Packet;

/// A packet that a thread sent out.
#[derive(Debug, Drop)]
pub struct Emission {
    /// The thread that sent it out.
    pub thread: u32,
    /// Its number among those of the thread, from 1.
    pub number: u64,
    /// The number of the thread's input that it came from, from 1.
    pub input: u64,
    /// The program's bytes, with the times and the original length of the input.
    pub packet: Packet,
}
