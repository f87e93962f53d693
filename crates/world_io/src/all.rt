ghost use Rattle.world_io.specs.Stream.{GoesOn, HasFailed};
ghost use Rattle.world_io.specs.All.{WritesAll, WriteFailed};

use crate::{Put, Sink};

/// Why not all of some bytes were written.
#[derive(Clone, Copy, PartialEq, Eq)]
pub enum WriteError {
    /// Writing failed, and the sink's count of faults rose. This number of the first bytes was
    /// appended.
    Failed(usize),
    /// This number of the first bytes was appended.
    NoMemory(usize),
}

/// Appends all these bytes, or tells how many of them were appended.
pub fn write_all<K: Sink>(sink: &mut K, bytes: &[u8]) -> Result<(), WriteError>
    ensures writes { WritesAll K.writes result bytes.now sink.old sink.new }
    ensures goes_on { GoesOn K.faults K.healthy sink.old sink.new }
    ensures cause { WriteFailed result → HasFailed K.faults K.healthy sink.old sink.new }
{
    let mut done = 0;
    while done < bytes.len() {
        match sink.put(&bytes[done..]) {
            Put::Took(count) => done += count,
            Put::Failed => return Err(WriteError::Failed(done)),
            Put::NoMemory => return Err(WriteError::NoMemory(done)),
        }
    }
    Ok(())
}
