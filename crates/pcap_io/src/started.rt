use crate::{CaptureFault, Reader};

/// What reading the file header of a capture came to.
#[derive(Drop)]
pub enum Started {
    Reader(Reader),
    /// The header is short or faulty.
    Refused(CaptureFault),
    /// Reading failed.
    ReadFault,
    NoMemory,
}
