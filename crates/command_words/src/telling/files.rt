use plain_text::{MOST_FILE_BYTES, Text};
use std::alloc::Global;
use std::path::Path;
use std::rt::Files;
use std::{fs, io};

/// The bytes of a file that is no stream and no larger than an input may be. What a stream gave is
/// gone, so it is not read again.
pub fn read_again<R: AllocGlobal + Files>(rt: &R, name: &Text) -> Option<Vec<u8>> {
    let path = Path::new(name.as_str());
    let about = path.metadata(rt).ok()?;
    if !about.is_file() || about.len() > MOST_FILE_BYTES {
        return None;
    }
    fs::read(rt, path).ok()
}

/// What is told of a handover without a seal.
pub fn unsealed(text: &[u8]) -> Option<&'static str> {
    if text.starts_with(b"handover 2 ") {
        None
    } else {
        Some(": warning: no seal says that it is of this box and this capture")
    }
}

/// What the system says where a file, which is no stream, is opened to be read.
pub fn reading_error<R: Files>(rt: &R, name: &str) -> Option<io::Error> {
    fs::open(rt, name).err()
}
