use plain_text::{Bytes, NoMemory};
use std::alloc::Global;

fn extend(bytes: &mut Bytes, parts: &[&[u8]]) -> Result<(), NoMemory> {
    for part in parts {
        bytes.extend(part)?;
    }
    Ok(())
}

/// The parts, one behind the other.
pub fn joined(alloc: Global, parts: &[&[u8]]) -> Result<Bytes, NoMemory> {
    let mut bytes = Bytes::new(alloc);
    extend(&mut bytes, parts)?;
    Ok(bytes)
}
