use plain_text::NoMemory;
use std::alloc::Global;
use std::env::FillError;
use std::rt::Env;
use std::{io, str};

/// How many bytes an argument may have on Linux, with the one that ends it: 32 pages of 4,096.
const LONGEST: usize = 131_072;

/// The place of the first argument that is not UTF-8 text, from 1 for the one after the program's name; none where all
/// are.
fn unreadable_place<R: Env>(rt: &R, alloc: Global) -> Result<Option<usize>, NoMemory> {
    let mut bytes = vec![in alloc; 0u8; LONGEST]?;
    for place in 1..usize::MAX {
        match rt.arg(place, &mut bytes) {
            Ok(length) if str::from_utf8(&bytes[..length]).is_err() => return Ok(Some(place)),
            Ok(_) | Err(FillError::TooLong) => {}
            Err(FillError::NotPresent) => break,
        }
    }
    Ok(None)
}

/// Tells on standard error which argument is not UTF-8 text, by its place, since it can't be printed as it is.
pub fn tell_unreadable<R: Env + AllocGlobal + Eprint>(rt: &R) -> io::Result<()> {
    match unreadable_place(rt, rt.alloc()) {
        Ok(Some(place)) => eprintln!(rt; "argument {place} is not UTF-8 text"),
        Ok(None) | Err(NoMemory) => Ok(()),
    }
}
