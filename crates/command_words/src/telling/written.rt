use super::advice::{Advice, tell, tell_error};
use super::shown::Shown;
use crate::word_places::read_places;
use plain_text::Text;
use std::fs::{self, Metadata, OpenOptions};
use std::io::{self, ErrorKind};
use std::os::unix::fs::{FileTypeExt, MetadataExt};
use std::path::Path;
use std::rt::Files;

/// The number of the device that is always full, `/dev/full`: major 1, minor 7 (Linux, admin-guide/devices).
const FULL_DEVICE: u64 = 0x107;

/// The errors of a folder that may not be written, and of a device without room (errno(3), on Linux).
const PERMISSION_DENIED: i32 = 13;

const NO_SPACE: i32 = 28;

/// What is told of an output that was not created, where nothing tells why.
const NOT_CREATED: &str = ": it was not created: its folder takes no file, or a disk is full";

/// What is told of a first output that is there, and has nothing.
const EMPTY: &str = ": nothing was written to it: its disk may be full";

/// What is told where no output is at fault by its name.
const DISK: &str = "no output is at fault by its name: a disk may be full";

/// The same where standard output is a pipe, or can't be told: an output may be that pipe. (That nobody reads the
/// report is no fault.)
const DISK_OR_READER: &str =
    "no output is at fault by its name: a disk is full, or nobody reads an output";

/// What is in the way of an output.
#[derive(Drop)]
enum Obstacle {
    /// What is told of it.
    Told(&'static str),
    /// What the system says of the name.
    Error(io::Error),
}

/// Tells which of the outputs can't be written, and what the system says of it, as far as the names tell it now.
/// Nothing is created and nothing is changed.
pub fn tell_unwritten<R: AllocGlobal + Files + Eprint>(rt: &R, words: &[Text]) -> io::Result<()> {
    let places = read_places(words);
    for place in 0..words.len() {
        if !places.is_written(place) {
            continue;
        }
        let name = words[place].as_str();
        if let Some(obstacle) = find_obstacle(rt, name, place == places.outputs_from) {
            return tell_obstacle(rt, Shown::name(name), obstacle);
        }
    }
    tell_report(rt)
}

fn tell_obstacle<R: Eprint>(rt: &R, name: Shown<'_>, obstacle: Obstacle) -> io::Result<()> {
    match obstacle {
        Obstacle::Told(text) => tell(rt, Some(Advice::Name(name, text))),
        Obstacle::Error(error) => tell_error(rt, name, &error),
    }
}

/// What is in the way of writing to this name; `first` says that it is the first output, to which something is written
/// before any other is created.
fn find_obstacle<R: Files>(rt: &R, name: &str, first: bool) -> Option<Obstacle> {
    match Path::new(name).metadata(rt) {
        Ok(about) => obstacle_there(rt, name, &about, first),
        Err(error) => {
            if error.kind() == ErrorKind::NotFound && !name.is_empty() {
                Some(obstacle_to_creating(rt, name))
            } else {
                Some(Obstacle::Error(error))
            }
        }
    }
}

/// The same of a name under which something is there. No stream is opened.
fn obstacle_there<R: Files>(rt: &R, name: &str, about: &Metadata, first: bool) -> Option<Obstacle> {
    if about.is_dir() {
        return Some(Obstacle::Told(": it is a folder"));
    }
    if is_full(about) {
        return Some(Obstacle::Error(io::Error::from_raw_os_error(NO_SPACE)));
    }
    if !about.is_file() {
        return None;
    }
    let mut how = OpenOptions::new();
    how.write(true);
    match how.open(rt, name) {
        Err(error) => Some(Obstacle::Error(error)),
        Ok(_) if first && about.len() == 0 => Some(Obstacle::Told(EMPTY)),
        Ok(_) => None,
    }
}

/// Whether it is the device that is always full.
fn is_full(about: &Metadata) -> bool {
    about.file_type().is_char_device() && about.rdev() == FULL_DEVICE
}

/// The same of a name under which nothing is there.
fn obstacle_to_creating<R: Files>(rt: &R, name: &str) -> Obstacle {
    let path = Path::new(name);
    let folder = match path.parent() {
        Some(folder) if !folder.as_str().is_empty() => folder,
        _ => Path::new("."),
    };
    match folder.metadata(rt) {
        Err(error) => Obstacle::Error(error),
        Ok(about) => {
            if is_closed_to_us(rt, &about) {
                Obstacle::Error(io::Error::from_raw_os_error(PERMISSION_DENIED))
            } else {
                obstacle_of_disk(rt, name)
            }
        }
    }
}

/// Whether a file system is to be read alone tells a renaming to the same name, which does nothing else (rename(2)).
fn obstacle_of_disk<R: Files>(rt: &R, name: &str) -> Obstacle {
    match fs::rename(rt, name, name) {
        Err(error) if error.kind() == ErrorKind::ReadOnlyFilesystem => Obstacle::Error(error),
        _ => Obstacle::Told(NOT_CREATED),
    }
}

/// Whether this process may not write to a folder, by what its permissions say. Whose process it is, the owner of its
/// folder under `/proc` tells (proc(5)).
fn is_closed_to_us<R: Files>(rt: &R, folder: &Metadata) -> bool {
    match Path::new("/proc/self").metadata(rt) {
        Ok(own) => {
            let owns = own.uid() == folder.uid();
            let shares = own.gid() == folder.gid();
            own.uid() != 0 && is_closed(folder.mode(), owns, shares)
        }
        Err(_) => false,
    }
}

/// Whether a folder of these permissions takes no new file: from its owner, from one of its group, or from others, who
/// may be in its group all the same.
fn is_closed(mode: u32, owns: bool, shares: bool) -> bool {
    let bits = if owns {
        0o200
    } else if shares {
        0o020
    } else {
        0o022
    };
    mode & bits == 0
}

/// Tells what is left where no output is at fault by its name: standard output, or a disk.
fn tell_report<R: Files + Eprint>(rt: &R) -> io::Result<()> {
    if let Ok(about) = Path::new("/dev/stdout").metadata(rt) {
        if is_full(&about) {
            let error = io::Error::from_raw_os_error(NO_SPACE);
            return tell_error(rt, Shown::name("standard output"), &error);
        }
        if !about.file_type().is_fifo() && !about.file_type().is_socket() {
            return tell(rt, Some(Advice::Text(DISK)));
        }
    }
    tell(rt, Some(Advice::Text(DISK_OR_READER)))
}
