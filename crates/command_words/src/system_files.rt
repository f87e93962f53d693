use crate::named_file::{NamedFile, Names, Node};
use plain_text::Text;
use std::fs::{self, Metadata};
use std::os::unix::fs::{FileTypeExt, MetadataExt};
use std::path::{Path, PathBuf};
use std::rt::Files;

/// The number of the device that keeps nothing, `/dev/null`: major 1, minor 3 (Linux, admin-guide/devices).
const NULL_DEVICE: u64 = 0x103;

/// The majors of terminals: virtual consoles and serial lines, `/dev/tty` and consoles, and the first and last of
/// pseudo-terminals (Linux, admin-guide/devices).
const TERMINALS: [u64; 4] = [4, 5, 136, 143];

/// How many links are followed one after another. Linux follows no more (path_resolution(7)).
const MOST_LINKS: u32 = 40;

/// The files of the system. What it tells of them is trusted: no clause says that it is so.
///
/// A link whose file is yet to be is followed to where that file will be. Where memory runs out, less is told.
impl<R: AllocGlobal + Files> Names for R {
    ghost use Rattle.std.specs.Prelude.{⊤};

    ghost may = { λ _ _ _. ⊤ };

    fn tell_file(&self, name: &str) -> NamedFile {
        let path = real_path(self, name);
        match Path::new(name).metadata(self) {
            Ok(about) => NamedFile {
                node: Some(Node {
                    device: about.dev(),
                    number: about.ino(),
                }),
                path,
                keeps_nothing: keeps_nothing(&about),
            },
            Err(_) => NamedFile {
                node: None,
                path,
                keeps_nothing: false,
            },
        }
    }
}

fn keeps_nothing(about: &Metadata) -> bool {
    let device = about.rdev();
    about.file_type().is_char_device() && (device == NULL_DEVICE || is_terminal(device))
}

/// Whether the number of a device is that of a terminal, by its major: twelve bits from bit 8 on.
fn is_terminal(device: u64) -> bool {
    let major = (device >> 8) & 0xfff;
    let [console, controlling, first, last] = TERMINALS;
    major == console || major == controlling || (first <= major && major <= last)
}

/// The path of a file with no link in it: of one that is there; or of one that is to be, in a folder that is there.
fn real_path<R: AllocGlobal + Files>(rt: &R, name: &str) -> Option<Text> {
    let mut path = PathBuf::from_str(rt.alloc(), name).ok()?;
    for _ in 0..MOST_LINKS {
        if let Ok(real) = fs::canonicalize(rt, path.as_path()) {
            return Text::of(rt.alloc(), real.as_path().as_str()).ok();
        }
        let Ok(target) = fs::read_link(rt, path.as_path()) else {
            return path_to_be(rt, path.as_path());
        };
        let _ = path.pop();
        path.push(target.as_path()).ok()?;
    }
    None
}

/// The path of a file that is to be.
fn path_to_be<R: AllocGlobal + Files>(rt: &R, path: Path<'_>) -> Option<Text> {
    let folder = match path.parent() {
        Some(folder) if !folder.as_str().is_empty() => folder,
        _ => Path::new("."),
    };
    let mut real = fs::canonicalize(rt, folder).ok()?;
    real.push(path.file_name()?).ok()?;
    Text::of(rt.alloc(), real.as_path().as_str()).ok()
}
