ghost use Rattle.std.specs.Prelude.{◌↔◌, ◌≤◌, ◌<◌, IsTrue};

use std::{fmt, str};

/// Bytes as a message shows them: a text as it stands, but its control characters as numbers, and so each byte that is
/// no printable ASCII where they are no text. So no file and no name can drive a terminal. No bytes are shown as two
/// quotes.
#[derive(Clone, Copy)]
pub struct Shown<'a> {
    bytes: &'a [u8],
}

impl<'a> Shown<'a> {
    pub fn of(bytes: &'a [u8]) -> Shown<'a> {
        Shown { bytes }
    }

    /// A name as it was typed.
    pub fn name(name: &'a str) -> Shown<'a> {
        Shown::of(name.as_bytes())
    }
}

impl<'a> fmt::Display for Shown<'a> {
    fn fmt<W: fmt::Write>(&self, f: &mut fmt::Formatter<W>) -> fmt::Result {
        if self.bytes.is_empty() {
            return f.write_str("\"\"");
        }
        match str::from_utf8(self.bytes) {
            Ok(text) => show_text(f, text),
            Err(_) => show_bytes(f, self.bytes),
        }
    }
}

fn show_text<W: fmt::Write>(f: &mut fmt::Formatter<W>, text: &str) -> fmt::Result {
    for letter in text.chars() {
        if letter.is_control() {
            let number = u32::from(letter);
            write!(f, "\\x{number:02x}")?;
        } else {
            f.write_char(letter)?;
        }
    }
    Ok(())
}

fn show_bytes<W: fmt::Write>(f: &mut fmt::Formatter<W>, bytes: &[u8]) -> fmt::Result {
    for byte in bytes {
        let number = *byte;
        if is_printable(number) {
            f.write_char(char::from(number))?;
        } else {
            write!(f, "\\x{number:02x}")?;
        }
    }
    Ok(())
}

/// Whether a byte is a printable character of ASCII.
fn is_printable(byte: u8) -> bool
    ensures { IsTrue result ↔ ((32 ≤ byte) × (byte < 127)) }
{
    32 <= byte && byte < 127
}
