ghost use Rattle.std.specs.Prelude.{◌≡◌, ◌++◌, ◌∷◌, ℕ, List, Some, IfOk, OnOk};
ghost use Rattle.drill_report.specs.Report.{digit_with, drop_lines, drop_words, drops_of};
ghost use Rattle.drill_report.specs.Report.{reason_word as word_of};

use plain_text::{Bytes, NoMemory};
use recovery_world::Outcome;

/// Appends the word for a reason of drops, by its digit; that of reason 10 is `:`, the byte behind `9`. Another digit
/// is appended as it is.
pub fn put_reason(out: &mut Bytes, digit: u8) -> Result<(), NoMemory>
    ensures { OnOk result (out.new ≡ out.old ++ word_of digit) }
{
    match digit {
        b'1' => out.extend(b"short"),
        b'2' => out.extend(b"not IPv4"),
        b'3' => out.extend(b"bad header length"),
        b'4' => out.extend(b"fragment"),
        b'5' => out.extend(b"other protocol"),
        b'6' => out.extend(b"bad total length"),
        b'7' => out.extend(b"no mapping"),
        b'8' => out.extend(b"no free port"),
        b'9' => out.extend(b"stray"),
        b':' => out.extend(b"over limit"),
        _ => out.push(digit),
    }
}

/// The digit of a reason with one more byte, by that of the bytes before it.
fn digit_with(digit: u8, byte: u8) -> u8
    ensures { result ≡ digit_with digit byte }
{
    if digit == b'1' && byte == b'0' {
        b':'
    } else {
        byte
    }
}

/// Appends what one byte of the text of a table says. The reason that it stands in, before the colon, has this digit so
/// far; tells the same of the next byte.
fn put_byte(out: &mut Bytes, reason: Option<u8>, byte: u8) -> Result<Option<u8>, NoMemory>
    ensures { IfOk result (λ next. (text : List ℕ)
        → out.new ++ drop_words next text ≡ out.old ++ drop_words reason (byte ∷ text)) }
{
    match reason {
        Some(digit) => {
            if byte != b':' {
                return Ok(Some(digit_with(digit, byte)));
            }
            out.extend(b"dropped ")?;
            put_reason(out, digit)?;
            out.push(b' ')?;
        }
        None => {
            if byte == b' ' {
                out.push(b'\n')?;
                return Ok(Some(b'0'));
            }
            out.push(byte)?;
        }
    }
    Ok(None)
}

/// Appends a line for each reason of the text of a table of drops, such as `7:1 10:2`.
fn put_words(out: &mut Bytes, text: &[u8]) -> Result<(), NoMemory>
    ensures { OnOk result (out.new ≡ out.old ++ drop_words (Some 48) text.now) }
{
    let mut reason = Some(b'0');
    for byte in text {
        reason = put_byte(out, reason, *byte)?;
    }
    if reason.is_none() {
        out.push(b'\n')?;
    }
    Ok(())
}

/// Appends the lines of a table of drops, of which this is the text.
fn put_lines(out: &mut Bytes, text: &[u8]) -> Result<(), NoMemory>
    ensures { OnOk result (out.new ≡ out.old ++ drop_lines text.now) }
{
    if text.is_empty() || text[0] == b'-' {
        return Ok(());
    }
    put_words(out, text)
}

/// Appends the lines of the drops of a box, where it has a table of them, by what showing it came to.
pub fn put_drops(out: &mut Bytes, table: bool, shown: &Outcome) -> Result<(), NoMemory>
    ensures { OnOk result (out.new ≡ out.old ++ drops_of table shown.now) }
{
    match shown {
        Outcome::Shown(text) if table => put_lines(out, text.as_str().as_bytes()),
        _ => Ok(()),
    }
}
