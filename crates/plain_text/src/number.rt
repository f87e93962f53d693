ghost use Rattle.std.specs.Prelude.{◌≡◌, ◌++◌, ◌+◌, ◌*◌, ℕ, suc, decimal, position, if◌then◌else◌};
ghost use Rattle.std.specs.Prelude.{Some, None, IfSome, IsNone, OnOk, OnErr};
ghost use Rattle.std.specs.List.{slice_split};
ghost use Rattle.std.specs.Str.Parse.{digits_value};
ghost use Rattle.std.specs.String.{string_bytes};
ghost use Rattle.plain_text.specs.Lines.{address_of, is_dot as is_dot_byte, is_octet, number_of};
ghost use Rattle.plain_text.specs.Lines.{with_octets};

use crate::{Bytes, NoMemory};
use itoa::Buffer;

/// Appends the decimal digits of a number, with no leading zero.
pub fn put_u64(out: &mut Bytes, number: u64) -> Result<(), NoMemory>
    ensures ok { OnOk result (out.new ≡ out.old ++ decimal number) }
    ensures err { OnErr result (out.new ≡ out.old) }
{
    out.extend(Buffer::new().format(number).as_bytes())
}

/// The same at the end of a string.
pub fn put_decimal(text: &mut String, number: u64) -> Result<(), NoMemory>
    ensures ok { OnOk result (string_bytes text.new ≡ string_bytes text.old ++ decimal number) }
    ensures err { OnErr result (string_bytes text.new ≡ string_bytes text.old) }
{
    text.push_str(Buffer::new().format(number))?;
    Ok(())
}

/// The most digits of a number in a text file.
const MOST_DIGITS: usize = 20;

/// The number that a word writes: 1 to 20 decimal digits with a value below 2^64, leading zeros accepted. None where
/// the word is anything else.
pub fn read_u64(word: &[u8]) -> Option<u64>
    ensures { result ≡ number_of word.now }
{
    if word.is_empty() || word.len() > MOST_DIGITS {
        return None;
    }
    let mut number: u64 = 0;
    for byte in word {
        if !byte.is_ascii_digit() {
            return None;
        }
        number = number.checked_mul(10)?.checked_add(u64::from(byte - b'0'))?;
    }
    Some(number)
}

/// The address that a word writes: four numbers of 0 to 255 joined by dots, of which the first is the highest octet.
/// None where the word is anything else.
pub fn read_address(word: &[u8]) -> Option<u32>
    ensures { result ≡ address_of word.now }
{
    let (first, rest) = cut_octet(word)?;
    let (second, rest) = cut_octet(rest)?;
    let (third, rest) = cut_octet(rest)?;
    let fourth = read_octet(rest)?;
    let high = u32::from(first) * 256 + u32::from(second);
    Some((high * 256 + u32::from(third)) * 256 + u32::from(fourth))
}

/// The octet before the first dot of a word, and what follows that dot.
fn cut_octet(word: &[u8]) -> Option<(u8, &[u8])>
    ensures some { IfSome result (λ cut. (count value : ℕ)
        → with_octets (suc count) value (slice_split is_dot_byte word.now)
        ≡ with_octets count (value * 256 + cut.0) (slice_split is_dot_byte cut.1.now)) }
    ensures none { IsNone result → (count value : ℕ)
        → with_octets (suc (suc count)) value (slice_split is_dot_byte word.now) ≡ None }
{
    let dot = dot_in(word)?;
    let octet = read_octet(&word[..dot])?;
    Some((octet, &word[dot + 1..]))
}

/// Where the first dot is.
fn dot_in(word: &[u8]) -> Option<usize>
    ensures { result ≡ position is_dot_byte word.now }
{
    word.iter().position(|byte| *byte == b'.')
}

/// The number of 0 to 255 that a word writes.
fn read_octet(word: &[u8]) -> Option<u8>
    ensures { result ≡ (if is_octet word.now then Some (digits_value 10 word.now) else None) }
{
    u8::try_from(read_u64(word)?).ok()
}
