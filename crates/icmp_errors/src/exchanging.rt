ghost use Rattle.std.specs.Prelude.{◌≡◌, ◌+◌, ◌<◌, length};
ghost use Rattle.icmp_errors.specs.ErrorRewriting.{exchanged_word, exchanged_long};

use inet_checksum::adjust16;
use packet_headers::{put_word, word_at};

/// Writes another 16-bit number at a place, and adjusts the checksum at another place to it (RFC 1624, equation 3).
///
/// A checksum that was wrong stays wrong by the same amount.
pub fn exchange_word(frame: &mut [u8], checksum: usize, place: usize, word: u16)
    requires checksum_in { checksum + 1 < length frame.old }
    requires place_in { place + 1 < length frame.old }
    ensures { frame.new ≡ exchanged_word frame.old checksum place word }
{
    let adjusted = adjust16(word_at(frame, checksum), word_at(frame, place), word);
    put_word(frame, checksum, adjusted);
    put_word(frame, place, word);
}

/// The same for 32 bits: first the high half, then the low half.
pub fn exchange_long(frame: &mut [u8], checksum: usize, place: usize, number: u32)
    requires checksum_in { checksum + 1 < length frame.old }
    requires place_in { place + 3 < length frame.old }
    ensures { frame.new ≡ exchanged_long frame.old checksum place number }
{
    exchange_word(frame, checksum, place, (number / 0x1_0000) as u16);
    exchange_word(frame, checksum, place + 2, (number % 0x1_0000) as u16);
}
