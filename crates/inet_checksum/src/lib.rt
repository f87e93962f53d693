//! The Internet checksum: the one's complement sum of RFC 1071, and RFC 1624's way to bring a checksum up to date.
//!
//! No call takes memory or refuses.
#![tactic(auto)]

ghost use Rattle.std.specs.Prelude.{◌≡◌, ◌+◌, ◌%◌};
ghost use Rattle.inet_checksum.specs.OnesComplement.{words, ones_value, ones_sum, checksum_of};
ghost use Rattle.inet_checksum.specs.OnesComplement.{adjusted_16, adjusted_32};
ghost use Rattle.inet_checksum.specs.OnesComplement.{EqualsRecomputing_16, EqualsRecomputing_32};

/// The one's complement sum of the bytes' 16-bit big-endian words, a last odd byte being the high byte of its word
/// (RFC 1071, section 1). No bytes give 0.
pub fn sum(bytes: &[u8]) -> u16
    ensures { result ≡ ones_sum (words bytes.now) }
{
    let mut total = 0;
    let mut rest = bytes;
    while let [a, b, c, d, e, f, g, h, more @ ..] = rest {
        total = add_around(total, u64::from_be_bytes([*a, *b, *c, *d, *e, *f, *g, *h]));
        rest = more;
    }
    while let [high, low, more @ ..] = rest {
        total = add_around(total, u64::from(u16::from_be_bytes([*high, *low])));
        rest = more;
    }
    if let [high] = rest {
        total = add_around(total, u64::from(*high) << 8);
    }
    fold(total)
}

/// The checksum of the bytes: the complement of their sum.
pub fn checksum(bytes: &[u8]) -> u16
    ensures { result ≡ checksum_of (words bytes.now) }
{
    !sum(bytes)
}

/// The checksum of data of which one 16-bit word changed from `old` to `new`, where it was `checksum` before
/// (RFC 1624, equation 3).
///
/// A checksum that was wrong stays wrong by the same amount. One that was right becomes the one that would be
/// computed anew, unless it was 0xFFFF or the data are all zero after the change.
pub fn adjust16(checksum: u16, old: u16, new: u16) -> u16
    ensures value { result ≡ adjusted_16 checksum old new }
    ensures residue { (checksum + old) % 65535 ≡ (result + new) % 65535 }
    ensures recomputed { EqualsRecomputing_16 checksum old new result }
{
    !fold(u64::from(!checksum) + u64::from(!old) + u64::from(new))
}

/// The same for 32 bits that changed: `adjust16` on the high halves and then on the low halves.
pub fn adjust32(checksum: u16, old: u32, new: u32) -> u16
    ensures value { result ≡ adjusted_32 checksum old new }
    ensures residue { (checksum + old) % 65535 ≡ (result + new) % 65535 }
    ensures recomputed { EqualsRecomputing_32 checksum old new result }
{
    let high = adjust16(checksum, (old >> 16) as u16, (new >> 16) as u16);
    adjust16(high, (old & 0xffff) as u16, (new & 0xffff) as u16)
}

/// Adds with the carry out of the 64 bits added at the low end. Since 16 divides 64, the sum of words is the same as
/// with carries out of 16 bits (RFC 1071, section 2, "parallel summation").
fn add_around(total: u64, word: u64) -> u64
    ensures { ones_value result ≡ ones_value (total + word) }
{
    let (sum, carry) = total.overflowing_add(word);
    sum + u64::from(carry)
}

/// Adds the carries out of the low 16 bits to them until there are none.
fn fold(mut total: u64) -> u16
    ensures { result ≡ ones_value total }
{
    while total > 0xffff {
        total = (total >> 16) + (total & 0xffff);
    }
    total as u16
}
