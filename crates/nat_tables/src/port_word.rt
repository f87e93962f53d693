ghost use Rattle.std.specs.Prelude.{◌≡◌, ℕ, ◌+◌, ◌-◌, ◌*◌, ◌%◌, ◌^◌, ◌<◌, ◌≤◌, set, get_or};
ghost use Rattle.std.specs.Prelude.{slice_index, true, false};
ghost use Rattle.std.specs.List.{remove};
ghost use Rattle.nat_tables.specs.Ports.{one_if, with_port};
ghost use Rattle.nat_tables.specs.Placing.{word_bits, word_ports, word_count, FallsIn};

/// Whether the bit is set.
fn has_bit(word: u64, bit: u32) -> bool
    requires { bit < 64 }
    ensures { result ≡ get_or (word_bits word) bit false }
{
    (word >> bit) & 1 == 1
}

/// The word with the bit set.
fn with_bit(word: u64, bit: u32) -> u64
    requires { bit < 64 }
    ensures { word_bits result ≡ set (word_bits word) bit true }
{
    word | (1 << bit)
}

/// The word with the bit clear.
fn without_bit(word: u64, bit: u32) -> u64
    requires { bit < 64 }
    ensures { word_bits result ≡ set (word_bits word) bit false }
{
    word & !(1 << bit)
}

/// The bit that is set behind this number of others that are.
fn find_bit(word: u64, at: u16) -> u32
    requires { at < word_count word }
    ensures { FallsIn one_if (word_bits word) at result 0 }
{
    let mut left = at;
    for bit in 0..64 {
        if has_bit(word, bit) {
            if left == 0 {
                return bit;
            }
            left -= 1;
        }
    }
    0
}

/// How many ports of the word are free.
pub(crate) fn count_in_word(word: u64) -> u16
    ensures { result ≡ word_count word }
{
    word.count_ones() as u16
}

/// Takes the port at the index out of a word, whose lowest bit stands for the port `first`.
pub(crate) fn take_from_word(word: &mut u64, first: u16, at: u16) -> u16
    requires within { at < word_count word.old }
    requires fits { first + 126 < 2 ^ 16 }
    ensures port { result ≡ slice_index (word_ports first word.old) at }
    ensures others { word_ports first word.new ≡ remove (word_ports first word.old) at }
    ensures count { word_count word.new + 1 ≡ word_count word.old }
{
    let bit = find_bit(*word, at);
    *word = without_bit(*word, bit);
    first + 2 * bit as u16
}

/// Puts a port into a word, whose lowest bit stands for the port `first`, and answers whether it was missing there.
pub(crate) fn put_into_word(word: &mut u64, first: u16, port: u16) -> bool
    requires low { first ≤ port }
    requires high { port < first + 128 }
    requires parity { (port - first) % 2 ≡ 0 }
    ensures ports { word_ports first word.new ≡ with_port port (word_ports first word.old) }
    ensures count { word_count word.new ≡ word_count word.old + one_if result }
{
    let bit = u32::from((port - first) / 2);
    let missing = !has_bit(*word, bit);
    *word = with_bit(*word, bit);
    missing
}
