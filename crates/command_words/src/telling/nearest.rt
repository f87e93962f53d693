/// The longest word that is taken for a misspelt one, in bytes.
const LONGEST: usize = 10;

/// The first of these words that was meant where another stands: the two differ by case alone, or by one letter.
pub fn nearest(word: &[u8], known: &[&'static str]) -> Option<&'static str> {
    for other in known {
        if is_meant(word, other.as_bytes()) {
            return Some(*other);
        }
    }
    None
}

/// Whether a word was meant where another stands.
pub fn is_meant(word: &[u8], other: &[u8]) -> bool {
    word.eq_ignore_ascii_case(other) || is_near(word, other)
}

/// Whether one word becomes the other where one letter is left out, put in or changed, or two that stand next to each
/// other are exchanged.
fn is_near(one: &[u8], other: &[u8]) -> bool {
    if one.len() > LONGEST {
        return false;
    }
    let same = equal_front(one, other);
    let one = tail(one, same);
    let other = tail(other, same);
    tail(one, 1) == tail(other, 1)
        || tail(one, 1) == other
        || one == tail(other, 1)
        || is_exchange(one, other)
}

/// Whether the first two letters of one stand in the other the other way round, and those after them are the same.
fn is_exchange(one: &[u8], other: &[u8]) -> bool {
    match (one, other) {
        ([a, b, one @ ..], [c, d, other @ ..]) => a == d && b == c && one == other,
        _ => false,
    }
}

/// How many bytes are the same at the front of both.
pub fn equal_front(one: &[u8], other: &[u8]) -> usize {
    let shorter = one.len().min(other.len());
    for place in 0..shorter {
        if one[place] != other[place] {
            return place;
        }
    }
    shorter
}

/// What stands from this place on.
fn tail(word: &[u8], from: usize) -> &[u8] {
    word.get(from..).unwrap_or(&[])
}
