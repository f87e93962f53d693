use plain_text::words;

/// The word at this place of a line, from 0.
pub fn word_at(line: &[u8], place: usize) -> Option<&[u8]> {
    let mut before = place;
    for word in words(line) {
        if before == 0 {
            return Some(word);
        }
        before -= 1;
    }
    None
}

/// The word at this place, or no bytes.
pub fn word_or_none(line: &[u8], place: usize) -> &[u8] {
    word_at(line, place).unwrap_or(&[])
}

/// The first word of a line, or no bytes.
pub fn first_word(line: &[u8]) -> &[u8] {
    word_or_none(line, 0)
}
