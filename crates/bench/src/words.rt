use anyhow::Context;
use std::alloc::{AllocError, Global};
use std::env::Args;

/// The words of a text, as if the program was called with them.
pub fn words_of(alloc: Global, text: &str) -> Result<Args, AllocError> {
    let mut words = Vec::new(alloc);
    for word in text.split_whitespace() {
        words.push(String::from_str(alloc, word)?)?;
    }
    Ok(words.into_iter())
}

/// The next word, which is a number below 2^32: so many entries have stamps. Where there is none, the error is this
/// question.
pub fn next_count(words: &mut Args, question: &'static str) -> anyhow::Result<u32> {
    Ok(words.next().context(question)?.parse()?)
}

/// The next word, which is a number. Where there is none, the error is this question.
pub fn next_number(words: &mut Args, question: &'static str) -> anyhow::Result<u64> {
    Ok(words.next().context(question)?.parse()?)
}
