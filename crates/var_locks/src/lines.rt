//! Where the words of a round stand.
ghost use Rattle.std.specs.Prelude.{◌≡◌, ◌<◌, ◌^◌, ◌++◌, OnOk};
ghost use Rattle.var_locks.specs.Words as words;
ghost use Rattle.var_locks.specs.Words.{line_of};

use plain_text::NoMemory;

/// So many words belong to each that is used, and fill a cache line of 64 bytes: threads that use different words don't
/// take a line from each other.
const WORDS_OF_ONE: usize = 8;

/// The index of the word of a variable.
pub(crate) fn var_word(var: u32) -> usize
    ensures { result ≡ words.var_word var }
{
    WORDS_OF_ONE * var as usize
}

/// The index of the word of a thread, where there are so many variables.
pub(crate) fn thread_word(vars: usize, thread: u32) -> usize
    requires { vars < 2 ^ 60 }
    ensures { result ≡ words.thread_word vars thread }
{
    WORDS_OF_ONE * (vars + thread as usize)
}

/// Adds a word that is used, with those that belong to it.
pub(crate) fn push_line(words: &mut Vec<u64>, word: u64) -> Result<(), NoMemory>
    ensures { OnOk result (words.new.items ≡ words.old.items ++ line_of word) }
{
    let mut line = [0; WORDS_OF_ONE];
    line[0] = word;
    words.extend_from_slice(&line)?;
    Ok(())
}
