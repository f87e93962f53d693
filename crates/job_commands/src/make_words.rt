ghost use Rattle.std.specs.Prelude.{◌≡◌, ◌≤◌, IfSome, MatchOption, None, Some};
ghost use Rattle.plain_text.specs.declared.limit.TheConstants.{MOST_PACKETS};
ghost use Rattle.job_commands.specs.Words.{make_names, made_of};

use plain_text::{MOST_PACKETS, Text, read_u64};

/// What the words of the command `make` ask for.
#[derive(Clone, Copy)]
pub struct MakeWords<'a> {
    /// The seed of the generator.
    pub seed: u64,
    /// How many packets, at most 65,536.
    pub count: u64,
    /// The name of the capture that is written.
    pub capture: &'a Text,
}

/// The numbers and the name of `make SEED N CAPTURE`. None where the words are anything else, SEED or N is no number,
/// or N is above 65,536.
pub fn read_make_words(words: &[Text]) -> Option<MakeWords<'_>>
    ensures names { MatchOption result (make_names words.now ≡ None)
        (λ names. make_names words.now ≡ Some (made_of names)) }
    ensures few { IfSome result (λ names. names.count ≤ MOST_PACKETS) }
{
    if words.len() != 4 || words[0].as_str() != "make" {
        return None;
    }
    let seed = read_u64(words[1].as_str().as_bytes())?;
    let count = read_u64(words[2].as_str().as_bytes())?;
    if count > u64::from(MOST_PACKETS) {
        return None;
    }
    Some(MakeWords {
        seed,
        count,
        capture: &words[3],
    })
}
