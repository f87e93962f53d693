ghost use Rattle.std.specs.Prelude.{◌≡◌, ◌≤◌, IfSome, MatchOption, None, Some};
ghost use Rattle.job_commands.specs.Words.{drill_names, drill_names_of};

use plain_text::{Text, read_u64};

/// What the words of the command `drill` ask for.
#[derive(Clone, Copy)]
pub struct DrillWords<'a> {
    /// The name of the text that chooses the box.
    pub box_file: &'a Text,
    /// The name of the capture whose packets come in.
    pub capture: &'a Text,
    /// How many packets come in before each crash, at least 1.
    pub every: u64,
    /// The name of the capture that is written. It differs from that of the schedule.
    pub released: &'a Text,
    /// The name of the text of moves that is written.
    pub schedule: &'a Text,
}

/// The files and the number of `drill BOX CAPTURE EVERY RELEASED SCHEDULE`. None where the words are anything else,
/// EVERY is no number or 0, or the two outputs are one word.
pub fn read_drill_words(words: &[Text]) -> Option<DrillWords<'_>>
    ensures names { MatchOption result (drill_names words.now ≡ None)
        (λ names. drill_names words.now ≡ Some (drill_names_of names)) }
    ensures some { IfSome result (λ names. 1 ≤ names.every) }
    ensures apart { IfSome result (λ names. names.released.now ≡ names.schedule.now → ⊥) }
{
    if words.len() != 6 || words[0].as_str() != "drill" || words[4].as_str() == words[5].as_str() {
        return None;
    }
    let every = read_u64(words[3].as_str().as_bytes())?;
    if every == 0 {
        return None;
    }
    Some(DrillWords {
        box_file: &words[1],
        capture: &words[2],
        every,
        released: &words[4],
        schedule: &words[5],
    })
}
