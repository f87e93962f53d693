ghost use Rattle.std.specs.Prelude.{◌≡◌, IfSome, MatchOption, None, Some};
ghost use Rattle.job_commands.specs.Words.{run_names, names_of};

use plain_text::Text;

/// The files that the words of the command `run` name.
#[derive(Clone, Copy)]
pub struct RunWords<'a> {
    /// The name of the text that chooses the box.
    pub box_file: &'a Text,
    /// The name of the capture whose packets come in.
    pub capture: &'a Text,
    /// The name of the text of the events.
    pub script: &'a Text,
    /// The name of the capture that is written. It differs from that of the schedule.
    pub released: &'a Text,
    /// The name of the text of moves that is written.
    pub schedule: &'a Text,
}

/// The files of `run BOX CAPTURE SCRIPT RELEASED SCHEDULE`. None where the words are anything else, or the two outputs
/// are one word.
pub fn read_run_words(words: &[Text]) -> Option<RunWords<'_>>
    ensures names { MatchOption result (run_names words.now ≡ None)
        (λ names. run_names words.now ≡ Some (names_of names)) }
    ensures apart { IfSome result (λ names. names.released.now ≡ names.schedule.now → ⊥) }
{
    if words.len() != 6 || words[0].as_str() != "run" || words[4].as_str() == words[5].as_str() {
        return None;
    }
    Some(RunWords {
        box_file: &words[1],
        capture: &words[2],
        script: &words[3],
        released: &words[4],
        schedule: &words[5],
    })
}
