ghost use Rattle.std.specs.Prelude.{◌≡◌, IfSome, MatchOption, None, Some};
ghost use Rattle.job_commands.specs.HandWords.{resume_names, resume_names_of};

use plain_text::Text;

/// The files that the words of the command `resume` name. The two outputs differ.
#[derive(Clone, Copy)]
pub struct ResumeWords<'a> {
    /// The name of the text that chooses the box.
    pub box_file: &'a Text,
    /// The name of the capture whose packets come in.
    pub capture: &'a Text,
    /// The name of the text of the handover.
    pub handover: &'a Text,
    /// The name of the text of the events.
    pub script: &'a Text,
    /// The name of the capture that is written.
    pub released: &'a Text,
    /// The name of the text of moves that is written.
    pub schedule: &'a Text,
}

/// The files of `resume BOX CAPTURE HANDOVER SCRIPT RELEASED SCHEDULE`. None where the words are anything else, or the
/// two outputs are one word.
pub fn read_resume_words(words: &[Text]) -> Option<ResumeWords<'_>>
    ensures names { MatchOption result (resume_names words.now ≡ None)
        (λ names. resume_names words.now ≡ Some (resume_names_of names)) }
    ensures apart { IfSome result (λ names. names.released.now ≡ names.schedule.now → ⊥) }
{
    if words.len() != 7 || words[0].as_str() != "resume" || words[5].as_str() == words[6].as_str() {
        return None;
    }
    Some(ResumeWords {
        box_file: &words[1],
        capture: &words[2],
        handover: &words[3],
        script: &words[4],
        released: &words[5],
        schedule: &words[6],
    })
}
