ghost use Rattle.std.specs.Prelude.{◌≡◌, IfSome, MatchOption, None, Some};
ghost use Rattle.job_commands.specs.HandWords.{hand_names, hand_names_of};

use plain_text::Text;

/// The files that the words of the command `hand` name. The two outputs differ.
#[derive(Clone, Copy)]
pub struct HandWords<'a> {
    /// The name of the text that chooses the box.
    pub box_file: &'a Text,
    /// The name of the capture whose packets come in.
    pub capture: &'a Text,
    /// The name of the text of the events.
    pub script: &'a Text,
    /// The name of the capture that is written.
    pub released: &'a Text,
    /// The name of the text of the handover that is written.
    pub handover: &'a Text,
}

/// The files of `hand BOX CAPTURE SCRIPT RELEASED HANDOVER`. None where the words are anything else, or the two outputs
/// are one word.
pub fn read_hand_words(words: &[Text]) -> Option<HandWords<'_>>
    ensures names { MatchOption result (hand_names words.now ≡ None)
        (λ names. hand_names words.now ≡ Some (hand_names_of names)) }
    ensures apart { IfSome result (λ names. names.released.now ≡ names.handover.now → ⊥) }
{
    if words.len() != 6 || words[0].as_str() != "hand" || words[4].as_str() == words[5].as_str() {
        return None;
    }
    Some(HandWords {
        box_file: &words[1],
        capture: &words[2],
        script: &words[3],
        released: &words[4],
        handover: &words[5],
    })
}
