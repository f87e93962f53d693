ghost use Rattle.std.specs.Prelude.{◌≡◌, IfSome, MatchOption, None, Some, true};
ghost use Rattle.job_commands.specs.ChainWords.{all_apart, chain_names, chain_names_of};

use plain_text::Text;

/// The files that the words of the command `chain` name. The four outputs differ.
#[derive(Clone, Copy)]
pub struct ChainWords<'a> {
    /// The name of the text that chooses the first box.
    pub first_box: &'a Text,
    /// The name of the text that chooses the second box.
    pub second_box: &'a Text,
    /// The name of the capture whose packets come in to the first.
    pub capture: &'a Text,
    /// The name of the text of the events of both.
    pub script: &'a Text,
    /// The name of the capture of what the first releases, which is written.
    pub middle: &'a Text,
    /// The name of the capture of what the second releases, which is written.
    pub released: &'a Text,
    /// The name of the text of moves of the first that is written.
    pub first_schedule: &'a Text,
    /// The name of the text of moves of the second that is written.
    pub second_schedule: &'a Text,
}

/// Whether no two of the four outputs are one word.
fn are_apart(names: ChainWords<'_>) -> bool
    ensures { result ≡ all_apart (chain_names_of names.entry) }
{
    let middle = names.middle.as_str();
    let released = names.released.as_str();
    let first = names.first_schedule.as_str();
    let second = names.second_schedule.as_str();
    middle != released
        && middle != first
        && middle != second
        && released != first
        && released != second
        && first != second
}

/// The files of `chain BOX1 BOX2 CAPTURE SCRIPT MIDDLE RELEASED SCHEDULE1 SCHEDULE2`. None where the words are anything
/// else, or two of the four outputs are one word.
pub fn read_chain_words(words: &[Text]) -> Option<ChainWords<'_>>
    ensures names { MatchOption result (chain_names words.now ≡ None)
        (λ names. chain_names words.now ≡ Some (chain_names_of names)) }
    ensures apart { IfSome result (λ names. all_apart (chain_names_of names) ≡ true) }
{
    if words.len() != 9 || words[0].as_str() != "chain" {
        return None;
    }
    let names = ChainWords {
        first_box: &words[1],
        second_box: &words[2],
        capture: &words[3],
        script: &words[4],
        middle: &words[5],
        released: &words[6],
        first_schedule: &words[7],
        second_schedule: &words[8],
    };
    if are_apart(names) { Some(names) } else { None }
}
