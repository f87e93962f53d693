ghost use Rattle.std.specs.Prelude.{◌≡◌, IfSome, MatchOption, None, Some};
ghost use Rattle.job_commands.specs.Words.{live_names, live_names_of};

use plain_text::Text;

/// The files that the words of the command `live` name. The three outputs differ.
#[derive(Clone, Copy)]
pub struct LiveWords<'a> {
    /// The name of the text that chooses the box.
    pub box_file: &'a Text,
    /// The name of the capture whose packets come in.
    pub capture: &'a Text,
    /// The name of the text of the plan.
    pub plan: &'a Text,
    /// The name of the capture that is written.
    pub released: &'a Text,
    /// The name of the text of moves that is written.
    pub schedule: &'a Text,
    /// The name of the text of events that is written.
    pub script: &'a Text,
}

/// The files of `live BOX CAPTURE PLAN RELEASED SCHEDULE SCRIPT`. None where the words are anything else, or two of the
/// three outputs are one word.
pub fn read_live_words(words: &[Text]) -> Option<LiveWords<'_>>
    ensures names { MatchOption result (live_names words.now ≡ None)
        (λ names. live_names words.now ≡ Some (live_names_of names)) }
    ensures released_apart { IfSome result (λ names. names.released.now ≡ names.schedule.now → ⊥) }
    ensures script_apart { IfSome result (λ names. names.released.now ≡ names.script.now → ⊥) }
    ensures schedule_apart { IfSome result (λ names. names.schedule.now ≡ names.script.now → ⊥) }
{
    if words.len() != 7 || words[0].as_str() != "live" {
        return None;
    }
    let released = words[4].as_str();
    let schedule = words[5].as_str();
    let script = words[6].as_str();
    if released == schedule || released == script || schedule == script {
        return None;
    }
    Some(LiveWords {
        box_file: &words[1],
        capture: &words[2],
        plan: &words[3],
        released: &words[4],
        schedule: &words[5],
        script: &words[6],
    })
}
