ghost use Rattle.std.specs.Prelude.{◌≡◌, MatchOption, None, Some};
ghost use Rattle.job_commands.specs.Words.{trace_names, trace_names_of};

use plain_text::Text;

/// The files that the words of the command `trace` name.
#[derive(Clone, Copy)]
pub struct TraceWords<'a> {
    /// The name of the text that chooses the box.
    pub box_file: &'a Text,
    /// The name of the capture whose packets come in.
    pub capture: &'a Text,
    /// The name of the text of the events.
    pub script: &'a Text,
    /// The name of the table that is written.
    pub table: &'a Text,
}

/// The files of `trace BOX CAPTURE SCRIPT TABLE`. None where the words are anything else.
pub fn read_trace_words(words: &[Text]) -> Option<TraceWords<'_>>
    ensures { MatchOption result (trace_names words.now ≡ None)
        (λ names. trace_names words.now ≡ Some (trace_names_of names)) }
{
    if words.len() != 5 || words[0].as_str() != "trace" {
        return None;
    }
    Some(TraceWords {
        box_file: &words[1],
        capture: &words[2],
        script: &words[3],
        table: &words[4],
    })
}
