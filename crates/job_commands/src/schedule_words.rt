ghost use Rattle.std.specs.Prelude.{◌≡◌, MatchOption, None, Some};
ghost use Rattle.job_commands.specs.Words.{check_names, check_names_of, play_names, play_names_of};

use plain_text::Text;

/// The input files of a command that plays a schedule.
#[derive(Clone, Copy)]
pub struct ScheduleFiles<'a> {
    /// The name of the text that chooses the box.
    pub box_file: &'a Text,
    /// The name of the capture whose packets come in.
    pub capture: &'a Text,
    /// The name of the text of moves.
    pub schedule: &'a Text,
}

/// The files that the words of the command `play` name.
#[derive(Clone, Copy)]
pub struct PlayWords<'a> {
    pub files: ScheduleFiles<'a>,
    /// The name of the capture that is written.
    pub out: &'a Text,
}

/// The files that the words of the command `check` name, which are all inputs.
#[derive(Clone, Copy)]
pub struct CheckWords<'a> {
    pub files: ScheduleFiles<'a>,
    /// The name of the capture of the packets that were released.
    pub released: &'a Text,
}

/// The files of `play BOX CAPTURE SCHEDULE OUT`. None where the words are anything else.
pub fn read_play_words(words: &[Text]) -> Option<PlayWords<'_>>
    ensures { MatchOption result (play_names words.now ≡ None)
        (λ names. play_names words.now ≡ Some (play_names_of names)) }
{
    if words.len() != 5 || words[0].as_str() != "play" {
        return None;
    }
    Some(PlayWords {
        files: ScheduleFiles {
            box_file: &words[1],
            capture: &words[2],
            schedule: &words[3],
        },
        out: &words[4],
    })
}

/// The files of `check BOX CAPTURE SCHEDULE RELEASED`. None where the words are anything else.
pub fn read_check_words(words: &[Text]) -> Option<CheckWords<'_>>
    ensures { MatchOption result (check_names words.now ≡ None)
        (λ names. check_names words.now ≡ Some (check_names_of names)) }
{
    if words.len() != 5 || words[0].as_str() != "check" {
        return None;
    }
    Some(CheckWords {
        files: ScheduleFiles {
            box_file: &words[1],
            capture: &words[2],
            schedule: &words[3],
        },
        released: &words[4],
    })
}
