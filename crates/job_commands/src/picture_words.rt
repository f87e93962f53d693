ghost use Rattle.std.specs.Prelude.{◌≡◌, MatchOption, None, Some};
ghost use Rattle.job_commands.specs.Words.{picture_names, picture_names_of};

use plain_text::Text;

/// The files that the words of the command `picture` name.
#[derive(Clone, Copy)]
pub struct PictureWords<'a> {
    /// The name of the text that chooses the box.
    pub box_file: &'a Text,
    /// The name of the capture whose packets come in.
    pub capture: &'a Text,
    /// The name of the text of the events.
    pub script: &'a Text,
    /// The name of the picture that is drawn.
    pub picture: &'a Text,
}

/// The files of `picture BOX CAPTURE SCRIPT PICTURE`. None where the words are anything else.
pub fn read_picture_words(words: &[Text]) -> Option<PictureWords<'_>>
    ensures { MatchOption result (picture_names words.now ≡ None)
        (λ names. picture_names words.now ≡ Some (picture_names_of names)) }
{
    if words.len() != 5 || words[0].as_str() != "picture" {
        return None;
    }
    Some(PictureWords {
        box_file: &words[1],
        capture: &words[2],
        script: &words[3],
        picture: &words[4],
    })
}
