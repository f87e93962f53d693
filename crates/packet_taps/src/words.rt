ghost use Rattle.std.specs.Prelude.{◌≡◌, MatchOption, None, Some};
ghost use Rattle.packet_taps.specs.Words.{watch_names, watched_by};

use plain_text::{Text, read_u64};

/// What the words of the command `watch` ask for.
#[derive(Clone, Copy)]
pub struct WatchWords<'a> {
    /// The name of the capture whose packets are shown.
    pub capture: &'a Text,
    /// How many packets pass by the tap that the program seats.
    pub skip: u64,
    /// How many packets after those it is shown at most.
    pub quota: u64,
}

/// The name and the numbers of `watch CAPTURE SKIP QUOTA`. None where the words are anything else, or SKIP or QUOTA is
/// no number.
pub fn read_watch_words(words: &[Text]) -> Option<WatchWords<'_>>
    ensures { MatchOption result (watch_names words.now ≡ None)
        (λ names. watch_names words.now ≡ Some (watched_by names)) }
{
    if words.len() != 4 || words[0].as_str() != "watch" {
        return None;
    }
    let skip = read_u64(words[2].as_str().as_bytes())?;
    let quota = read_u64(words[3].as_str().as_bytes())?;
    Some(WatchWords {
        capture: &words[1],
        skip,
        quota,
    })
}
