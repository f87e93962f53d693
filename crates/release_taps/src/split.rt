ghost use Rattle.std.specs.Prelude.{◌≡◌, ◌↔◌, ◌<◌, ◌≤◌, ◌+◌, ◌*◌, ℕ, IsTrue, Some, codes, length};
ghost use Rattle.std.specs.Prelude.{slice_get};
ghost use Rattle.release_taps.specs.Split.{AsksForTaps, IsAlone, IsRunLine, Splits, behind_pairs};
ghost use Rattle.release_taps.specs.Split.{released_name};

use plain_text::Text;

/// The most taps that a run may have.
pub const MOST_TAPS: usize = 64;

/// What the words of the command line say of taps.
#[derive(Clone, Copy, Debug, PartialEq, Eq)]
pub enum Split {
    /// The first word is not `tap`: the words are those of a command.
    Plain,
    /// The first word is `tap`, and the words ask for nothing.
    Bad,
    /// So many pairs `tap NAME` stand in front of `run` or `live`. The name of the released capture,
    /// which the taps mirror, has this place among all words, counted from 0.
    Taps { pairs: usize, name: usize },
}

/// What the words say of taps. `tap NAME` may stand 1 to 64 times in front of `run` with five names
/// or `live` with six, where no tap has a name that is another word of the line.
pub fn split_taps(words: &[Text]) -> Split
    ensures { Splits words.now result }
{
    if !is_tap(words, 0) {
        return Split::Plain;
    }
    let pairs = count_pairs(words);
    if pairs == 0 || pairs > MOST_TAPS || !is_run_line(&words[2 * pairs..]) {
        return Split::Bad;
    }
    if !are_alone(words, pairs) {
        return Split::Bad;
    }
    Split::Taps {
        pairs,
        name: 2 * pairs + 4,
    }
}

/// Whether the word at this place is `tap`.
fn is_tap(words: &[Text], place: usize) -> bool
    ensures { IsTrue result ↔ slice_get words.now place ≡ Some (codes "tap") }
{
    match words.get(place) {
        Some(word) => word.as_str() == "tap",
        None => false,
    }
}

/// How many pairs of `tap` and another word stand in front.
pub fn count_pairs(words: &[Text]) -> usize
    ensures within { 2 * result ≤ length words.now }
    ensures taps { (k : ℕ) → k < result → slice_get words.now (2 * k) ≡ Some (codes "tap") }
    ensures last { 2 * result + 1 < length words.now
        → ¬ (slice_get words.now (2 * result) ≡ Some (codes "tap")) }
{
    let mut pairs = 0;
    while 2 * pairs + 1 < words.len() && is_tap(words, 2 * pairs) {
        pairs += 1;
    }
    pairs
}

/// Whether these are `run` with five names or `live` with six.
fn is_run_line(words: &[Text]) -> bool
    ensures { IsTrue result ↔ IsRunLine words.now }
{
    match words.len() {
        6 => words[0].as_str() == "run",
        7 => words[0].as_str() == "live",
        _ => false,
    }
}

/// Whether the name of each of these pairs is no other word.
fn are_alone(words: &[Text], pairs: usize) -> bool
    requires { 2 * pairs ≤ length words.now }
    ensures { IsTrue result ↔ ((k : ℕ) → k < pairs → IsAlone words.now (2 * k + 1)) }
{
    for pair in 0..pairs {
        if !is_alone(words, 2 * pair + 1) {
            return false;
        }
    }
    true
}

/// Whether the words at these places are equal.
fn are_equal(words: &[Text], first: usize, second: usize) -> bool
    requires first { first < length words.now }
    requires second { second < length words.now }
    ensures { IsTrue result ↔ slice_get words.now first ≡ slice_get words.now second }
{
    words[first].as_str() == words[second].as_str()
}

/// Whether no other word is the one at this place.
fn is_alone(words: &[Text], place: usize) -> bool
    requires { place < length words.now }
    ensures { IsTrue result ↔ IsAlone words.now place }
{
    for other in 0..words.len() {
        if other != place && are_equal(words, other, place) {
            return false;
        }
    }
    true
}

/// The words after this many pairs.
#[tactic(auto, using(crate::proofs::Counting::enough, crate::proofs::Counting::behind_is))]
pub fn run_line(words: &[Text], pairs: usize) -> &[Text]
    requires { AsksForTaps words.now pairs }
    ensures { result.now ≡ behind_pairs pairs words.now }
{
    &words[2 * pairs..]
}

/// The name of the released capture that stands after this many pairs.
#[tactic(auto, using(crate::proofs::Counting::enough))]
pub fn mirrored_name(words: &[Text], pairs: usize) -> &Text
    requires { AsksForTaps words.now pairs }
    ensures { result.now ≡ released_name pairs words.now }
{
    &words[2 * pairs + 4]
}
