ghost use Rattle.std.specs.Prelude.{◌≡◌, ◌<◌, ℕ, IfSome, None, codes, true, false, length};
ghost use Rattle.command_words.specs.Clashes.{Clashes, IsOther, IsOtherWord, MayBeOne, MayTell};
ghost use Rattle.command_words.specs.Clashes.{NoneClash, name_of};
ghost use Rattle.command_words.specs.Pipes.{word_at};
ghost use Rattle.command_words.specs.declared.clashes.OtherName.{OtherName};

use crate::named_file::{NamedFile, Names, are_one};
use crate::pipes::ReportOn;
use crate::word_places::{WordPlaces, read_places};
use plain_text::Text;

/// A name that is not to be that of a file which is written.
#[derive(Clone, Copy)]
pub enum OtherName {
    /// The word at this place.
    Word(usize),
    /// The file that standard output goes to.
    Output,
    /// The file that standard error goes to.
    Errors,
}

/// Two names of one file, of which one is to be written.
#[derive(Clone, Copy)]
pub struct Clash {
    /// The place of the word that is the name of an output or of a tap.
    pub written: usize,
    /// The other name.
    pub other: OtherName,
}

/// A name of an output or of a tap whose file has another name, too: that of a further file of the command, of standard
/// output, if the report stands there, or of standard error. None where there is no such name.
///
/// Which names are of one file, `names` tells; a device that keeps nothing may have any number of names. A file that
/// is not there yet, in a folder that can't be told, is not seen.
pub fn one_file<N: Names>(names: &N, words: &[Text], report: ReportOn) -> Option<Clash>
    ensures found { IfSome result (Clashes (N.may names.now) words.now report) }
    ensures none { result ≡ None → NoneClash (N.may names.now) words.now report }
{
    let places = read_places(words);
    for written in 0..words.len() {
        if places.is_written(written) {
            if let Some(other) = find_other(names, words, places, report, written) {
                return Some(Clash { written, other });
            }
        }
    }
    None
}

/// Another name of the file that the word at this place names.
fn find_other<N: Names>(
    names: &N,
    words: &[Text],
    places: WordPlaces,
    report: ReportOn,
    written: usize,
) -> Option<OtherName>
    requires { written < length words.now }
    ensures found { IfSome result (λ other. IsOther words.now places report written other
        × MayTell (N.may names.now) (word_at words.now written) (name_of words.now other) true) }
    ensures none { result ≡ None → (other : OtherName)
        → IsOther words.now places report written other
        → MayTell (N.may names.now) (word_at words.now written) (name_of words.now other) false }
{
    let file = names.tell_file(words[written].as_str());
    if let Some(place) = find_word(names, words, places, written, &file) {
        return Some(OtherName::Word(place));
    }
    if is_report(names, &file, report) {
        return Some(OtherName::Output);
    }
    if is_name_of(names, &file, "/dev/stderr") {
        return Some(OtherName::Errors);
    }
    None
}

/// Whether the report stands on standard output, and that is this file.
fn is_report<N: Names>(names: &N, file: &NamedFile, report: ReportOn) -> bool
    ensures found { result ≡ true → (report ≡ ReportOn.Output)
        × MayBeOne (N.may names.now) file.now (codes "/dev/stdout") true }
    ensures none { result ≡ false → report ≡ ReportOn.Output
        → MayBeOne (N.may names.now) file.now (codes "/dev/stdout") false }
{
    report == ReportOn::Output && is_name_of(names, file, "/dev/stdout")
}

/// The place of another word that names this file.
fn find_word<N: Names>(
    names: &N,
    words: &[Text],
    places: WordPlaces,
    written: usize,
    file: &NamedFile,
) -> Option<usize>
    ensures found { IfSome result (λ place. IsOtherWord words.now places written place
        × MayBeOne (N.may names.now) file.now (word_at words.now place) true) }
    ensures none { result ≡ None → (place : ℕ)
        → IsOtherWord words.now places written place
        → MayBeOne (N.may names.now) file.now (word_at words.now place) false }
{
    for place in 0..words.len() {
        if place != written
            && places.is_file(place)
            && is_name_of(names, file, words[place].as_str())
        {
            return Some(place);
        }
    }
    None
}

/// Whether this is a name of the file.
fn is_name_of<N: Names>(names: &N, file: &NamedFile, name: &str) -> bool
    ensures { MayBeOne (N.may names.now) file.now name.now result }
{
    are_one(file, &names.tell_file(name))
}
