ghost use Rattle.std.specs.Prelude.{◌≡◌, ◌≤◌, Some, IfOk, IfErr, length};
ghost use Rattle.plain_text.specs.declared.limit.TheConstants.{MOST_EVENTS as most_lines};
ghost use Rattle.plain_text.specs.Lines.{words_of};
ghost use Rattle.line_tables.specs.Tables.{has_third};
ghost use Rattle.handover.specs.Images.{IsImage, IsRefused, SaysAt, fault_at, lines_of};

use crate::fault::ImageError;
use crate::image::Image;
use crate::line::ImageLine;
use crate::stage::Stage;
use crate::values::read_values;
use plain_text::{LineCause, LineFault, MOST_EVENTS, WordIter, count_lines, lines, words};
use std::alloc::Global;

/// Reads the text of a handover: the line `handover 1`, a line `state FED CLOCK DRAWS EPOCH MOVES BYTES`, then lines
/// `ended E T ENTRIES OUTPUTS`, then lines `released T J`, then lines `move T`, or `move T = A` where the move is told
/// the answer A. Its time and memory grow with the length of the text, and no faster.
///
/// It answers `TooMany` where more than `MOST_EVENTS` lines count before the first faulty one, or at all. Else it
/// answers `Fault` with the first faulty line, if there is one: a line out of the order begins with an unknown word,
/// and where the first two lines are not there one is missing behind all lines.
pub fn read_image(alloc: Global, text: &[u8]) -> Result<Image, ImageError>
    ensures image { IfOk result (IsImage text.now) }
    ensures few { IfOk result (λ image. length (lines_of image) ≤ most_lines) }
    ensures refused { IfErr result (IsRefused text.now) }
{
    let mut image = Image::empty(alloc);
    let mut stage = Stage::Heading;
    let mut room = u64::from(MOST_EVENTS);
    for line in lines(text) {
        let said = match read_line(stage, line.bytes) {
            Ok(said) => said,
            Err(cause) => {
                let line = line.number;
                return Err(ImageError::Fault(LineFault { line, cause }));
            }
        };
        if room == 0 {
            return Err(ImageError::TooMany);
        }
        room -= 1;
        image.add(said)?;
        stage = said.behind();
    }
    if stage.is_whole() {
        return Ok(image);
    }
    let line = count_lines(text) + 1;
    let cause = LineCause::MissingLine;
    Err(ImageError::Fault(LineFault { line, cause }))
}

/// What a line says where it may stand next, or its fault.
fn read_line(stage: Stage, line: &[u8]) -> Result<ImageLine, LineCause>
    ensures says { IfOk result (SaysAt stage (words_of line.now)) }
    ensures fault { IfErr result (λ cause. fault_at stage (words_of line.now) ≡ Some cause) }
{
    let third = is_third_there(words(line));
    let mut left = words(line);
    let Some(word) = left.next() else {
        return Err(LineCause::UnknownWord);
    };
    let Some(form) = stage.form_named(third, word) else {
        return Err(LineCause::UnknownWord);
    };
    let values = read_values(left, form.parts())?;
    match form.line(values) {
        Some(said) => Ok(said),
        None => Err(LineCause::OutOfRange),
    }
}

/// Whether a line has three words or more.
fn is_third_there(mut words: WordIter<'_>) -> bool
    ensures { result ≡ has_third words.entry }
{
    words.nth(2).is_some()
}
