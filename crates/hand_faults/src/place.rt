ghost use Rattle.std.specs.Prelude.{◌≡◌, ◌<◌, ◌≤◌, ◌+◌, length};
ghost use Rattle.plain_text.specs.Lines.{counted_lines};
ghost use Rattle.recovery_world.specs.World.{Setting};
ghost use Rattle.handover.specs.Images.{IsImage};
ghost use Rattle.handover_world.specs.Faults.{IsFault};
ghost use Rattle.hand_faults.specs.HandFaults.{IsLineAt, IsRefusedAt, IsRowLine};

use crate::{HandCause, HandFault};
use handover::Image;
use handover_world::ResumeError;
use plain_text::lines;

/// Where in its text an image has its first fault, and why.
pub fn hand_fault<X>(text: &[u8], image: &Image, error: ResumeError) -> HandFault
    requires image { IsImage text.now image.now }
    requires fault { (s : Setting X) × IsFault s image.now error }
    requires not_memory { error ≡ ResumeError.NoMemory → ⊥ }
    ensures { IsRefusedAt text.now image.now error result }
{
    let ended = image.ended.len() as u64;
    let released = image.released.len() as u64;
    match error {
        ResumeError::Count(row) => HandFault {
            line: row_line(text, ended, row),
            cause: HandCause::Count,
        },
        ResumeError::Move(fault) => HandFault {
            line: line_at(text, 1 + ended + released + fault.number),
            cause: HandCause::Move(fault.cause),
        },
        ResumeError::Released(place) => HandFault {
            line: line_at(text, 1 + ended + place),
            cause: HandCause::Released,
        },
        ResumeError::NoMemory => unreachable!(),
    }
}

/// The line of a row of the list of ended epochs, of so many, or of the counts, which are row 0. A row that is missing
/// has the line behind the last.
fn row_line(text: &[u8], rows: u64, row: u64) -> u64
    requires last { row < length (counted_lines text.now) }
    requires there { row ≤ rows → row + 1 < length (counted_lines text.now) }
    ensures { IsRowLine text.now rows row result }
{
    if row <= rows {
        line_at(text, row + 1)
    } else {
        line_at(text, row) + 1
    }
}

/// The number of the line at this place, from 0, of those that count.
fn line_at(text: &[u8], place: u64) -> u64
    requires { place < length (counted_lines text.now) }
    ensures line { IsLineAt text.now place result }
    ensures bound { result ≤ length text.now }
{
    let mut left = place;
    for line in lines(text) {
        if left == 0 {
            return line.number;
        }
        left -= 1;
    }
    unreachable!()
}
