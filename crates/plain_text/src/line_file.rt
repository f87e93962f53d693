ghost use Rattle.std.specs.Prelude.{◌≡◌, ◌≤◌, ◌++◌, List, ℕ, Some, All, IfOk, IfErr, OnOk};
ghost use Rattle.plain_text.specs.LineFiles.{LineForm, IsDecisive, IsFile, IsRefused, count_of};
ghost use Rattle.plain_text.specs.LineFiles.{text_of};
ghost use Rattle.plain_text.specs.Lines.{words_of};

use crate::{Bytes, LineCause, LineFault, NoMemory, ReadError, Sequence, lines};
use std::alloc::Global;

/// A kind of text files in which each line that counts says one thing.
pub trait LineFile {
    /// What a line says.
    type Thing: Drop;

    /// What the words of a line say, their first fault, and as how many a thing counts.
    ghost form: { LineForm Self.Thing };

    /// The thing that a line says, or its fault.
    fn read_line(line: &[u8]) -> Result<Self::Thing, LineCause>
        ensures says { IfOk result (form.says (words_of line.now)) }
        ensures fault { IfErr result (λ cause. form.fault (words_of line.now) ≡ Some cause) };

    /// As how many a thing counts.
    fn weight(thing: &Self::Thing) -> u64
        ensures { result ≡ form.weight thing.now };
}

/// Reads a file of lines. Its time and memory grow with the length of the text, and no faster.
///
/// It answers `TooMany` where the things of the lines before the first faulty one, or of all lines, count as more than
/// the most. Else it answers `Fault` with the first faulty line, if there is one.
pub fn read_lines<F: LineFile>(
    alloc: Global,
    text: &[u8],
    most: u64,
) -> Result<Sequence<F::Thing>, ReadError>
    requires decisive { IsDecisive F.form }
    ensures file { IfOk result (IsFile F.form text.now) }
    ensures few { IfOk result (λ things. count_of F.form things ≤ most) }
    ensures refused { IfErr result (IsRefused F.form most text.now) }
{
    let mut things = Sequence::new(alloc);
    let mut room = most;
    for line in lines(text) {
        let thing = match F::read_line(line.bytes) {
            Ok(thing) => thing,
            Err(cause) => {
                let line = line.number;
                return Err(ReadError::Fault(LineFault { line, cause }));
            }
        };
        let weight = F::weight(&thing);
        if weight > room {
            return Err(ReadError::TooMany);
        }
        room -= weight;
        things.push(thing)?;
    }
    Ok(things)
}

/// A kind of files of lines that is written as well.
pub trait WrittenFile {
    /// What a line says.
    type Thing;

    /// The line of a thing, without its line feed.
    ghost line: { Self.Thing → List ℕ };

    /// The numbers of a thing may stand in a file, so that its line is read back.
    ghost fits: { Self.Thing → Type 0 };

    /// Appends the line of a thing, without its line feed.
    fn put_line(alloc: Global, text: &mut Bytes, thing: &Self::Thing) -> Result<(), NoMemory>
        ensures line { OnOk result (text.new ≡ text.old ++ line thing.now) }
        ensures fits { OnOk result (fits thing.now) };
}

/// The text of a file of lines: the line of each thing, in order, each with a line feed.
pub fn put_lines<F: WrittenFile>(alloc: Global, things: &[F::Thing]) -> Result<Bytes, NoMemory>
    ensures text { IfOk result (λ text. text ≡ text_of F.line things.now) }
    ensures fits { OnOk result (All F.fits things.now) }
{
    let mut text = Bytes::new(alloc);
    for thing in things {
        F::put_line(alloc, &mut text, thing)?;
        text.push(b'\n')?;
    }
    Ok(text)
}
