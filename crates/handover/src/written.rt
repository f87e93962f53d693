ghost use Rattle.std.specs.Prelude.{◌≡◌, ◌++◌, ◌∷◌, [], All, IfOk, OnOk};
ghost use Rattle.plain_text.specs.LineFiles.{text_of};
ghost use Rattle.handover.specs.Images.{FitsLine, FitsImage, counts_of, image_text};
ghost use Rattle.handover.specs.Images.{line_text, numbered};

use crate::image::{Ended, Image};
use crate::line::ImageLine;
use plain_machine::Schedule;
use plain_player::put_move;
use plain_text::{Bytes, NoMemory, WrittenFile, put_lines, put_u64};
use std::alloc::Global;

/// The text of a handover, which `read_image` reads back: one space between words, and no leading zeros.
pub fn put_image(alloc: Global, image: &Image) -> Result<Bytes, NoMemory>
    ensures text { IfOk result (λ text. text ≡ image_text image.now) }
    ensures fits { OnOk result (FitsImage image.now) }
{
    let mut text = put_counts(alloc, image)?;
    let ended = put_lines::<EndedLines>(alloc, image.ended.as_slice())?;
    text.extend(ended.as_slice())?;
    let released = put_lines::<ReleasedLines>(alloc, image.released.as_slice())?;
    text.extend(released.as_slice())?;
    let moves = put_moves(alloc, &image.past)?;
    text.extend(moves.as_slice())?;
    Ok(text)
}

/// The first two lines.
fn put_counts(alloc: Global, image: &Image) -> Result<Bytes, NoMemory>
    ensures text { IfOk result (λ text. text
        ≡ text_of line_text (ImageLine.Heading ∷ counts_of image.now ∷ [])) }
    ensures fits { OnOk result (FitsLine (counts_of image.now)) }
{
    let counts = ImageLine::State {
        fed: image.fed,
        clock: image.clock,
        draws: image.draws,
        epoch: image.epoch,
        moves: image.moves,
        bytes: image.bytes,
    };
    put_lines::<ImageLines>(alloc, &[ImageLine::Heading, counts])
}

/// The lines of moves.
fn put_moves(alloc: Global, moves: &Schedule) -> Result<Bytes, NoMemory>
    ensures text { IfOk result (λ text. text
        ≡ text_of (λ plain. line_text (ImageLine.Move plain)) moves.now) }
    ensures fits { OnOk result (All (λ plain. FitsLine (ImageLine.Move plain)) moves.now) }
{
    let mut text = Bytes::new(alloc);
    for index in 0..moves.len() {
        put_line(&mut text, ImageLine::Move(moves.at(index)))?;
        text.push(b'\n')?;
    }
    Ok(text)
}

/// Appends a line, without its line feed.
fn put_line(text: &mut Bytes, line: ImageLine) -> Result<(), NoMemory>
    ensures line { OnOk result (text.new ≡ text.old ++ line_text line) }
    ensures fits { OnOk result (FitsLine line) }
{
    match line {
        ImageLine::Heading => text.extend(b"handover 1"),
        ImageLine::State {
            fed,
            clock,
            draws,
            epoch,
            moves,
            bytes,
        } => put_numbers(
            text,
            b"state",
            &[fed, clock, draws, u64::from(epoch), moves, bytes],
        ),
        ImageLine::Ended(ended) => put_numbers(
            text,
            b"ended",
            &[
                u64::from(ended.epoch),
                u64::from(ended.thread),
                ended.entries,
                ended.outputs,
            ],
        ),
        ImageLine::Released { thread, number } => {
            put_numbers(text, b"released", &[u64::from(thread), number])
        }
        ImageLine::Move(plain) => {
            text.extend(b"move ")?;
            put_move(text, plain)
        }
    }
}

/// Appends a word and numbers, each behind a space.
fn put_numbers(text: &mut Bytes, word: &[u8], numbers: &[u64]) -> Result<(), NoMemory>
    ensures { OnOk result (text.new ≡ text.old ++ (word.now ++ numbered numbers.now)) }
{
    text.extend(word)?;
    for number in numbers {
        text.push(b' ')?;
        put_u64(text, *number)?;
    }
    Ok(())
}

/// The lines of any kind.
struct ImageLines;

impl WrittenFile for ImageLines {
    ghost use Rattle.handover.specs.Images.{FitsLine, line_text};

    type Thing = ImageLine;

    ghost line = { line_text };

    ghost fits = { FitsLine };

    fn put_line(_alloc: Global, text: &mut Bytes, line: &ImageLine) -> Result<(), NoMemory> {
        put_line(text, *line)
    }
}

/// The lines of ended epochs.
struct EndedLines;

impl WrittenFile for EndedLines {
    ghost use Rattle.handover.specs.declared.line.ImageLine.TheVariants as variant;
    ghost use Rattle.handover.specs.Images.{FitsLine, line_text};

    type Thing = Ended;

    ghost line = { λ ended. line_text (variant.Ended ended) };

    ghost fits = { λ ended. FitsLine (variant.Ended ended) };

    fn put_line(_alloc: Global, text: &mut Bytes, ended: &Ended) -> Result<(), NoMemory> {
        put_line(text, ImageLine::Ended(*ended))
    }
}

/// The lines of released outputs.
struct ReleasedLines;

impl WrittenFile for ReleasedLines {
    ghost use Rattle.handover.specs.Images.{FitsLine, line_text, released_line};

    type Thing = (u32, u64);

    ghost line = { λ output. line_text (released_line output) };

    ghost fits = { λ output. FitsLine (released_line output) };

    fn put_line(_alloc: Global, text: &mut Bytes, output: &(u32, u64)) -> Result<(), NoMemory> {
        let (thread, number) = *output;
        put_line(text, ImageLine::Released { thread, number })
    }
}
