ghost use Rattle.std.specs.Prelude.{◌≡◌, ◌≢◌, ◌<◌, ◌-◌, ◌^◌, ◌∷◌, [], Err, IfOk, OnOk, IsErrOf};
ghost use Rattle.std.specs.Prelude.{List};
ghost use Rattle.std.specs.Prelude.{ℕ};
ghost use Rattle.world_io.specs.declared.beginning.Front.TheVariants as front_of;
ghost use Rattle.world_io.specs.Stream.{Rose};
ghost use Rattle.world_io.specs.World.{Start};
ghost use Rattle.handover.specs.Images.{IsImage};
ghost use Rattle.handover_seal.specs.Seals.{unsealed};
ghost use Rattle.input_files.specs.Answers.{SaysImage};
ghost use Rattle.input_files.specs.Files.{KeepsOutputs, OnlyReads, OpensAll};
ghost use Rattle.input_files.specs.Judging.{JudgesImage};
ghost use Rattle.input_files.specs.Texts.{IsFrontOf, whole_lines};

use crate::InputError;
use crate::texts::{read_front_of, whole_lines};
use handover::{Image, ImageError, read_image};
use handover_seal::unsealed;
use plain_text::{Bytes, Limit, LineCause, LineFault, Text};
use std::alloc::Global;
use world_io::{Front, World};

/// A text of a handover that was accepted, and the image of a system that it says, after its seal where it is sealed.
#[derive(Drop)]
pub struct ImageFile {
    /// The text, as bytes.
    pub text: Bytes,
    /// The image.
    pub image: Image,
}

/// Reads and judges the text of a handover.
///
/// Of a file that is larger than `MOST_FILE_BYTES` the lines that end within these bytes are judged. Their faults come
/// first, but not that a line is missing, or that they are too many; otherwise the file is too large. Of a text that is
/// sealed the lines after the seal are judged; whose seal it is does not matter here.
pub fn read_image_file<W: World>(
    alloc: Global,
    world: &mut W,
    name: &Text,
) -> Result<ImageFile, InputError<LineFault>>
    requires { (W.ledger world.old).given < 2 ^ 32 - 1 }
    ensures only_reads { OnlyReads W.ledger W.healthy (name.now ∷ []) world.old world.new }
    ensures opened { OnOk result
        (OpensAll (name.now ∷ []) (W.ledger world.old) (W.ledger world.new)) }
    ensures cause { IsErrOf result InputError.ReadFault
        → Rose (W.ledger world.old).read_faults (W.ledger world.new).read_faults }
    ensures image { IfOk result (λ file. IsImage (unsealed file.text) file.image) }
    ensures judged { (p : Start) → W.honest p world.new
        → JudgesImage (W.healthy world.old) name.now result (W.shows p world.old) }
    ensures keeps { (p : Start) → W.honest p world.new
        → KeepsOutputs (W.shows p world.old) (W.shows p world.new) }
    ensures before { (p : Start) → W.honest p world.new → W.honest p world.old }
{
    match read_front_of(alloc, world, name)? {
        Front::All(text) => judge_all(alloc, text),
        Front::More(front) => Err(judge_cut(alloc, whole_lines(front.as_slice()))),
    }
}

/// Judges a whole text of a handover.
fn judge_all(alloc: Global, text: Bytes) -> Result<ImageFile, InputError<LineFault>>
    ensures says { (bytes : List ℕ) → IsFrontOf (front_of.All text) bytes → SaysImage bytes result }
    ensures image { IfOk result (λ file. IsImage (unsealed file.text) file.image) }
    ensures quiet { ¬ IsErrOf result InputError.ReadFault }
{
    match read_image(alloc, unsealed(text.as_slice())) {
        Ok(image) => Ok(ImageFile { text, image }),
        Err(ImageError::Fault(fault)) => Err(InputError::Fault(fault)),
        Err(ImageError::TooMany) => Err(InputError::TooLarge(Limit::Events)),
        Err(ImageError::NoMemory) => Err(InputError::NoMemory),
    }
}

/// Judges the lines of a text that goes on behind them.
fn judge_cut(alloc: Global, lines: &[u8]) -> InputError<LineFault>
    ensures says { (front bytes : List ℕ) → lines.now ≡ whole_lines front
        → IsFrontOf (front_of.More front) bytes → SaysImage bytes (Err result) }
    ensures quiet { result ≢ InputError.ReadFault }
{
    match read_image(alloc, unsealed(lines)) {
        Ok(_image) => InputError::TooLarge(Limit::File),
        Err(ImageError::Fault(fault)) => match fault.cause {
            LineCause::MissingLine => InputError::TooLarge(Limit::File),
            _ => InputError::Fault(fault),
        },
        Err(ImageError::TooMany) => InputError::TooLarge(Limit::Events),
        Err(ImageError::NoMemory) => InputError::NoMemory,
    }
}
