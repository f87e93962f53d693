ghost use Rattle.std.specs.Prelude.{◌≡◌, ◌++◌, None, Some, IfOk, OnOk, if◌then◌else◌};
ghost use Rattle.hex.specs.Hex.{encode_lower};
ghost use Rattle.handover_seal.specs.Seals.{after_line, front_line, seal_fault as fault_of};
ghost use Rattle.handover_seal.specs.Seals.{seal_line};
ghost use Rattle.handover_seal.specs.Seals.{sealed_text, unsealed as unsealed_of};

use plain_text::{Bytes, NoMemory};
use std::alloc::Global;

/// What a system that is handed over stands on: the digests of its box file, and of the packets that were fed.
#[derive(Clone, Copy, Debug, PartialEq, Eq)]
pub struct Seal {
    pub box_file: [u8; 32],
    pub packets: [u8; 32],
}

/// Why a text of a handover is not one of a seal.
#[derive(Clone, Copy, Debug, PartialEq, Eq)]
pub enum SealFault {
    /// It is one of another box file, or one of the two is sealed and the other is not.
    OtherBox,
    /// It is one of other packets.
    OtherCapture,
}

/// What a sealed text begins with.
const HEADING: &[u8] = b"handover 2 ";

/// Appends a digest, in hexadecimal digits.
fn put_digest(alloc: Global, text: &mut Bytes, digest: [u8; 32]) -> Result<(), NoMemory>
    ensures { OnOk result (text.new ≡ text.old ++ encode_lower digest) }
{
    let digits = hex::encode(alloc, digest)?;
    text.extend(digits.as_bytes())
}

/// The line of a seal, as far as it names the box file.
fn put_front(alloc: Global, box_file: [u8; 32]) -> Result<Bytes, NoMemory>
    ensures { IfOk result (λ text. text ≡ front_line box_file) }
{
    let mut text = Bytes::of(alloc, HEADING)?;
    put_digest(alloc, &mut text, box_file)?;
    text.push(b' ')?;
    Ok(text)
}

/// The line of a seal.
fn put_line(alloc: Global, seal: Seal) -> Result<Bytes, NoMemory>
    ensures { IfOk result (λ text. text ≡ seal_line seal) }
{
    let mut text = put_front(alloc, seal.box_file)?;
    put_digest(alloc, &mut text, seal.packets)?;
    text.push(b'\n')?;
    Ok(text)
}

/// Puts the line of a seal, where there is one, in front of a text.
pub fn put_sealed(alloc: Global, seal: Option<Seal>, text: &mut Bytes) -> Result<(), NoMemory>
    ensures { OnOk result (text.new ≡ sealed_text seal text.old) }
{
    match seal {
        Some(seal) => {
            let line = put_line(alloc, seal)?;
            text.prepend(line.as_slice())
        }
        None => Ok(()),
    }
}

/// Why a text of a handover is not one of this seal; without a seal, not one that is not sealed.
pub fn seal_fault(
    alloc: Global,
    seal: Option<Seal>,
    text: &[u8],
) -> Result<Option<SealFault>, NoMemory>
    ensures { IfOk result (λ fault. fault ≡ fault_of seal text.now) }
{
    let Some(seal) = seal else {
        return Ok(fault_unless(!text.starts_with(HEADING), SealFault::OtherBox));
    };
    let front = put_front(alloc, seal.box_file)?;
    if !text.starts_with(front.as_slice()) {
        return Ok(Some(SealFault::OtherBox));
    }
    let line = put_line(alloc, seal)?;
    Ok(fault_unless(text.starts_with(line.as_slice()), SealFault::OtherCapture))
}

fn fault_unless(fits: bool, fault: SealFault) -> Option<SealFault>
    ensures { result ≡ (if fits then None else Some fault) }
{
    if fits { None } else { Some(fault) }
}

/// What is read of a text of a handover: all of it, or where it is sealed, what stands after the line of the seal, from
/// its line feed on.
pub fn unsealed(text: &[u8]) -> &[u8]
    ensures { result.now ≡ unsealed_of text.now }
{
    if text.starts_with(HEADING) {
        after_line(text)
    } else {
        text
    }
}

/// A text from its first line feed on.
fn after_line(text: &[u8]) -> &[u8]
    ensures { result.now ≡ after_line text.now }
{
    let mut rest = text;
    while let [byte, after @ ..] = rest {
        if *byte == b'\n' {
            return rest;
        }
        rest = after;
    }
    rest
}
