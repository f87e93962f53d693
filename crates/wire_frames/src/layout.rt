ghost use Rattle.std.specs.Prelude.{◌≡◌, ◌+◌, ◌^◌, ◌<◌, ◌≤◌, length, IfOk, IfErr, Some, None};
ghost use Rattle.plain_text.specs.Octets.{AreBytes};
ghost use Rattle.wire_frames.specs.Faults.{first_failure, form_tests, least, length_tests, needed};
ghost use Rattle.wire_frames.specs.Faults.{size_tests, stamp_tests, found_tests};
ghost use Rattle.wire_frames.specs.Places.{components_place, kind_at, length_at, mask_at};
ghost use Rattle.wire_frames.specs.Places.{stamp_end, threads_at, threads_place, version_at};
ghost use Rattle.wire_frames.specs.Parts.{layout_of};

use crate::FrameFault;
use crate::bytes::{byte_at, u16_at, u32_at};
use crate::stamp::bits_set;
use crate::version::Version;
use plain_text::{Kind, MOST_CAPTURED};

/// The bytes that tell the kind, the version and the length.
const PREFIX: usize = 6;

/// The most bytes of a frame of version 1, and of version 2: an output with all components and as many captured bytes
/// as may be.
const MOST_OF_ONE: u32 = 262_317;

const MOST_OF_TWO: u32 = 262_319;

/// The bytes between an output's stamp and its captured bytes.
pub(crate) const PACKET_HEADER: usize = 16;

/// Where the parts of a frame stand.
#[derive(Clone, Copy, Debug)]
pub(crate) struct Layout {
    pub(crate) kind: Kind,
    pub(crate) version: Version,
    pub(crate) length: usize,
    pub(crate) threads: u32,
    /// Whose components there are: bit u is set where there is one of thread u.
    pub(crate) mask: u32,
    /// The place behind the stamp.
    pub(crate) end: usize,
}

/// The place of the number of threads in a frame of this kind.
fn place_of_threads(kind: Kind) -> usize
    ensures { result ≡ threads_place kind }
{
    match kind {
        Kind::Log => 36,
        Kind::Out => 28,
    }
}

/// The place of the first component in a frame of this kind and version.
pub(crate) fn place_of_components(kind: Kind, version: Version) -> usize
    ensures { result ≡ components_place kind version }
{
    match version {
        Version::One => place_of_threads(kind) + 1,
        Version::Two => place_of_threads(kind) + 3,
    }
}

/// The least bytes of a frame of this kind and version.
fn least_length(kind: Kind, version: Version) -> u32
    ensures { result ≡ least kind version }
{
    match (kind, version) {
        (Kind::Log, Version::One) => 45,
        (Kind::Out, Version::One) => 53,
        (Kind::Log, Version::Two) => 39,
        (Kind::Out, Version::Two) => 47,
    }
}

/// The parts of the frame at the front of the bytes, if its lengths agree.
pub(crate) fn find_layout(bytes: &[u8]) -> Result<Layout, FrameFault>
    ensures passed { IfOk result (λ layout. (first_failure (found_tests bytes.now) ≡ None)
        × (layout ≡ layout_of bytes.now)) }
    ensures whole { IfOk result (λ layout. layout.length ≤ length bytes.now) }
    ensures fits { IfOk result (λ layout. layout.length
        ≡ needed (kind_at bytes.now) (version_at bytes.now) bytes.now) }
    ensures mask { IfOk result (λ layout. layout.mask < 2 ^ 16) }
    ensures bytes { AreBytes bytes.now }
    ensures fault { IfErr result (λ fault. first_failure (found_tests bytes.now) ≡ Some fault) }
{
    let (kind, version) = read_form(bytes)?;
    let length = read_length(bytes, kind, version)?;
    let (threads, mask) = read_threads(bytes, kind, version)?;
    let end = place_of_components(kind, version) + 8 * bits_set(mask);
    check_size(bytes, kind, version, length, end)?;
    Ok(Layout {
        kind,
        version,
        length,
        threads,
        mask,
        end,
    })
}

fn read_form(bytes: &[u8]) -> Result<(Kind, Version), FrameFault>
    ensures passed { IfOk result (λ form. (first_failure (form_tests bytes.now) ≡ None)
        × (form.0 ≡ kind_at bytes.now) × (form.1 ≡ version_at bytes.now)) }
    ensures long { IfOk result (λ form. 6 ≤ length bytes.now) }
    ensures fault { IfErr result (λ fault. first_failure (form_tests bytes.now) ≡ Some fault) }
{
    if bytes.len() < PREFIX {
        return Err(FrameFault::Short);
    }
    let kind = match byte_at(bytes, 0) {
        1 => Kind::Log,
        2 => Kind::Out,
        _ => return Err(FrameFault::BadKind),
    };
    let version = match byte_at(bytes, 1) {
        1 => Version::One,
        2 => Version::Two,
        _ => return Err(FrameFault::BadVersion),
    };
    Ok((kind, version))
}

fn read_length(bytes: &[u8], kind: Kind, version: Version) -> Result<usize, FrameFault>
    requires { 6 ≤ length bytes.now }
    ensures passed { IfOk result (λ size.
        (first_failure (length_tests kind version bytes.now) ≡ None)
        × (size ≡ length_at bytes.now)) }
    ensures long { IfOk result (λ size. (least kind version ≤ size) × (size ≤ length bytes.now)) }
    ensures fault { IfErr result (λ fault. first_failure (length_tests kind version bytes.now)
        ≡ Some fault) }
{
    let length = u32_at(bytes, 2);
    let most = match version {
        Version::One => MOST_OF_ONE,
        Version::Two => MOST_OF_TWO,
    };
    if length < least_length(kind, version) || length > most {
        return Err(FrameFault::BadLength);
    }
    if bytes.len() < length as usize {
        return Err(FrameFault::Short);
    }
    Ok(length as usize)
}

/// The number of threads, and whose components there are.
fn read_threads(bytes: &[u8], kind: Kind, version: Version) -> Result<(u32, u32), FrameFault>
    requires { least kind version ≤ length bytes.now }
    ensures passed { IfOk result (λ read.
        (first_failure (stamp_tests kind version bytes.now) ≡ None)
        × (read.0 ≡ threads_at kind bytes.now) × (read.1 ≡ mask_at kind version bytes.now)) }
    ensures fits { IfOk result (λ read. read.1 < 2 ^ 16) }
    ensures fault { IfErr result (λ fault. first_failure (stamp_tests kind version bytes.now)
        ≡ Some fault) }
{
    let place = place_of_threads(kind);
    let threads = byte_at(bytes, place);
    if threads == 0 || threads > 16 {
        return Err(FrameFault::OutOfRange);
    }
    let past = 1 << threads;
    let mask = match version {
        Version::One => past - 1,
        Version::Two => u32::from(u16_at(bytes, place + 1)),
    };
    if mask >= past {
        return Err(FrameFault::OutOfRange);
    }
    Ok((u32::from(threads), mask))
}

/// Whether the length is the one that the fields need.
fn check_size(
    bytes: &[u8],
    kind: Kind,
    version: Version,
    size: usize,
    end: usize,
) -> Result<(), FrameFault>
    requires said { size ≡ length_at bytes.now }
    requires there { size ≤ length bytes.now }
    requires behind { end ≡ stamp_end kind version bytes.now }
    requires near { end ≤ 256 }
    ensures passed { IfOk result (λ _. first_failure (size_tests kind version bytes.now) ≡ None) }
    ensures fits { IfOk result (λ _. size ≡ needed kind version bytes.now) }
    ensures fault { IfErr result (λ fault. first_failure (size_tests kind version bytes.now)
        ≡ Some fault) }
{
    let needed = match kind {
        Kind::Log => end,
        Kind::Out => {
            if size < end + PACKET_HEADER {
                return Err(FrameFault::BadLength);
            }
            let captured = u32_at(bytes, end + 12);
            if captured > MOST_CAPTURED {
                return Err(FrameFault::OutOfRange);
            }
            end + PACKET_HEADER + captured as usize
        }
    };
    if size != needed {
        return Err(FrameFault::BadLength);
    }
    Ok(())
}
