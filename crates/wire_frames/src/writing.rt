ghost use Rattle.std.specs.Prelude.{◌≡◌, ◌+◌, ◌*◌, ◌^◌, ◌<◌, ◌≤◌, ◌++◌, ◌∷◌, [], ℕ, length};
ghost use Rattle.std.specs.Prelude.{slice_index, OnOk, OnErr, IfOk};
ghost use Rattle.plain_text.specs.declared.limit.TheConstants.{MOST_CAPTURED};
ghost use Rattle.plain_text.specs.declared.kind.Kind.TheVariants.{Log, Out};
ghost use Rattle.wire_frames.specs.declared.version.Version.TheVariants.{Two};
ghost use Rattle.wire_frames.specs.declared.frame.Frame.TheVariants as frame;
ghost use Rattle.wire_frames.specs.Layout.{code_of, component_fields, field, head, kind_code};
ghost use Rattle.wire_frames.specs.Layout.{mask_of, nonzero, packet_fields, place_field, spelled};
ghost use Rattle.wire_frames.specs.Layout.{subject_of, written, written_length, IsFrame};
ghost use Rattle.wire_frames.specs.Parts.{entry_front, output_front, FitsWord};
ghost use Rattle.wire_frames.specs.Writing.{CanPutEntry, CanPutOutput};

use crate::stamp::{count_nonzero, mask_of};
use access_log::{Output, StampedEntry, What};
use plain_text::{Bytes, HEADER_ROOM, Kind, NoMemory, Packet};
use std::alloc::Global;
use thread_clock::Stamp;

/// The bytes of an entry's frame without its components, and of an output's without its components and captured bytes.
const BARE_ENTRY: usize = 39;

const BARE_OUTPUT: usize = 47;

/// How many bytes the frame of an entry has that `put_entry` writes: 39, and 8 for each component of its stamp that is
/// not 0.
pub fn entry_length(entry: &StampedEntry) -> usize
    ensures value { result ≡ 39 + 8 * length (nonzero entry.now.stamp) }
    ensures written { (epoch threads : ℕ)
        → length (written (frame.Entry epoch threads entry.now)) ≡ result }
    ensures small { result < 2 ^ 32 }
{
    BARE_ENTRY + 8 * count_nonzero(&entry.stamp)
}

/// How many bytes the frame of an output has that `put_output` writes: 47, 8 for each component of its stamp that is
/// not 0, and the captured bytes.
pub fn output_length(output: &Output) -> usize
    requires { length output.now.packet.bytes ≤ MOST_CAPTURED }
    ensures value { result
        ≡ 47 + 8 * length (nonzero output.now.stamp) + length output.now.packet.bytes }
    ensures written { (epoch threads : ℕ)
        → length (written (frame.Output epoch threads output.now)) ≡ result }
    ensures small { result < 2 ^ 32 }
{
    BARE_OUTPUT + 8 * count_nonzero(&output.stamp) + output.packet.bytes.len()
}

/// The frame of an entry of this epoch, of a sender with this number of threads.
pub fn put_entry(
    alloc: Global,
    epoch: u32,
    threads: u32,
    entry: &StampedEntry,
) -> Result<Bytes, NoMemory>
    requires { CanPutEntry epoch threads entry.now }
    ensures spelled { IfOk result (λ bytes. bytes ≡ written (frame.Entry epoch threads entry.now)) }
    ensures frame { IfOk result (λ bytes. IsFrame bytes (frame.Entry epoch threads entry.now)) }
    ensures size { IfOk result (λ bytes. length bytes ≡ 39 + 8 * length (nonzero entry.now.stamp)) }
    ensures small { IfOk result (λ bytes. length bytes < 2 ^ 32) }
{
    let size = entry_length(entry);
    let mut frame = Bytes::with_room(alloc, size, &[])?;
    put_components(&mut frame, entry.stamp.components(), threads as usize)?;
    put_entry_front(&mut frame, size as u32, epoch, threads, entry)?;
    Ok(frame)
}

/// The frame of an output of this epoch, of a sender with this number of threads. Its header is put in front of a copy
/// of the captured bytes.
pub fn put_output(
    alloc: Global,
    epoch: u32,
    threads: u32,
    output: Output,
) -> Result<Bytes, NoMemory>
    requires { CanPutOutput epoch threads output }
    ensures spelled { IfOk result (λ bytes. bytes ≡ written (frame.Output epoch threads output)) }
    ensures frame { IfOk result (λ bytes. IsFrame bytes (frame.Output epoch threads output)) }
    ensures size { IfOk result (λ bytes. length bytes
        ≡ 47 + 8 * length (nonzero output.stamp) + length output.packet.bytes) }
    ensures small { IfOk result (λ bytes. length bytes < 2 ^ 32) }
{
    let size = output_length(&output);
    let captured = output.packet.bytes.as_slice();
    let mut frame = Bytes::with_room(alloc, HEADER_ROOM, captured)?;
    put_packet_fields(&mut frame, &output.packet)?;
    put_components(&mut frame, output.stamp.components(), threads as usize)?;
    put_output_front(&mut frame, size as u32, epoch, threads, &output)?;
    Ok(frame)
}

/// What an entry did, as its code, its variable or the value that was told, and its place.
fn numbers_of(what: What) -> (u8, u64, u64)
    ensures code { result.0 ≡ code_of what }
    ensures subject { result.1 ≡ subject_of what }
    ensures place { result.2 ≡ place_field what }
    ensures fits { FitsWord what }
{
    match what {
        What::Access { var, place } => (1, u64::from(var), place),
        What::Clock(value) => (2, value, 0),
        What::Draw(value) => (3, value, 0),
        What::Read { var, after } => (4, u64::from(var), after),
    }
}

/// Puts the fields of an entry that stand in front of its components.
fn put_entry_front(
    frame: &mut Bytes,
    size: u32,
    epoch: u32,
    threads: u32,
    entry: &StampedEntry,
) -> Result<(), NoMemory>
    requires of_these { entry.now.thread < threads }
    requires few { threads ≤ 16 }
    requires none { (u : ℕ) → threads ≤ u → slice_index entry.now.stamp u ≡ 0 }
    ensures spelled { OnOk result (frame.new
        ≡ spelled (entry_front size epoch threads entry.now) ++ frame.old) }
    ensures number { OnOk result (entry.now.number < 2 ^ 64) }
    ensures fits { FitsWord entry.now.what }
{
    let (code, subject, place) = numbers_of(entry.what);
    let thread = entry.thread as u8;
    put_mask(frame, threads as u8, &entry.stamp)?;
    put_u64(frame, place)?;
    put_subject(frame, epoch, thread, code, entry.number, subject)?;
    put_kind(frame, Kind::Log, size)
}

/// Puts the fields of an output that stand in front of its components.
fn put_output_front(
    frame: &mut Bytes,
    size: u32,
    epoch: u32,
    threads: u32,
    output: &Output,
) -> Result<(), NoMemory>
    requires of_these { output.now.thread < threads }
    requires few { threads ≤ 16 }
    requires none { (u : ℕ) → threads ≤ u → slice_index output.now.stamp u ≡ 0 }
    ensures spelled { OnOk result (frame.new
        ≡ spelled (output_front size epoch threads output.now) ++ frame.old) }
    ensures number { OnOk result (output.now.number < 2 ^ 64) }
    ensures input { OnOk result (output.now.input < 2 ^ 64) }
{
    let thread = output.thread as u8;
    put_mask(frame, threads as u8, &output.stamp)?;
    put_subject(frame, epoch, thread, 0, output.number, output.input)?;
    put_kind(frame, Kind::Out, size)
}

/// The first byte of a frame of this kind.
fn code_of_kind(kind: Kind) -> u8
    ensures { result ≡ kind_code kind }
{
    match kind {
        Kind::Log => 1,
        Kind::Out => 2,
    }
}

/// Puts the fields that tell the kind, the version and the length. Like all that follow it is put in front of what the
/// frame has so far, since a frame is written from its end, and in one piece, since a frame has many fields.
fn put_kind(frame: &mut Bytes, kind: Kind, size: u32) -> Result<(), NoMemory>
    ensures { OnOk result (frame.new
        ≡ spelled (field 1 (kind_code kind) ∷ field 1 2 ∷ field 4 size ∷ []) ++ frame.old) }
{
    let version = 2;
    let [l0, l1, l2, l3] = size.to_be_bytes();
    frame.prepend(&[code_of_kind(kind), version, l0, l1, l2, l3])
}

/// Puts the fields that tell whose entry or output it is, and what it did.
fn put_subject(
    frame: &mut Bytes,
    epoch: u32,
    thread: u8,
    code: u8,
    number: u64,
    subject: u64,
) -> Result<(), NoMemory>
    ensures { OnOk result (frame.new ≡ spelled
        (field 4 epoch ∷ field 1 thread ∷ field 1 code ∷ field 8 number ∷ field 8 subject ∷ [])
        ++ frame.old) }
{
    let [e0, e1, e2, e3] = epoch.to_be_bytes();
    let [n0, n1, n2, n3, n4, n5, n6, n7] = number.to_be_bytes();
    let [s0, s1, s2, s3, s4, s5, s6, s7] = subject.to_be_bytes();
    frame.prepend(&[
        e0, e1, e2, e3, thread, code, n0, n1, n2, n3, n4, n5, n6, n7, s0, s1, s2, s3, s4, s5, s6,
        s7,
    ])
}

/// Puts the number of threads, and whose components are not 0.
fn put_mask(frame: &mut Bytes, threads: u8, stamp: &Stamp) -> Result<(), NoMemory>
    requires few { threads ≤ 16 }
    requires none { (u : ℕ) → threads ≤ u → slice_index stamp.now u ≡ 0 }
    ensures { OnOk result (frame.new
        ≡ spelled (field 1 threads ∷ field 2 (mask_of stamp.now) ∷ []) ++ frame.old) }
{
    let [high, low] = mask_of(stamp, usize::from(threads)).to_be_bytes();
    frame.prepend(&[threads, high, low])
}

/// Puts the fields of a packet that stand in front of its captured bytes, which are the frame so far.
fn put_packet_fields(frame: &mut Bytes, packet: &Packet) -> Result<(), NoMemory>
    requires { length frame.old ≤ MOST_CAPTURED }
    ensures spelled { OnOk result (frame.new
        ≡ spelled (packet_fields (record packet.now { bytes = frame.old })) ++ frame.old) }
    ensures seconds { packet.now.seconds < 2 ^ 32 }
    ensures fraction { packet.now.fraction < 2 ^ 32 }
    ensures original { packet.now.original < 2 ^ 32 }
{
    let (seconds, fraction, original) = (packet.seconds, packet.fraction, packet.original);
    let captured = frame.len() as u32;
    let [s0, s1, s2, s3] = seconds.to_be_bytes();
    let [f0, f1, f2, f3] = fraction.to_be_bytes();
    let [o0, o1, o2, o3] = original.to_be_bytes();
    let [c0, c1, c2, c3] = captured.to_be_bytes();
    frame.prepend(&[
        s0, s1, s2, s3, f0, f1, f2, f3, o0, o1, o2, o3, c0, c1, c2, c3,
    ])
}

/// Puts the components that are not 0. Only this many are looked at.
fn put_components(frame: &mut Bytes, components: &[u32], count: usize) -> Result<(), NoMemory>
    requires few { count ≤ length components.now }
    requires none { (u : ℕ) → count ≤ u → slice_index components.now u ≡ 0 }
    ensures spelled { OnOk result (frame.new
        ≡ spelled (component_fields (nonzero components.now)) ++ frame.old) }
    ensures fit { (u : ℕ) → slice_index components.now u < 2 ^ 32 }
{
    for behind in 0..count {
        put_component(frame, components[count - 1 - behind])?;
    }
    Ok(())
}

/// Puts the component, if it is not 0.
fn put_component(frame: &mut Bytes, component: u32) -> Result<(), NoMemory>
    ensures { OnOk result (frame.new
        ≡ spelled (component_fields (nonzero (component ∷ []))) ++ frame.old) }
{
    if component == 0 {
        return Ok(());
    }
    put_u64(frame, u64::from(component))
}

/// Puts a number of 64 bits.
fn put_u64(frame: &mut Bytes, value: u64) -> Result<(), NoMemory>
    ensures { OnOk result (frame.new ≡ spelled (field 8 value ∷ []) ++ frame.old) }
{
    frame.prepend(&value.to_be_bytes())
}
