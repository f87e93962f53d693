ghost use Rattle.std.specs.Prelude.{ℕ, ◌<◌, ◌^◌};

use box_program::{CountBox, Move, PeekBox, Program};
use plain_text::{Bytes, NoMemory, Packet, Text};
use std::alloc::Global;
use std::test::Fail;

/// The low 32 bits are 2, 3, 4 and 4.
const BEFORE: u64 = 0x0001_0203_0404;

/// A packet of this number of bytes, each of them 9.
fn packet_of(alloc: Global, length: usize) -> Result<Packet, NoMemory> {
    Ok(Packet {
        seconds: 1,
        fraction: 2,
        original: 60,
        bytes: Bytes::from_vec(vec![in alloc; 9u8; length]?),
    })
}

/// What a program sends out that touches or reads one variable, sends out and ends; None where it does anything else.
fn sent_by<P: Program>(
    alloc: Global,
    program: &P,
    value: &mut P::Value,
    packet: &Packet,
) -> Result<Option<Bytes>, NoMemory>
    requires { (var : ℕ) → P.fits program.now var value.old }
{
    let frame = packet.bytes.as_slice();
    let mut local = program.begin(frame, packet.original);
    match program.next(&local) {
        Move::Access(var) => program.touch(alloc, var, value, &mut local)?,
        Move::Read(var) => program.look(var, value, &mut local),
        _ => return Ok(None),
    }
    match program.next(&local) {
        Move::Emit => {
            let sent = program.packet_out(alloc, frame, packet.original, &local)?;
            program.emitted(&mut local);
            match program.next(&local) {
                Move::End => Ok(Some(sent)),
                _ => Ok(None),
            }
        }
        _ => Ok(None),
    }
}

/// The text of a copy of this value, as variable 0 has it.
fn copy_shown<P: Program<Value = u64>>(
    alloc: Global,
    program: &P,
    value: u64,
) -> Result<Text, NoMemory>
    requires { (n : ℕ) → n < 2 ^ 64 → P.fits program.now 0 n }
{
    let copy = program.copy_value(alloc, 0, &value)?;
    program.show(alloc, 0, &copy)
}

/// Whether a packet of this number of bytes goes out with these first bytes, and as long as it was.
fn sends<P: Program>(
    alloc: Global,
    program: &P,
    value: &mut P::Value,
    length: usize,
    front: &[u8],
) -> Result<bool, NoMemory>
    requires { (var : ℕ) → P.fits program.now var value.old }
{
    let packet = packet_of(alloc, length)?;
    Ok(match sent_by(alloc, program, value, &packet)? {
        Some(sent) => sent.len() == length && sent.as_slice().starts_with(front),
        None => false,
    })
}

/// What a packet of this number of bytes does where the variable is `BEFORE`: the text of the value, and what goes out
/// begins with.
type Row = (usize, &'static str, &'static [u8]);

/// Whether a packet goes out so, and the value then has this text.
fn goes_well<P: Program<Value = u64>>(
    alloc: Global,
    program: &P,
    row: &Row,
) -> Result<bool, NoMemory>
    requires { (n : ℕ) → n < 2 ^ 64 → (var : ℕ) → P.fits program.now var n }
{
    let (length, text, front) = *row;
    let mut value = BEFORE;
    let sent = sends(alloc, program, &mut value, length, front)?;
    Ok(sent && copy_shown(alloc, program, value)?.as_str() == text)
}

/// Packets that count.
const COUNTED: [Row; 4] = [
    (42, "4328719365", b"\x09\x09\x02\x03\x04\x05\x09"),
    (7, "4328719365", b"\x09\x09\x02\x03\x04\x05\x09"),
    (6, "4328719365", b"\x09\x09\x02\x03\x04\x05"),
    (5, "4328719365", b"\x09\x09\x09\x09\x09"),
];

/// Packets that count, if their length is even, or read.
const PEEKED: [Row; 3] = [
    (42, "4328719365", b"\x09\x09\x02\x03\x04\x05\x09"),
    (7, "4328719364", b"\x09\x09\x02\x03\x04\x04\x09"),
    (5, "4328719364", b"\x09\x09\x09\x09\x09"),
];

/// Whether a program has one variable, which is 0 at first, and packets go out so.
fn all_go_well<P: Program<Value = u64>>(
    alloc: Global,
    program: &P,
    rows: &[Row],
) -> Result<bool, NoMemory>
    requires { (n : ℕ) → n < 2 ^ 64 → (var : ℕ) → P.fits program.now var n }
{
    for row in rows {
        if !goes_well(alloc, program, row)? {
            return Ok(false);
        }
    }
    Ok(program.vars() == 1 && program.fresh(alloc, 0)? == 0)
}

/// The one box shows the number to each packet, the other to packets of odd length without counting them.
#[test]
fn packets_are_counted_and_shown_the_number(rt: HostRuntime) -> Result<(), Fail> {
    assert!(rt; all_go_well(rt.alloc(), &CountBox::new(), &COUNTED)?);
    assert!(rt; all_go_well(rt.alloc(), &PeekBox::new(), &PEEKED)?);
    Ok(())
}
