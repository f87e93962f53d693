//! The moves of one thread, each made with the thread's part and, where it is of a variable, that variable's part, and
//! with nothing else of a master: so a master makes them, and so do threads that race. A call may be made where its
//! move is the thread's next one; where it runs out of memory, both parts are unchanged.
ghost use Rattle.std.specs.Prelude.{◌≡◌, ℕ, ◌+◌, ◌<◌, ◌^◌, IfOk, OnErr};
ghost use Rattle.plain_machine.specs.declared.local.Move.TheVariants as move_is;
ghost use Rattle.master_core.specs.Mastered.{moves_made};
ghost use Rattle.master_core.specs.Effects.{after_take, after_emit, after_end, next_output};
ghost use Rattle.master_core.specs.Effects.{TouchesParts, ReadsParts, HearsPart};

use crate::effects::{log_entry, next_number};
use crate::{ThreadPart, VarPart};
use access_log::{Output, StampedEntry, What};
use box_program::Program;
use plain_machine::Local;
use plain_text::{NoMemory, Packet};
use std::alloc::Global;
use thread_clock::Stamp;

/// Takes this packet as the thread's next input. The answer is the input's number, from 1.
pub fn take<P: Program>(program: &P, part: &mut ThreadPart, packet: &Packet) -> u64
    requires { moves_made part.old < 2 ^ 56 }
    ensures number { result ≡ part.old.counts.taken + 1 }
    ensures part { part.new ≡ after_take part.old ((P.meaning program.now).begin packet.now) }
{
    part.counts.taken += 1;
    part.hand = Some(program.begin(packet.bytes.as_slice(), packet.original));
    part.counts.taken
}

/// Touches this variable, with the packet in hand at this place. The answer is the entry, with its place and its stamp.
/// On `NoMemory` both parts are unchanged; it comes, too, where the thread logged 2^32 - 1 entries.
pub fn touch<P: Program>(
    alloc: Global,
    program: &P,
    thread: u32,
    part: &mut ThreadPart,
    mut place: Local,
    var: u32,
    variable: &mut VarPart<P::Value>,
) -> Result<StampedEntry, NoMemory>
    requires thread_in { thread < 16 }
    requires next { (P.meaning program.now).next place ≡ move_is.Access var }
    requires fits { P.fits program.now var variable.old.value }
    requires room { moves_made part.old < 2 ^ 56 }
    requires places { variable.old.places + 1 < 2 ^ 64 }
    ensures touched { IfOk result (λ entry. TouchesParts (P.meaning program.now) thread var place
        part.old variable.old entry part.new variable.new) }
    ensures part_stays { OnErr result (part.new ≡ part.old) }
    ensures variable_stays { OnErr result (variable.new ≡ variable.old) }
{
    let number = next_number(part)?;
    program.touch(alloc, var, &mut variable.value, &mut place)?;
    let mut join = part.stamp;
    join.join(&variable.stamp);
    join.join(&variable.readers);
    variable.places += 1;
    let what = What::Access {
        var,
        place: variable.places,
    };
    let entry = log_entry(part, thread, number, place, what, join);
    variable.stamp = entry.stamp;
    variable.readers = Stamp::zero();
    Ok(entry)
}

/// Reads this variable, with the packet in hand at this place: its value stays. The answer is the entry, with its
/// stamp. `NoMemory`, which leaves both parts unchanged, comes only where the thread logged 2^32 - 1 entries.
pub fn look<P: Program>(
    program: &P,
    thread: u32,
    part: &mut ThreadPart,
    mut place: Local,
    var: u32,
    variable: &mut VarPart<P::Value>,
) -> Result<StampedEntry, NoMemory>
    requires thread_in { thread < 16 }
    requires fits { P.fits program.now var variable.old.value }
    requires room { moves_made part.old < 2 ^ 56 }
    ensures looked { IfOk result (λ entry. ReadsParts (P.meaning program.now) thread var place
        part.old variable.old entry part.new variable.new) }
    ensures part_stays { OnErr result (part.new ≡ part.old) }
    ensures variable_stays { OnErr result (variable.new ≡ variable.old) }
{
    let number = next_number(part)?;
    program.look(var, &variable.value, &mut place);
    let mut join = part.stamp;
    join.join(&variable.stamp);
    let what = What::Read {
        var,
        after: variable.places,
    };
    let entry = log_entry(part, thread, number, place, what, join);
    variable.readers.join(&entry.stamp);
    Ok(entry)
}

/// Is told this answer, with the packet in hand at this place. The answer is the entry, of this content, with its
/// stamp. `NoMemory`, which leaves the part unchanged, comes only where the thread logged 2^32 - 1 entries.
pub fn hear<P: Program>(
    program: &P,
    thread: u32,
    part: &mut ThreadPart,
    mut place: Local,
    what: What,
    answer: u64,
) -> Result<StampedEntry, NoMemory>
    requires thread_in { thread < 16 }
    requires room { moves_made part.old < 2 ^ 56 }
    ensures told { IfOk result (λ entry.
        HearsPart (P.meaning program.now) thread what answer place part.old entry part.new) }
    ensures part_stays { OnErr result (part.new ≡ part.old) }
{
    let number = next_number(part)?;
    program.told(answer, &mut place);
    let join = part.stamp;
    Ok(log_entry(part, thread, number, place, what, join))
}

/// Sends out what the program makes of the packet in hand, at this place. On `NoMemory` the part is unchanged.
pub fn emit<P: Program>(
    alloc: Global,
    program: &P,
    thread: u32,
    part: &mut ThreadPart,
    mut place: Local,
    packet: &Packet,
) -> Result<Output, NoMemory>
    requires next { (P.meaning program.now).next place ≡ move_is.Emit }
    requires room { moves_made part.old < 2 ^ 56 }
    ensures output { IfOk result (λ output. output ≡ next_output thread part.old packet.now
        ((P.meaning program.now).out packet.now place)) }
    ensures part { IfOk result (λ output. part.new
        ≡ after_emit part.old ((P.meaning program.now).emitted place)) }
    ensures part_stays { OnErr result (part.new ≡ part.old) }
{
    let frame = packet.bytes.as_slice();
    let bytes = program.packet_out(alloc, frame, packet.original, &place)?;
    program.emitted(&mut place);
    part.counts.outputs += 1;
    part.hand = Some(place);
    Ok(Output {
        thread,
        number: part.counts.outputs,
        input: part.counts.taken,
        stamp: part.stamp,
        packet: Packet {
            seconds: packet.seconds,
            fraction: packet.fraction,
            original: packet.original,
            bytes,
        },
    })
}

/// Ends the packet in hand. The answer is the number of its input.
pub fn end(part: &mut ThreadPart) -> u64
    ensures number { result ≡ part.old.counts.taken }
    ensures part { part.new ≡ after_end part.old }
{
    part.hand = None;
    part.counts.taken
}
