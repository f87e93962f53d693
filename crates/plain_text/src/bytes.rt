ghost use Rattle.std.specs.Prelude.{◌≡◌, ◌≤◌, ◌↔◌, ◌++◌, ◌∷◌, [], length, take, drop, replicate};
ghost use Rattle.std.specs.Prelude.{IsTrue, IfOk, OnOk, OnErr};

use crate::{HEADER_ROOM, NoMemory};
use std::alloc::Global;
use std::marker::Model;

/// Bytes that can grow, with the allocator that they grow by. Contracts see them as their list.
///
/// There may be room in front of them, into which other bytes are put without an allocation and without moving these: a
/// packet that goes out becomes a frame in place.
#[derive(Debug, Drop)]
pub struct Bytes {
    buffer: Vec<u8>,
    /// The room in front: where in the buffer the bytes begin.
    start: usize,
}

impl Model for Bytes {
    ghost use Rattle.std.specs.Prelude.{◌≤◌, List, ℕ, drop, length};

    ghost Value = { List ℕ };

    ghost view = { λ b. drop b.start b.buffer.items };

    ghost invariant = { λ b. b.start ≤ length b.buffer.items };
}

/// A copy of these bytes behind this much room, of zeros: what `Bytes::from_vec_at` takes.
pub fn copy_with_room(alloc: Global, room: usize, bytes: &[u8]) -> Result<Vec<u8>, NoMemory>
    ensures { IfOk result (λ copy. copy.items ≡ replicate room 0 ++ bytes.now) }
{
    let mut copy = Vec::with_capacity(alloc, room.saturating_add(bytes.len()))?;
    put_zeros(&mut copy, room)?;
    copy.extend_from_slice(bytes)?;
    Ok(copy)
}

/// What stands in the room of a packet that is to go out.
static ZEROS: [u8; HEADER_ROOM] = [0; HEADER_ROOM];

/// Puts as many zeros into a vector that has nothing. Those of a header's room are copied as one piece, which is faster
/// than one by one.
fn put_zeros(copy: &mut Vec<u8>, room: usize) -> Result<(), NoMemory>
    requires { copy.old.items ≡ [] }
    ensures { OnOk result (copy.new.items ≡ replicate room 0) }
{
    if room == HEADER_ROOM {
        copy.extend_from_slice(&ZEROS)?;
    } else {
        copy.resize(room, 0)?;
    }
    Ok(())
}

impl Bytes {
    /// No bytes. It takes no memory.
    pub fn new(alloc: Global) -> Self
        ensures { result ≡ [] }
    {
        Bytes::from_vec(Vec::new(alloc))
    }

    /// A copy of these bytes.
    pub fn of(alloc: Global, bytes: &[u8]) -> Result<Self, NoMemory>
        ensures { IfOk result (λ copy. copy ≡ bytes.now) }
    {
        Ok(Bytes::from_vec(Vec::from_slice(alloc, bytes)?))
    }

    /// A copy of these bytes with this much room in front of them.
    pub fn with_room(alloc: Global, room: usize, bytes: &[u8]) -> Result<Self, NoMemory>
        ensures { IfOk result (λ copy. copy ≡ bytes.now) }
    {
        let buffer = copy_with_room(alloc, room, bytes)?;
        Ok(Bytes::from_vec_at(buffer, room))
    }

    /// The bytes of a vector. It takes no memory.
    pub fn from_vec(buffer: Vec<u8>) -> Self
        ensures { result ≡ buffer.items }
    {
        Bytes { buffer, start: 0 }
    }

    /// The bytes of a vector from this place on: what stands in front of them is room. It takes no memory.
    pub fn from_vec_at(buffer: Vec<u8>, start: usize) -> Self
        requires { start ≤ length buffer.items }
        ensures { result ≡ drop start buffer.items }
    {
        Bytes { buffer, start }
    }

    /// The vector of the bytes. It takes no memory, and moves them where there was room in front.
    pub fn into_vec(self) -> Vec<u8>
        ensures { result.items ≡ self }
    {
        let count = self.len();
        let start = self.start;
        let mut buffer = self.buffer;
        buffer.copy_within(start..start + count, 0);
        buffer.truncate(count);
        buffer
    }

    /// All bytes, without the room in front.
    pub fn as_slice(&self) -> &[u8]
        ensures { result.now ≡ self.now }
    {
        &self.buffer[self.start..]
    }

    /// How many bytes there are, without the room in front.
    pub fn len(&self) -> usize
        ensures { result ≡ length self.now }
    {
        self.buffer.len() - self.start
    }

    /// Whether there are none, whatever room stands in front.
    pub fn is_empty(&self) -> bool
        ensures { IsTrue result ↔ (self.now ≡ []) }
    {
        self.len() == 0
    }

    /// Appends one byte.
    pub fn push(&mut self, byte: u8) -> Result<(), NoMemory>
        ensures ok { OnOk result (self.new ≡ self.old ++ byte ∷ []) }
        ensures err { OnErr result (self.new ≡ self.old) }
    {
        self.buffer.push(byte)?;
        Ok(())
    }

    /// Appends these bytes.
    pub fn extend(&mut self, bytes: &[u8]) -> Result<(), NoMemory>
        ensures ok { OnOk result (self.new ≡ self.old ++ bytes.now) }
        ensures err { OnErr result (self.new ≡ self.old) }
    {
        self.buffer.extend_from_slice(bytes)?;
        Ok(())
    }

    /// Puts these bytes in front: where there is room for them, without an allocation.
    pub fn prepend(&mut self, bytes: &[u8]) -> Result<(), NoMemory>
        ensures ok { OnOk result (self.new ≡ bytes.now ++ self.old) }
        ensures err { OnErr result (self.new ≡ self.old) }
    {
        if bytes.len() > self.start {
            return self.move_behind(bytes);
        }
        let start = self.start - bytes.len();
        self.buffer[start..self.start].copy_from_slice(bytes);
        self.start = start;
        Ok(())
    }

    /// Moves the bytes to a buffer of their own, behind these.
    fn move_behind(&mut self, bytes: &[u8]) -> Result<(), NoMemory>
        ensures ok { OnOk result (self.new ≡ bytes.now ++ self.old) }
        ensures err { OnErr result (self.new ≡ self.old) }
    {
        let mut joined = Bytes::of(*self.buffer.allocator(), bytes)?;
        joined.extend(self.as_slice())?;
        *self = joined;
        Ok(())
    }

    /// Keeps the first bytes, at most this number. It takes no memory.
    pub fn truncate(&mut self, count: usize)
        ensures { self.new ≡ take count self.old }
    {
        self.buffer.truncate(self.start.saturating_add(count));
    }
}
