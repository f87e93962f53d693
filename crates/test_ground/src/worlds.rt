ghost use Rattle.std.specs.Prelude.{◌≡◌, ◌<◌, length};

use plain_text::{Bytes, NoMemory, Text};
use std::alloc::Global;
use world_io::{
    BufferedSource, Filled, Front, FrontError, MemoryWorld, OpenFault, SliceSource, Source, World,
    WorldSink, WorldSource, WriteError, read_front, write_all,
};

/// The bytes of a slice, and how often they were asked for.
#[derive(Drop)]
struct Counting<'a> {
    below: SliceSource<'a>,
    calls: u64,
}

impl<'a> Source for Counting<'a> {
    ghost use Rattle.std.specs.Prelude.{◌≡◌, ◌++◌, true, ⊤, refl};
    ghost use Rattle.std.proofs.Common.{◌∙◌, sym, ap, append_assoc};

    ghost honest = { λ _ _. ⊤ };

    ghost remains = { λ _ s. s.below };

    ghost faults = { λ _. 0 };

    ghost healthy = { λ _. ⊤ };

    ghost reads = { λ a taken b. a.below ≡ taken ++ b.below };

    ghost reads_nothing = { λ _. refl };

    ghost reads_more = { λ a b c first more r s.
        r ∙ ap (λ l. first ++ l) s ∙ sym (append_assoc first more c.below) };

    ghost reads_before = { λ _ _ _ _ _ _. tt };

    ghost reads_shown = { λ _ a b taken _ r. r };

    fn fill(&mut self, piece: &mut [u8]) -> Filled {
        self.calls = self.calls.wrapping_add(1);
        self.below.fill(piece)
    }
}

/// The first bytes of a name, up to a limit.
fn read_front_of<W: World>(
    alloc: Global,
    world: &mut W,
    name: &Text,
    limit: u64,
) -> Result<Front, FrontError>
    requires { (W.ledger world.old).given < 1000 }
{
    match world.open_file(name) {
        Ok(file) => read_front(alloc, &mut WorldSource::of(world, file), limit),
        Err(OpenFault::Failed) => Err(FrontError::Failed),
        Err(OpenFault::NoMemory) => Err(FrontError::NoMemory),
    }
}

/// Writes bytes to a name.
fn write_name<W: World>(world: &mut W, name: &Text, bytes: &[u8]) -> Result<(), WriteError>
    requires { (W.ledger world.old).given < 1000 }
{
    match world.create_file(name) {
        Ok(file) => write_all(&mut WorldSink::of(world, file), bytes),
        Err(OpenFault::Failed) => Err(WriteError::Failed(0)),
        Err(OpenFault::NoMemory) => Err(WriteError::NoMemory(0)),
    }
}

/// Sets the bytes of the name "in", which is answered, to "hello".
fn add_hello(alloc: Global, world: &mut MemoryWorld) -> Result<Text, NoMemory>
    ensures { length world.new.files ≡ length world.old.files }
{
    let name = Text::of(alloc, "in")?;
    world.add(&name, Bytes::of(alloc, b"hello")?)?;
    Ok(name)
}

/// What is read of "hello": its first bytes, and whether they are all, or nothing where reading fails.
type Beginning = Option<(&'static str, bool)>;

/// A call of reading that is told to fail, a limit, and what is read up to it. The tenth call is never made. Where the
/// file is longer than the limit, its end is not looked for.
const FRONTS: [(u64, u64, Beginning); 9] = [
    (10, 6, Some(("hello", true))),
    (10, 5, Some(("hello", true))),
    (10, 4, Some(("hell", false))),
    (10, 0, Some(("", false))),
    (1, 10, None),
    (2, 10, None),
    (3, 10, None),
    (4, 10, Some(("hello", true))),
    (3, 4, Some(("hell", false))),
];

/// Whether this is what is read.
fn is_front(front: Result<Front, FrontError>, wanted: Beginning) -> bool {
    match (front, wanted) {
        (Ok(Front::All(bytes)), Some((text, true))) => bytes.as_slice() == text.as_bytes(),
        (Ok(Front::More(bytes)), Some((text, false))) => bytes.as_slice() == text.as_bytes(),
        (Err(FrontError::Failed), None) => true,
        _ => false,
    }
}

/// Whether this is read of "in" in a world.
fn begins_in(
    alloc: Global,
    world: &mut MemoryWorld,
    nth: u64,
    limit: u64,
    wanted: Beginning,
) -> Result<bool, NoMemory>
    requires { length world.old.files ≡ 0 }
{
    let name = add_hello(alloc, world)?;
    world.fail_read(nth)?;
    Ok(is_front(read_front_of(alloc, world, &name, limit), wanted))
}

/// Whether it is in a world of its own.
fn begins(alloc: Global, nth: u64, limit: u64, wanted: Beginning) -> Result<bool, NoMemory> {
    let mut world = MemoryWorld::new(alloc)?;
    begins_in(alloc, &mut world, nth, limit, wanted)
}

#[test]
fn reads_the_first_bytes_or_fails(rt: HostRuntime) {
    for (nth, limit, wanted) in &FRONTS {
        let begins = begins(rt.alloc(), *nth, *limit, *wanted);
        assert!(rt; matches!(begins, Ok(true)), "call {nth} and limit {limit}");
    }
}

/// How many bytes "out" has in a world after it was written, where this call of writing is told to fail.
fn written_length_in(
    alloc: Global,
    world: &mut MemoryWorld,
    nth: u64,
) -> Result<Option<usize>, NoMemory>
    requires { length world.old.files ≡ 0 }
{
    add_hello(alloc, world)?;
    world.fail_write(nth)?;
    let name = Text::of(alloc, "out")?;
    let _ = write_name(world, &name, b"bye");
    Ok(world.bytes(&name).map(|bytes| bytes.len()))
}

/// How many it has in a world of its own.
fn written_length(alloc: Global, nth: u64) -> Result<Option<usize>, NoMemory> {
    let mut world = MemoryWorld::new(alloc)?;
    written_length_in(alloc, &mut world, nth)
}

/// Calls of writing that are told to fail, and how many bytes "out" has then.
const FAILED_WRITES: [(u64, Option<usize>); 3] = [(1, None), (2, Some(0)), (3, Some(3))];

#[test]
fn fails_where_writing_is_told_to(rt: HostRuntime) {
    for (nth, length) in &FAILED_WRITES {
        let written = written_length(rt.alloc(), *nth);
        assert!(rt;
            matches!(written, Ok(have) if have == *length),
            "call {nth}"
        );
    }
}

/// How many bytes a source gives in pieces of 16, up to its end.
fn count_bytes<S: Source>(source: &mut S) -> u64 {
    let mut piece = [0u8; 16];
    let mut taken = 0u64;
    for _ in 0..1_000 {
        match source.fill(&mut piece) {
            Filled::Got(count) => taken = taken.saturating_add(count as u64),
            Filled::End | Filled::Failed => break,
        }
    }
    taken
}

/// How many bytes are taken of these through a buffer of 256 bytes, and how often they are asked for.
fn take_through(alloc: Global, bytes: &[u8]) -> Result<(u64, u64), NoMemory> {
    let buffer = vec![in alloc; 0u8; 256]?;
    let below = Counting {
        below: SliceSource::of(bytes),
        calls: 0,
    };
    let mut source = BufferedSource::of(below, buffer);
    let taken = count_bytes(&mut source);
    Ok((taken, source.into_inner().calls))
}

/// Four calls give bytes, and a fifth the end.
#[test]
fn asks_for_large_pieces(rt: HostRuntime) {
    assert!(rt; matches!(take_through(rt.alloc(), &[7u8; 1_000]), Ok((1_000, 5))));
}
