ghost use Rattle.std.specs.Prelude.{◌≡◌, [], length, map, OnOk};
ghost use Rattle.release_taps.specs.Recorded.{AreUnused};

use plain_text::{NoMemory, Text};
use release_taps::{MemoryTap, Seat, Seating, Shown, Tap, TapWorld, Untapped};
use std::alloc::Global;
use std::marker::Brand;
use world_io::{MemoryWorld, World, WorldSink, write_all};

/// Adds a tap that fails past this many bytes.
fn add_tap(alloc: Global, taps: &mut Vec<MemoryTap>, fail_past: Option<u64>) -> Result<(), NoMemory>
    requires { AreUnused taps.old.items }
    ensures { OnOk result (AreUnused taps.new.items) }
{
    taps.push(MemoryTap::new(alloc, fail_past)?)?;
    Ok(())
}

/// Writes 40 bytes to a name in two pieces, and stops at a fault.
fn write_pieces<W: World>(world: &mut W, name: &Text) -> bool
    requires { (W.ledger world.old).given ≡ 0 }
{
    let Ok(file) = world.create_file(name) else {
        return false;
    };
    let mut sink = WorldSink::of(world, file);
    write_all(&mut sink, &[1; 20]).is_ok() && write_all(&mut sink, &[2; 20]).is_ok()
}

/// What is left of these taps after the writing.
fn tapped<S: Seating>(
    alloc: Global,
    world: MemoryWorld,
    name: Text,
    taps: Vec<MemoryTap>,
) -> Result<Untapped<MemoryWorld, MemoryTap>, NoMemory>
    requires empty { length world.files ≡ 0 }
    requires fresh { AreUnused taps.items }
    requires name { name ≡ S.file_name }
    requires count { length taps.items ≡ S.seat_count }
    requires labels { map (λ _. []) taps.items ≡ S.labels }
{
    let asked = Text::of(alloc, name.as_str())?;
    let Ok(mut world) = TapWorld::<MemoryWorld, MemoryTap, S>::new(alloc, world, name, taps) else {
        return Err(NoMemory);
    };
    let _ = write_pieces(&mut world, &asked);
    Ok(world.part())
}

/// What is left of taps on "out".
fn untapped(
    alloc: Global,
    world: MemoryWorld,
    taps: Vec<MemoryTap>,
) -> Result<Untapped<MemoryWorld, MemoryTap>, NoMemory>
    requires empty { length world.files ≡ 0 }
    requires fresh { AreUnused taps.items }
{
    let name = Text::of(alloc, "out")?;
    tapped::<Brand>(alloc, world, name, taps)
}

/// Whether the tap of this place saw so many bytes, and answered this last.
fn has_seen(seats: &[Seat<MemoryTap>], place: usize, count: usize, last: Shown) -> bool {
    match seats.get(place) {
        Some(seat) => seat.tap.bytes().len() == count && seat.last == last,
        None => false,
    }
}

/// Whether a tap with no limit saw all, and one that fails past 30 bytes was lost at the second piece.
fn loses_one(alloc: Global) -> Result<bool, NoMemory> {
    let mut taps = Vec::new(alloc);
    add_tap(alloc, &mut taps, None)?;
    add_tap(alloc, &mut taps, Some(30))?;
    let rest = untapped(alloc, MemoryWorld::new(alloc)?, taps)?;
    let faults = rest.seats.get(1).map(|seat| seat.tap.faults());
    Ok(
        faults == Some(1)
            && has_seen(&rest.seats, 0, 40, Shown::Took)
            && has_seen(&rest.seats, 1, 20, Shown::Failed),
    )
}

/// Whether a tap saw nothing in a world whose second call of writing fails.
fn sees_nothing(alloc: Global) -> Result<bool, NoMemory> {
    let mut taps = Vec::new(alloc);
    add_tap(alloc, &mut taps, None)?;
    let mut world = MemoryWorld::new(alloc)?;
    world.fail_write(2)?;
    let rest = untapped(alloc, world, taps)?;
    Ok(has_seen(&rest.seats, 0, 0, Shown::Took))
}

#[test]
fn a_tap_that_fails_is_lost_alone(rt: HostRuntime) {
    assert!(rt; matches!(loses_one(rt.alloc()), Ok(true)));
}

#[test]
fn what_was_not_written_is_not_shown(rt: HostRuntime) {
    assert!(rt; matches!(sees_nothing(rt.alloc()), Ok(true)));
}
