use plain_text::{NoMemory, Text};
use release_taps::{MemoryTap, Shown, Tap};
use std::alloc::Global;
use world_io::{MemoryWorld, OpenFault};
use world_told::{Refused, ToldTap};

/// What a tap on a file came to, or why there is none.
type Made = Result<ToldTap<MemoryWorld>, Refused<MemoryWorld>>;

/// A tap on the file `copy` of an empty world, of whose calls of writing this one fails.
fn make_tap(alloc: Global, fails: Option<u64>) -> Result<Made, NoMemory> {
    let name = Text::of(alloc, "copy")?;
    let mut world = MemoryWorld::new(alloc)?;
    if let Some(nth) = fails {
        world.fail_write(nth)?;
    }
    Ok(ToldTap::create(world, &name))
}

/// What a tap answers to the second of two pieces.
fn show_two<T: Tap>(tap: &mut T) -> Shown {
    let _ = tap.show(b"ab");
    tap.show(b"cd")
}

/// Whether the file has these bytes after two pieces, and the second was answered so, in a world of whose calls of
/// writing this one fails.
fn writes(alloc: Global, fails: Option<u64>, bytes: &[u8], last: Shown) -> Result<bool, NoMemory> {
    let Ok(mut tap) = make_tap(alloc, fails)? else {
        return Ok(false);
    };
    let shown = show_two(&mut tap);
    let faults = tap.faults();
    let world = tap.world.into_inner();
    let same = world.bytes(&Text::of(alloc, "copy")?) == Some(bytes);
    Ok(same && shown == last && (faults == 0) == (last == Shown::Took))
}

/// Whether the world that refuses the file of a tap comes back.
fn is_refused(alloc: Global) -> Result<bool, NoMemory> {
    let Err(refused) = make_tap(alloc, Some(1))? else {
        return Ok(false);
    };
    let none = refused.world.bytes(&Text::of(alloc, "copy")?).is_none();
    Ok(none && refused.fault == OpenFault::Failed)
}

/// Whether taps of two types in boxes answer as they do without.
fn are_boxed(alloc: Global) -> Result<bool, NoMemory> {
    let Ok(tap) = make_tap(alloc, Some(3))? else {
        return Ok(false);
    };
    let mut lost: Box<dyn Tap> = Box::new(alloc, tap)?;
    let mut there: Box<dyn Tap> = Box::new(alloc, MemoryTap::new(alloc, None)?)?;
    let shown = (show_two(&mut lost), show_two(&mut there));
    Ok(shown == (Shown::Failed, Shown::Took) && lost.faults() == 1 && there.faults() == 0)
}

#[test]
fn a_tap_on_a_file_writes_what_it_is_shown(rt: HostRuntime) {
    assert!(rt; matches!(writes(rt.alloc(), None, b"abcd", Shown::Took), Ok(true)));
}

#[test]
fn a_tap_that_can_not_write_has_failed(rt: HostRuntime) {
    assert!(rt; matches!(writes(rt.alloc(), Some(3), b"ab", Shown::Failed), Ok(true)));
}

#[test]
fn a_file_that_is_refused_makes_no_tap(rt: HostRuntime) {
    assert!(rt; matches!(is_refused(rt.alloc()), Ok(true)));
}

#[test]
fn taps_of_two_types_stand_in_boxes(rt: HostRuntime) {
    assert!(rt; matches!(are_boxed(rt.alloc()), Ok(true)));
}
