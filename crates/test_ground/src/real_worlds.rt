use plain_text::Text;
use std::marker::Sync;
use std::test::Fail;
use std::{env, fs, process};
use world_io::{
    Clock, FixedClock, Front, OpenFault, World, WorldSink, WorldSource, read_front, write_all,
};
use world_real::{RealClock, RealWorld, Silence};

const TEXT: &[u8] = b"two lines\nof bytes \xff\x00";

/// The first microsecond of 2020.
const YEAR_2020: u64 = 1_577_836_800_000_000;

/// The time by a clock that threads may share.
fn shared_time<C: Clock + Sync>(clock: &C) -> u64 {
    clock.now()
}

/// The name of a file that no other run of this test has.
fn own_name(rt: &HostRuntime) -> Result<Text, Fail> {
    let folder = env::temp_dir(rt)?;
    let number = process::id(rt.process());
    let path = format!(in rt.alloc(); "{}/world_real_{number}", folder.as_str())?;
    Ok(Text::of(rt.alloc(), path.as_str())?)
}

#[test]
fn a_file_reads_back_as_it_was_written(rt: HostRuntime) -> Result<(), Fail> {
    let alloc = rt.alloc();
    let name = own_name(&rt)?;
    let mut world = RealWorld::new(alloc, rt.clone()?, Silence);
    assert!(rt; matches!(world.open_file(&name), Err(OpenFault::Failed)));
    let created = world.create_file(&name)?;
    let wrote = write_all(&mut WorldSink::of(&mut world, created), TEXT);
    assert!(rt; wrote.is_ok());
    let opened = world.open_file(&name)?;
    assert_eq!(rt; (created, opened), (1, 2));
    let read = read_front(alloc, &mut WorldSource::of(&mut world, opened), 1_000);
    fs::remove_file(&rt, name.as_str())?;
    let Ok(Front::All(bytes)) = read else {
        panic!(rt; "not read");
    };
    assert_eq!(rt; bytes.as_slice(), TEXT);
    Ok(())
}

#[test]
fn threads_may_share_a_clock(rt: HostRuntime) -> Result<(), Fail> {
    assert_eq!(rt; shared_time(&FixedClock(7)), 7);
    let clock = RealClock::new(rt.clone()?);
    assert!(rt; shared_time(&clock) > YEAR_2020);
    Ok(())
}
