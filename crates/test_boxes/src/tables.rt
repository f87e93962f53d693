ghost use Rattle.std.specs.Prelude.{◌≤◌};

use nat_tables::{BoundPort, Endpoint, Find, Forward, Freed, Reverse, Segment};
use plain_text::NoMemory;
use std::alloc::Global;
use std::test::Fail;

/// An endpoint of 10.0.0.5.
fn endpoint(protocol: u8, port: u16) -> Endpoint {
    Endpoint {
        protocol,
        address: 0x0a00_0005,
        port,
    }
}

/// Binds 200 endpoints after one of TCP, and 200 others when they are idle. Answers whether each of those made room,
/// the first one first.
fn bind_again(table: &mut Forward) -> Result<bool, NoMemory> {
    table.find_or_bind(&endpoint(6, 1), 1, 0)?;
    for port in 0..200 {
        table.find_or_bind(&endpoint(17, port), port, 0)?;
    }
    let mut first = true;
    for port in 0..200 {
        let other = endpoint(17, 200 + port);
        let found = table.find(&other, 300_000_000);
        let freed = Freed { protocol: 17, port };
        first = first && found == Find::Absent(Some(freed));
        table.find_or_bind(&other, port, 300_000_000)?;
    }
    Ok(first)
}

/// Whether the mapping at the index is of this port.
fn stands(table: &Forward, index: usize, port: u16) -> bool {
    match table.entry(index) {
        Some(mapping) => mapping.key.port == port,
        None => false,
    }
}

/// Whether many idle mappings make room for others, and what is left is in the order in which it was bound.
fn ages(alloc: Global) -> Result<bool, NoMemory> {
    let mut table = Forward::new(alloc);
    let first = bind_again(&mut table)?;
    let none = table.find(&endpoint(17, 400), 300_000_000) == Find::Absent(None);
    let copy = table.copy()?;
    let ordered = stands(&copy, 0, 1) && stands(&copy, 1, 200) && stands(&copy, 200, 399);
    Ok(first && none && copy.len() == 201 && ordered)
}

/// A table with one TCP mapping, used at 0, whose connection is followed: each of these segments came from its inside
/// endpoint, one after another. Where the connection is not established its mapping is kept for 240 seconds.
fn followed(alloc: Global, segments: &[Segment]) -> Result<Forward, NoMemory> {
    let mut table = Forward::new(alloc);
    table.find_or_bind(&endpoint(6, 5000), 10, 0)?;
    for segment in segments {
        table.mark(&endpoint(6, 5000), 240, *segment);
    }
    Ok(table)
}

/// Whether the mapping is kept for so many microseconds without use, and no longer; a packet of another endpoint finds
/// it idle then.
fn is_kept_for(mut table: Forward, time: u64) -> bool
    requires { 1 ≤ time }
{
    let key = endpoint(6, 5000);
    let kept = table.lives(&key, 10, time - 1) && !table.lives(&key, 10, time);
    let other = endpoint(17, 1);
    let early = table.find(&other, time - 1) == Find::Absent(None);
    let freed = Freed {
        protocol: 6,
        port: 10,
    };
    kept && early && table.find(&other, time) == Find::Absent(Some(freed))
}

/// Whether a mapping after these segments is kept for so many microseconds.
fn keeps(alloc: Global, segments: &[Segment], time: u64) -> Result<bool, NoMemory>
    requires { 1 ≤ time }
{
    Ok(is_kept_for(followed(alloc, segments)?, time))
}

/// The bound port of this number, of UDP.
fn bound_port(port: u16) -> BoundPort {
    BoundPort {
        protocol: 17,
        port,
        key: endpoint(17, port),
    }
}

/// Whether ports that are bound and unbound in turns stay in the order in which they were bound.
fn keeps_order(alloc: Global) -> Result<bool, NoMemory> {
    let mut table = Reverse::new(alloc);
    for port in 0..400 {
        table.bind(17, port, &endpoint(17, port))?;
        if port >= 100 {
            table.unbind(17, port - 100);
        }
    }
    Ok(
        table.len() == 100
            && table.entry(0) == Some(bound_port(300))
            && table.entry(99) == Some(bound_port(399))
            && table.entry(100).is_none(),
    )
}

/// 240 seconds, and 7,440 seconds.
const SHORT: u64 = 240_000_000;

const LONG: u64 = 7_440_000_000;

#[test]
fn mappings_are_kept_by_their_segments(rt: HostRuntime) -> Result<(), Fail> {
    let alloc = rt.alloc();
    assert!(rt; keeps(alloc, &[], LONG)?);
    assert!(rt; keeps(alloc, &[Segment::Opens], SHORT)?);
    assert!(rt; keeps(alloc, &[Segment::Silent], SHORT)?);
    assert!(rt; keeps(alloc, &[Segment::Carries], LONG)?);
    assert!(rt; keeps(alloc, &[Segment::Opens, Segment::Carries], LONG)?);
    assert!(rt; keeps(alloc, &[Segment::Carries, Segment::Silent], LONG)?);
    assert!(rt; keeps(alloc, &[Segment::Carries, Segment::Closes], SHORT)?);
    let ended = [Segment::Carries, Segment::Closes, Segment::Carries];
    assert!(rt; keeps(alloc, &ended, SHORT)?);
    let again = [
        Segment::Carries,
        Segment::Closes,
        Segment::Opens,
        Segment::Carries,
    ];
    assert!(rt; keeps(alloc, &again, LONG)?);
    Ok(())
}

#[test]
fn tables_keep_their_order_as_they_age(rt: HostRuntime) -> Result<(), Fail> {
    assert!(rt; ages(rt.alloc())?);
    assert!(rt; keeps_order(rt.alloc())?);
    Ok(())
}
