//! The turns in which what racing threads did is woven.
use plain_text::{NoMemory, Sequence};
use round_order::{Marks, weave};
use std::alloc::Global;
use std::test::Fail;

/// The turns of two threads with these marks.
fn turns_of(
    alloc: Global,
    first: &[Option<u64>],
    second: &[Option<u64>],
) -> Result<Sequence<usize>, NoMemory> {
    let marks: [Marks; 2] = [
        Sequence::from_vec(Vec::from_slice(alloc, first)?),
        Sequence::from_vec(Vec::from_slice(alloc, second)?),
    ];
    weave(alloc, &marks)
}

/// Whether these are the turns of two threads with these marks.
fn are_woven(
    alloc: Global,
    first: &[Option<u64>],
    second: &[Option<u64>],
    turns: &[usize],
) -> Result<bool, NoMemory> {
    Ok(turns_of(alloc, first, second)?.as_slice() == turns)
}

/// Each thread takes a packet and touches a variable of its own: of two touches of weight 1 that of thread 0 stands
/// first. Where thread 1 counts first, and sends its packet out, its take and its touch stand first, and what it sent
/// out is left. What no logged move comes after stands last, thread by thread.
#[test]
fn moves_stand_by_weight(rt: HostRuntime) -> Result<(), Fail> {
    let alloc = rt.alloc();
    let apart = [None, Some(1)];
    assert!(rt; are_woven(alloc, &apart, &apart, &[0, 0, 1, 1])?);
    let (first, second) = ([None, Some(2)], [None, Some(1), None]);
    assert!(rt; are_woven(alloc, &first, &second, &[1, 1, 0, 0, 1])?);
    let (first, second) = ([None, None], [None, Some(5), Some(7), None]);
    assert!(rt; are_woven(alloc, &first, &second, &[1, 1, 1, 0, 0, 1])?);
    assert!(rt; are_woven(alloc, &[], &[], &[])?);
    Ok(())
}
