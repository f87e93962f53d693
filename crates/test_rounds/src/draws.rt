//! What the threads of rounds are told: free words of their own generators, and the time of the round, or what they
//! follow.
use crate::agreeing::{DRAWS, race_by};
use crate::asked::{Asked, NOTHING};
use crate::boxes::nat;
use crate::racing::Stage;
use crate::record::{Record, Told};
use plain_text::NoMemory;
use rand_core::utils::NextWord;
use rand_pcg::Pcg32;
use recovery_world::Event;
use std::alloc::Global;
use std::sync::Wait;
use std::test::Fail;
use std::thread::Threads;

/// A round at a time at which the mappings of the round before are no longer kept.
const LATER: Asked = Asked {
    time: 500_000_000,
    ..NOTHING
};

/// Two rounds, one after another.
const TWO_ROUNDS: [Stage; 4] = [
    Stage::Event(Event::Feed(100)),
    Stage::Round(NOTHING),
    Stage::Event(Event::Feed(100)),
    Stage::Round(LATER),
];

/// The same with a crash between them: the second round follows all that the first was told, and goes on.
const FOLLOWED: [Stage; 6] = [
    Stage::Event(Event::Feed(100)),
    Stage::Round(NOTHING),
    Stage::Event(Event::Crash),
    Stage::Event(Event::Recover),
    Stage::Event(Event::Feed(100)),
    Stage::Round(LATER),
];

/// The words that a thread was told in a round, or the times.
fn told_in(
    alloc: Global,
    told: &[Told],
    round: u32,
    thread: u32,
    word: bool,
) -> Result<Vec<u64>, NoMemory> {
    let mut values = Vec::new(alloc);
    for one in told {
        if one.round == round && one.thread == thread && one.word == word {
            values.push(one.value)?;
        }
    }
    Ok(values)
}

/// Whether these are some words, and the next ones of a generator.
fn are_next(generator: &mut Pcg32, words: &[u64]) -> bool {
    for word in words {
        if u64::from(generator.next_word()) != *word {
            return false;
        }
    }
    !words.is_empty()
}

/// Whether these are some times, and all this one.
fn are_all(times: &[u64], time: u64) -> bool {
    times.iter().all(|told| *told == time) && !times.is_empty()
}

/// What the second round told behind what it followed of the first. None where it followed anything else.
fn free_part<'a>(first: &[u64], second: &'a [u64], followed: bool) -> Option<&'a [u64]> {
    if followed {
        second.strip_prefix(first)
    } else {
        Some(second)
    }
}

/// Whether a thread was told the words of its generator in both rounds.
fn has_words(alloc: Global, told: &[Told], thread: u32, followed: bool) -> Result<bool, NoMemory> {
    let first = told_in(alloc, told, 1, thread, true)?;
    let second = told_in(alloc, told, 2, thread, true)?;
    let mut generator = Pcg32::new(DRAWS, 55 + u64::from(thread));
    let Some(free) = free_part(first.as_slice(), second.as_slice(), followed) else {
        return Ok(false);
    };
    Ok(are_next(&mut generator, first.as_slice()) && are_next(&mut generator, free))
}

/// Whether a thread was told the time of each round.
fn has_times(alloc: Global, told: &[Told], thread: u32, followed: bool) -> Result<bool, NoMemory> {
    let first = told_in(alloc, told, 1, thread, false)?;
    let second = told_in(alloc, told, 2, thread, false)?;
    let Some(free) = free_part(first.as_slice(), second.as_slice(), followed) else {
        return Ok(false);
    };
    Ok(are_all(first.as_slice(), NOTHING.time) && are_all(free, LATER.time))
}

/// Whether each of this number of threads was told what it is to be.
fn are_told(alloc: Global, told: &[Told], threads: u32, followed: bool) -> Result<bool, NoMemory> {
    for thread in 0..threads {
        if !has_words(alloc, told, thread, followed)?
            || !has_times(alloc, told, thread, followed)?
        {
            return Ok(false);
        }
    }
    Ok(true)
}

/// Whether the threads of a NAT are told what they are to be in two rounds, of which the second follows the first where
/// the master crashed between them.
fn nat_is_told<R: AllocGlobal + Threads + Wait + Sync>(
    rt: &R,
    threads: u32,
    followed: bool,
) -> Result<bool, NoMemory> {
    let alloc = rt.alloc();
    let mut record = Record::new(alloc);
    let stages: &[Stage] = if followed { &FOLLOWED } else { &TWO_ROUNDS };
    if race_by(rt, nat(), threads, 200, stages, &mut record).is_none() {
        return Ok(false);
    }
    are_told(alloc, record.told.as_slice(), threads, followed)
}

#[test]
fn words_go_on_from_round_to_round(rt: HostRuntime) -> Result<(), Fail> {
    for threads in 1..=4 {
        assert!(rt; nat_is_told(&rt, threads, false)?, "{threads}");
        assert!(rt; nat_is_told(&rt, threads, true)?, "{threads} followed");
    }
    Ok(())
}
