ghost use Rattle.std.specs.Prelude.{◌≡◌, ℕ, ◌*◌, ◌+◌, ◌<◌, ◌≤◌, [], length, set, replicate, IfOk};
ghost use Rattle.std.specs.Prelude.{MatchOption};
ghost use Rattle.nat_tables.specs.Times.{never, time_at, earlier_of, AreFrom, IsFirstBefore};

use plain_text::NoMemory;
use std::alloc::Global;
use std::marker::Model;

/// The earlier one of each two neighbours.
#[cycle(times)]
#[derive(Debug, Drop)]
enum Pairs {
    /// There is at most one time.
    Alone,
    Of(Box<Times>),
}

/// Times, of which the first one before another time, from an index on, is found in as many steps as their number can
/// be halved.
/// Contracts see their list.
#[cycle(times)]
#[derive(Debug, Drop)]
pub(crate) struct Times {
    times: Vec<u64>,
    pairs: Pairs,
}

impl Model for Times {
    ghost use Rattle.std.specs.Prelude.{List, ℕ, length};

    ghost Value = { List ℕ };

    ghost use Rattle.nat_tables.specs.Times.{HasPairs};

    ghost view = { λ t. t.times.items };

    ghost invariant = { λ t. HasPairs t.pairs t.times.items };

    ghost size = { length };

    ghost use Rattle.nat_tables.specs.TimesFall.{pairs_are_fewer};

    ghost size_decreases = { λ t h. pairs_are_fewer t.pairs t.times.items h };
}

/// The time at an index, and past the end the last time that there is.
fn time_at(times: &Vec<u64>, at: usize) -> u64
    ensures { result ≡ time_at times.now.items at }
{
    match times.get(at) {
        Some(time) => *time,
        None => u64::MAX,
    }
}

/// The earlier one of two neighbours.
fn earlier_of(times: &Vec<u64>, pair: usize) -> u64
    requires { 2 * pair < length times.now.items }
    ensures { result ≡ earlier_of times.now.items pair }
{
    time_at(times, 2 * pair).min(time_at(times, 2 * pair + 1))
}

/// The index of the first one of two neighbours that is before this time, where one of them is.
fn first_of(times: &Vec<u64>, pair: usize, now: u64) -> usize
    requires { 2 * pair < length times.now.items }
    ensures left { time_at times.now.items (2 * pair) < now → result ≡ 2 * pair }
    ensures right { now ≤ time_at times.now.items (2 * pair) → result ≡ 2 * pair + 1 }
{
    if time_at(times, 2 * pair) < now {
        2 * pair
    } else {
        2 * pair + 1
    }
}

impl Times {
    /// No times. It takes no memory.
    pub(crate) fn new(alloc: Global) -> Self
        ensures { result ≡ [] }
    {
        Times {
            times: Vec::new(alloc),
            pairs: Pairs::Alone,
        }
    }

    /// So many times, each the last one that there is.
    pub(crate) fn all_never(alloc: Global, count: usize) -> Result<Self, NoMemory>
        ensures { IfOk result (λ times. times ≡ replicate count never) }
    {
        let times = vec![in alloc; u64::MAX; count]?;
        if count < 2 {
            return Ok(Times {
                times,
                pairs: Pairs::Alone,
            });
        }
        let pairs = Times::all_never(alloc, count / 2 + count % 2)?;
        Ok(Times {
            times,
            pairs: Pairs::Of(Box::new(alloc, pairs)?),
        })
    }

    /// How many times there are.
    pub(crate) fn len(&self) -> usize
        ensures { result ≡ length self.now }
    {
        self.times.len()
    }

    /// The time at an index, and past the end the last time that there is.
    fn time(&self, at: usize) -> u64
        ensures { result ≡ time_at self.now at }
    {
        time_at(&self.times, at)
    }

    /// Puts a time in the place of another.
    pub(crate) fn set(&mut self, at: usize, time: u64)
        requires { at < length self.old }
        ensures { self.new ≡ set self.old at time }
    {
        self.times[at] = time;
        if let Pairs::Of(pairs) = &mut self.pairs {
            let earlier = earlier_of(&self.times, at / 2);
            if pairs.time(at / 2) != earlier {
                pairs.set(at / 2, earlier);
            }
        }
    }

    /// As `set`. It changes nothing where there is no time at the index.
    pub(crate) fn note(&mut self, at: usize, time: u64)
        ensures { self.new ≡ set self.old at time }
    {
        if at < self.len() {
            self.set(at, time);
        }
    }

    /// The index of the first time before this one, from an index on. None exactly where there is none.
    pub(crate) fn first_before(&self, start: usize, now: u64) -> Option<usize>
        ensures { MatchOption result (AreFrom start now self.now)
            (λ at. IsFirstBefore start now self.now at) }
    {
        if time_at(&self.times, start) < now {
            return Some(start);
        }
        let Pairs::Of(pairs) = &self.pairs else {
            return None;
        };
        match pairs.first_before(start / 2 + start % 2, now) {
            Some(pair) => Some(first_of(&self.times, pair, now)),
            None => None,
        }
    }
}
