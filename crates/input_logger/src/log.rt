ghost use Rattle.std.specs.Prelude.{◌≡◌, ◌+◌, ◌<◌, ◌≤◌, [], length, slice_get, IfOk, OnOk, OnErr};
ghost use Rattle.std.specs.Option.{option_copied};
ghost use Rattle.input_logger.specs.Inputs.{thread_of, inputs_of, input_at, with_packet};

use crate::steer;
use std::alloc::Global;
use std::marker::Model;
use tagged_frames::{NoMemory, Packet, Packets, Sequence};

/// The packets that were fed, in order, and for each thread which of them are its inputs. Contracts see the number of
/// threads and the packets.
#[derive(Drop)]
pub struct InputLog {
    threads: u32,
    tags: bool,
    packets: Packets,
    places: Vec<Sequence<usize>>,
}

impl Model for InputLog {
    ghost use Rattle.input_logger.specs.Inputs.{Fed};
    ghost use Rattle.input_logger.specs.Places.{IsIndexed};

    ghost Value = { Fed };

    ghost view = { λ log. record { threads = log.threads; tags = log.tags; packets = log.packets } };

    ghost invariant = { λ log.
        IsIndexed (record { threads = log.threads; tags = log.tags; packets = log.packets })
        log.places.items };
}

impl InputLog {
    /// An empty log for 1 to 16 threads; `tags` says whether one tag is looked through.
    pub fn new(alloc: Global, threads: u32, tags: bool) -> Result<Self, NoMemory>
        requires some { 1 ≤ threads }
        requires few { threads ≤ 16 }
        ensures { IfOk result
            (λ log. log ≡ record { threads = threads; tags = tags; packets = [] }) }
    {
        let mut places = Vec::new(alloc);
        for _ in 0..threads {
            places.push(Sequence::new(alloc))?;
        }
        Ok(InputLog {
            threads,
            tags,
            packets: Packets::new(alloc),
            places,
        })
    }

    /// Takes the next packet, and answers whose input it is: the thread, and which of its inputs, from 1.
    pub fn feed(&mut self, packet: Packet) -> Result<(u32, u64), NoMemory>
        ensures ok { OnOk result (self.new ≡ with_packet self.old packet) }
        ensures thread { IfOk result (λ input. input.0
            ≡ thread_of self.old.tags packet self.old.threads) }
        ensures below { IfOk result (λ input. input.0 < self.old.threads) }
        ensures number { IfOk result (λ input. input.1 ≡ length (inputs_of self.old input.0) + 1) }
        ensures err { OnErr result (self.new ≡ self.old) }
    {
        let thread = steer(&packet, self.threads, self.tags);
        let place = self.packets.len();
        let places = &mut self.places[thread as usize];
        let earlier = places.len();
        places.push(place)?;
        let k = places.len() as u64;
        let Ok(()) = self.packets.push(packet) else {
            places.truncate(earlier);
            return Err(NoMemory);
        };
        Ok((thread, k))
    }

    /// Input `k` of a thread, from 1; `None` where no such input was fed.
    pub fn input(&self, thread: u32, k: u64) -> Option<&Packet>
        ensures { option_copied result ≡ input_at self.now thread k }
    {
        let places = item_at(&self.places, thread as usize)?;
        let earlier = k.checked_sub(1)?;
        let place = item_at(places.as_slice(), earlier as usize)?;
        item_at(self.packets.as_slice(), *place)
    }

    /// How many packets were fed.
    pub fn fed(&self) -> u64
        ensures { result ≡ length self.now.packets }
    {
        self.packets.len() as u64
    }

    /// Whether one tag is looked through.
    pub fn tags(&self) -> bool
        ensures { result ≡ self.now.tags }
    {
        self.tags
    }

    /// The number of threads, 1 to 16.
    pub fn threads(&self) -> u32
        ensures value { result ≡ self.now.threads }
        ensures some { 1 ≤ result }
        ensures few { result ≤ 16 }
    {
        self.threads
    }
}

/// The item at a place, if there is one.
fn item_at<T>(items: &[T], place: usize) -> Option<&T>
    ensures { option_copied result ≡ slice_get items.now place }
{
    items.get(place)
}
