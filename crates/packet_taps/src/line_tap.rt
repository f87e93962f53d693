ghost use Rattle.std.specs.Prelude.{◌≡◌, ◌++◌, ◌∷◌, [], ℕ, List, IfOk, take};
ghost use Rattle.plain_text.specs.declared.packet.Packet.{Packet};
ghost use Rattle.world_io.specs.Stream.{Rose};
ghost use Rattle.world_io.specs.World.{Start};
ghost use Rattle.packet_taps.specs.Lines.{Counts, MissedLine, SawLines, line_of};

use crate::PacketTap;
use plain_text::{Bytes, NoMemory, Packet, put_u64};
use release_taps::Shown;
use std::alloc::Global;
use std::marker::Model;
use world_io::{World, WorldSink, WriteError, write_all};

/// A tap that prints a line for each packet on the report of its own world: `SECONDS FRACTION LENGTH`, where the
/// fraction is as the packet has it and the length is that of the captured bytes.
///
/// On a report on which nothing stood it says that the lines of what it was shown stand there. Where printing fails, a
/// first part of a line may stand after them.
#[derive(Drop)]
pub struct LineTap<W> {
    alloc: Global,
    world: W,
    faults: u64,
    lacks: u64,
}

impl<W> Model for LineTap<W> {
    ghost use Rattle.packet_taps.specs.Lines.{Printing};

    ghost Value = { Printing W };

    ghost view = { λ t. record { world = t.world; faults = t.faults; lacks = t.lacks } };
}

impl<W: World + Drop> LineTap<W> {
    /// Prints on the report of this world, which is the tap's alone.
    pub fn of(alloc: Global, world: W) -> Self
        ensures { result ≡ record { world = world; faults = 0; lacks = 0 } }
    {
        LineTap {
            alloc,
            world,
            faults: 0,
            lacks: 0,
        }
    }

    /// The world on whose report it printed.
    pub fn into_world(self) -> W
        ensures { result ≡ self.world }
    {
        self.world
    }

    /// Prints the line of a packet, and counts why not.
    fn print(&mut self, packet: &Packet) -> Shown
        ensures counts { Counts result self.old self.new }
        ensures prints { (p : Start) → W.honest p self.new.world → result ≡ Shown.Took
            → (W.shows p self.new.world).sent 0
            ≡ (W.shows p self.old.world).sent 0 ++ line_of packet.now }
        ensures stops { (p : Start) → W.honest p self.new.world → ¬ (result ≡ Shown.Took)
            → (k : ℕ) × ((W.shows p self.new.world).sent 0
            ≡ (W.shows p self.old.world).sent 0 ++ take k (line_of packet.now)) }
        ensures cause { result ≡ Shown.Failed → Rose (W.ledger self.old.world).write_faults
            (W.ledger self.new.world).write_faults }
        ensures before { (p : Start) → W.honest p self.new.world → W.honest p self.old.world }
    {
        let shown = print_line(self.alloc, &mut self.world, packet);
        match shown {
            Shown::Took => {}
            Shown::Failed => self.faults = self.faults.saturating_add(1),
            Shown::NoMemory => self.lacks = self.lacks.saturating_add(1),
        }
        shown
    }
}

/// Prints the line of a packet on the report of a world.
fn print_line<W: World>(alloc: Global, world: &mut W, packet: &Packet) -> Shown
    ensures prints { (p : Start) → W.honest p world.new → result ≡ Shown.Took
        → (W.shows p world.new).sent 0 ≡ (W.shows p world.old).sent 0 ++ line_of packet.now }
    ensures stops { (p : Start) → W.honest p world.new → ¬ (result ≡ Shown.Took)
        → (k : ℕ) × ((W.shows p world.new).sent 0
        ≡ (W.shows p world.old).sent 0 ++ take k (line_of packet.now)) }
    ensures cause { result ≡ Shown.Failed
        → Rose (W.ledger world.old).write_faults (W.ledger world.new).write_faults }
    ensures before { (p : Start) → W.honest p world.new → W.honest p world.old }
{
    let Ok(line) = make_line(alloc, packet) else {
        return Shown::NoMemory;
    };
    let mut report = WorldSink::of(world, 0);
    match write_all(&mut report, line.as_slice()) {
        Ok(()) => Shown::Took,
        Err(WriteError::Failed(_)) => Shown::Failed,
        Err(WriteError::NoMemory(_)) => Shown::NoMemory,
    }
}

/// The line of a packet.
fn make_line(alloc: Global, packet: &Packet) -> Result<Bytes, NoMemory>
    ensures { IfOk result (λ line. line ≡ line_of packet.now) }
{
    let mut line = Bytes::new(alloc);
    put_u64(&mut line, u64::from(packet.seconds))?;
    line.push(b' ')?;
    put_u64(&mut line, u64::from(packet.fraction))?;
    line.push(b' ')?;
    put_u64(&mut line, packet.bytes.len() as u64)?;
    line.push(b'\n')?;
    Ok(line)
}

impl<W: World + Drop> PacketTap for LineTap<W> {
    ghost use Rattle.packet_taps.specs.Lines.{MissedLine, SawLines};

    ghost saw = { λ t packets. SawLines W.honest W.shows packets t };

    ghost missed = { λ t packets. MissedLine W.honest W.shows W.ledger packets t };

    ghost fault_count = { λ t. t.faults };

    ghost lack_count = { λ t. t.lacks };

    fn show(&mut self, packet: &Packet) -> Shown
        ensures took { result ≡ Shown.Took → (before : List Packet)
            → SawLines W.honest W.shows before self.old
            → SawLines W.honest W.shows (before ++ packet.now ∷ []) self.new }
        ensures misses { ¬ (result ≡ Shown.Took) → (before : List Packet)
            → SawLines W.honest W.shows before self.old
            → MissedLine W.honest W.shows W.ledger (before ++ packet.now ∷ []) self.new }
        ensures counts { Counts result self.old self.new }

        // Beyond any tap: what it prints.
        ensures prints { (p : Start) → W.honest p self.new.world → result ≡ Shown.Took
            → (W.shows p self.new.world).sent 0
            ≡ (W.shows p self.old.world).sent 0 ++ line_of packet.now }
    {
        self.print(packet)
    }

    fn faults(&self) -> u64 {
        self.faults
    }

    fn lacks(&self) -> u64 {
        self.lacks
    }
}
