ghost use Rattle.std.specs.Prelude.{◌≡◌, false, List, ℕ, length, map, IfErr, IfOk};
ghost use Rattle.release_taps.specs.Mirrored.{IsMirroring, after_create, mirrored_part};
ghost use Rattle.release_taps.specs.Seats.{AllFresh, labels_of};
ghost use Rattle.world_io.specs.Stream.{PutCount, put_bytes};

use crate::Tap;
use crate::seat::{Seat, seat_all, show_each};
use plain_text::Text;
use std::alloc::Global;
use std::marker::{Brand, PhantomData};
use world_io::{Filled, OpenFault, Put, World};

/// The name of a mirrored file and the number of its taps, which contracts know of a tapped world
/// whatever code had it in hand. A caller picks them by calling at `Brand`.
pub trait Seating {
    ghost file_name: { List ℕ };

    ghost seat_count: { ℕ };

    ghost labels: { List (List ℕ) };
}

impl Seating for Brand {
    ghost use Rattle.std.specs.Prelude.{[]};

    ghost file_name = { [] };

    ghost seat_count = { 0 };

    ghost labels = { [] };
}

/// A world round another one that shows each tap the bytes which the mirrored file took: the first
/// file that is created under the name.
///
/// It answers what the world below does, whatever becomes of the taps.
#[derive(Drop)]
pub struct TapWorld<W: World, T: Tap, S: Seating> {
    pub world: W,
    pub name: Text,
    /// The mirrored file, from its creation on.
    pub mirrored: Option<u32>,
    /// The taps, in the order in which they are shown bytes. Each keeps its seat when it is lost.
    pub seats: Vec<Seat<T>>,
    of: PhantomData<S>,
    ghost mirrors: { IsMirroring W.honest W.shows W.ledger T.tells T.seen T.fault_count T.lack_count
        name mirrored world seats.items },
    ghost same_name: { name ≡ S.file_name },
    ghost same_count: { length seats.items ≡ S.seat_count },
    ghost same_labels: { labels_of T.label seats.items ≡ S.labels },
}

/// What is left when the taps are taken off.
#[derive(Drop)]
pub struct Untapped<W, T> {
    pub world: W,
    /// The mirrored file, if it was created.
    pub mirrored: Option<u32>,
    /// Each tap in the seat that it was given: it is there, or lost.
    pub seats: Vec<Seat<T>>,
}

impl<W: World + Drop, T: Tap, S: Seating> TapWorld<W, T, S> {
    /// Seats the taps, in order. After want of memory the taps are gone, and the world is given back.
    pub fn new(alloc: Global, world: W, name: Text, taps: Vec<T>) -> Result<Self, W>
        requires new_world { (file : ℕ) → (W.ledger world).created file ≡ false }
        requires fresh { AllFresh T.tells T.seen T.fault_count T.lack_count taps.items }
        requires name { name ≡ S.file_name }
        requires count { length taps.items ≡ S.seat_count }
        requires labels { map T.label taps.items ≡ S.labels }
        ensures world { IfOk result (λ tapped. tapped.world ≡ world) }
        ensures world_back { IfErr result (λ back. back ≡ world) }
    {
        let Ok(seats) = seat_all(alloc, taps) else {
            return Err(world);
        };
        Ok(TapWorld {
            world,
            name,
            mirrored: None,
            seats,
            of: PhantomData,
        })
    }

    /// Takes the taps off.
    pub fn part(self) -> Untapped<W, T>
        ensures world { result.world ≡ self.world }
        ensures mirrors { IsMirroring W.honest W.shows W.ledger
            T.tells T.seen T.fault_count T.lack_count
            S.file_name result.mirrored result.world result.seats.items }
        ensures count { length result.seats.items ≡ S.seat_count }
        ensures labels { labels_of T.label result.seats.items ≡ S.labels }
    {
        Untapped {
            world: self.world,
            mirrored: self.mirrored,
            seats: self.seats,
        }
    }
}

/// The mirrored file after a creation, which may have been under its name.
fn first_created(mirrored: Option<u32>, named: bool, created: Result<u32, OpenFault>) -> Option<u32>
    ensures { result ≡ after_create mirrored named created }
{
    match mirrored {
        Some(file) => Some(file),
        None if named => created.ok(),
        None => None,
    }
}

/// What a put to this file gave to the mirrored one.
fn mirrored_piece(mirrored: Option<u32>, file: u32, put: Put, piece: &[u8]) -> &[u8]
    requires { PutCount put (length piece.now) }
    ensures { result.now ≡ mirrored_part mirrored file (put_bytes put piece.now) }
{
    let Some(mirrored) = mirrored else {
        return &[];
    };
    if mirrored != file {
        return &[];
    }
    match put {
        Put::Took(count) => &piece[..count],
        Put::Failed | Put::NoMemory => &[],
    }
}

impl<W: World, T: Tap, S: Seating> World for TapWorld<W, T, S> {
    ghost honest = { λ p t. W.honest p t.world };

    ghost shows = { λ p t. W.shows p t.world };

    ghost ledger = { λ t. W.ledger t.world };

    ghost healthy = { λ t. W.healthy t.world };

    fn open_file(&mut self, name: &Text) -> Result<u32, OpenFault> {
        self.world.open_file(name)
    }

    fn fill(&mut self, file: u32, piece: &mut [u8]) -> Filled {
        self.world.fill(file, piece)
    }

    fn create_file(&mut self, name: &Text) -> Result<u32, OpenFault> {
        let created = self.world.create_file(name);
        let named = name.as_str() == self.name.as_str();
        self.mirrored = first_created(self.mirrored, named, created);
        created
    }

    fn put(&mut self, file: u32, piece: &[u8]) -> Put {
        let put = self.world.put(file, piece);
        let taken = mirrored_piece(self.mirrored, file, put, piece);
        show_each(&mut self.seats, taken);
        put
    }
}
