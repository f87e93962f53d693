ghost use Rattle.std.specs.Prelude.{◌≡◌, ◌<◌, ◌-◌, ◌^◌, ◌++◌, ◌∷◌, [], length, IfOk, IfErr, OnErr};
ghost use Rattle.std.specs.Prelude.{MatchOption, Some, slice_get};
ghost use Rattle.packet_taps.specs.Places.{AreShown, IsLostAt, IsSeatedAt, TakesOut};

use crate::{LostPacket, PacketTap, Place, Taken};
use plain_text::{NoMemory, Packet};
use std::alloc::Global;
use std::marker::Model;
use std::mem;

/// Packet taps in their seats, which are numbered from 0 and given once.
///
/// Contracts see the place of each number that was given, in order. A tap keeps its place when it is lost, so a loss
/// takes no memory.
#[derive(Drop)]
pub struct Deck<T> {
    places: Vec<Place<T>>,
}

impl<T> Model for Deck<T> {
    ghost use Rattle.std.specs.Prelude.{List};
    ghost use Rattle.packet_taps.specs.declared.place.Place.{Place};

    ghost Value = { List (Place T) };

    ghost view = { λ d. d.places.items };
}

/// Want of memory for one more seat. The tap is given back.
#[derive(Drop)]
pub struct Unseated<T> {
    pub tap: T,
}

impl<T: PacketTap> Deck<T> {
    /// A deck that has given no seat.
    pub fn new(alloc: Global) -> Result<Self, NoMemory>
        ensures { IfOk result (λ deck. deck ≡ []) }
    {
        Ok(Deck {
            places: Vec::with_capacity(alloc, 1)?,
        })
    }

    /// Seats a tap in the next seat: so many packets pass it by, and of those after them it is shown at most so many.
    ///
    /// After want of memory the deck is as it was.
    pub fn seat(&mut self, tap: T, skip: u64, quota: u64) -> Result<u32, Unseated<T>>
        requires { length self.old < 2 ^ 32 - 1 }
        ensures number { IfOk result (λ seat. seat ≡ length self.old) }
        ensures seated { IfOk result (λ _. self.new ≡ self.old
            ++ Place.Seated (record { tap = tap; skip = skip; quota = quota }) ∷ []) }
        ensures given_back { IfErr result (λ unseated. unseated.tap ≡ tap) }
        ensures stays { OnErr result (self.new ≡ self.old) }
    {
        if self.places.reserve(1).is_err() {
            return Err(Unseated { tap });
        }
        let seat = self.places.len() as u32;
        let place = Place::Seated(Taken { tap, skip, quota });
        self.places.push(place).unwrap();
        Ok(seat)
    }

    /// Shows a packet to each tap that sits in the deck, in the order of the seats: first a tap's packets pass it by,
    /// then it is shown as many as its window has. A tap that does not take one is lost. The deck takes no memory.
    pub fn show(&mut self, packet: &Packet)
        ensures { AreShown T.saw T.missed T.fault_count T.lack_count (packet.now ∷ [])
            self.old self.new }
    {
        show_each(&mut self.places, packet);
    }

    /// Takes the tap of a seat out, with what is left of its window. None where no tap sits there: the number was not
    /// given, or its tap was taken out before or lost.
    #[tactic(auto, using(std::proofs::lemmas::Option::slice_get_within))]
    pub fn take_out(&mut self, seat: u32) -> Option<Taken<T>>
        ensures { TakesOut seat result self.old self.new }
    {
        let _seated = self.seated(seat)?;
        match mem::replace(&mut self.places[seat as usize], Place::Out) {
            Place::Seated(taken) => Some(taken),
            Place::Lost(_) | Place::Out => unreachable!(),
        }
    }

    /// The place of each number that was given, in order: which taps sit there, and which were lost.
    pub fn places(&self) -> &[Place<T>]
        ensures { result.now ≡ self.now }
    {
        self.places.as_slice()
    }

    /// The places, in order: the deck is taken apart.
    pub fn into_places(self) -> Vec<Place<T>>
        ensures { result.items ≡ self }
    {
        self.places
    }

    /// The tap that sits in a seat. None where none does.
    pub fn seated(&self, seat: u32) -> Option<&Taken<T>>
        ensures { MatchOption result (¬ IsSeatedAt self.now seat)
            (λ taken. slice_get self.now seat ≡ Some (Place.Seated taken.now)) }
    {
        match self.places.get(seat as usize) {
            Some(Place::Seated(taken)) => Some(taken),
            Some(Place::Lost(_)) | Some(Place::Out) | None => None,
        }
    }

    /// The tap that was lost from a seat. None where none was.
    pub fn lost(&self, seat: u32) -> Option<&LostPacket<T>>
        ensures { MatchOption result (¬ IsLostAt self.now seat)
            (λ lost. slice_get self.now seat ≡ Some (Place.Lost lost.now)) }
    {
        match self.places.get(seat as usize) {
            Some(Place::Lost(lost)) => Some(lost),
            Some(Place::Seated(_)) | Some(Place::Out) | None => None,
        }
    }
}

/// Shows a packet to the tap of each place, in order.
fn show_each<T: PacketTap>(places: &mut [Place<T>], packet: &Packet)
    ensures { AreShown T.saw T.missed T.fault_count T.lack_count (packet.now ∷ [])
        places.old places.new }
{
    for place in places.iter_mut() {
        let was = mem::replace(place, Place::Out);
        *place = was.shown(packet);
    }
}
