ghost use Rattle.std.specs.Prelude.{◌∷◌, []};
ghost use Rattle.packet_taps.specs.Places.{Follows, IsShown};

use crate::PacketTap;
use plain_text::Packet;
use release_taps::Shown;

/// A tap with its window: how many packets still pass it by, and how many of those after them it is still shown.
#[derive(Drop)]
pub struct Taken<T> {
    pub tap: T,
    pub skip: u64,
    pub quota: u64,
}

/// A tap that did not take a packet, and is shown no more.
#[derive(Drop)]
pub struct LostPacket<T> {
    /// Whether it found no memory. Else it failed.
    pub memory: bool,
    pub object: T,
}

/// The place of a seat number.
#[derive(Drop)]
pub enum Place<T> {
    /// A tap sits there.
    Seated(Taken<T>),
    /// The tap that sat there was lost.
    Lost(LostPacket<T>),
    /// The tap that sat there was taken out.
    Out,
}

impl<T: PacketTap> Taken<T> {
    /// Shows the tap a packet, where it falls into the window.
    fn shown(self, packet: &Packet) -> Place<T>
        ensures { Follows T.saw T.missed T.fault_count T.lack_count (packet.now ∷ []) self result }
    {
        let Taken {
            mut tap,
            skip,
            quota,
        } = self;
        if skip > 0 {
            return Place::Seated(Taken {
                tap,
                skip: skip - 1,
                quota,
            });
        }
        if quota == 0 {
            return Place::Seated(Taken { tap, skip, quota });
        }
        match tap.show(packet) {
            Shown::Took => Place::Seated(Taken {
                tap,
                skip,
                quota: quota - 1,
            }),
            Shown::Failed => Place::Lost(LostPacket {
                memory: false,
                object: tap,
            }),
            Shown::NoMemory => Place::Lost(LostPacket {
                memory: true,
                object: tap,
            }),
        }
    }
}

impl<T: PacketTap> Place<T> {
    /// Shows a packet to the tap that sits there, if one does.
    pub(crate) fn shown(self, packet: &Packet) -> Place<T>
        ensures { IsShown T.saw T.missed T.fault_count T.lack_count (packet.now ∷ []) self result }
    {
        match self {
            Place::Seated(taken) => taken.shown(packet),
            Place::Lost(lost) => Place::Lost(lost),
            Place::Out => Place::Out,
        }
    }
}
