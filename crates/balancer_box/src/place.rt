ghost use Rattle.std.specs.Prelude.{◌≡◌, ◌≤◌, IsTrue};
ghost use Rattle.balancer_box.specs.Places.{number_of, place_numbered, number_of_class, class_of};
ghost use Rattle.balancer_box.specs.Places.{number_of_flag, number_of_tells, tells_numbered};
ghost use Rattle.balancer_box.specs.Places.{noted, local_of};

use box_program::Local;
use nat_tables::Endpoint;

/// The register of a Local in which a packet that is counted as dropped has the reason.
pub const REASON_REGISTER: usize = 8;

/// What is done next with a packet.
#[derive(Clone, Copy, Debug, PartialEq, Eq)]
pub enum Place {
    /// It is told the time.
    HearsTime,
    /// It looks its client up in the client's table.
    FindsConnection,
    /// It lowers the load of the backend of an idle connection that was removed.
    LowersIdle,
    /// It raises the load of the backend of least load.
    RaisesLeast,
    /// It connects its client to this backend, unless the client has a connection by now.
    Connects,
    /// It lowers the load of a backend that was chosen in vain, or whose connection it closed or ended.
    LowersSpare,
    /// It lowers the load of a backend that was chosen in vain, and then that of one whose connection it ended.
    LowersVain,
    /// It looks up whether the client that it goes to is connected to the backend that it comes from.
    ChecksConnection,
    /// It is counted as dropped.
    CountsDrop,
    /// It goes out.
    SendsOut,
    /// It is done.
    Ends,
}

impl Place {
    /// The number of the place in a Local.
    fn number(self) -> u32
        ensures { result ≡ number_of self }
    {
        match self {
            Place::HearsTime => 0,
            Place::FindsConnection => 1,
            Place::LowersIdle => 2,
            Place::RaisesLeast => 3,
            Place::Connects => 4,
            Place::LowersSpare => 5,
            Place::ChecksConnection => 6,
            Place::CountsDrop => 7,
            Place::SendsOut => 8,
            Place::LowersVain => 9,
            Place::Ends => 10,
        }
    }

    /// The place of a number; the end for a number of no place.
    pub(crate) fn numbered(number: u32) -> Place
        ensures { result ≡ place_numbered number }
    {
        match number {
            0 => Place::HearsTime,
            1 => Place::FindsConnection,
            2 => Place::LowersIdle,
            3 => Place::RaisesLeast,
            4 => Place::Connects,
            5 => Place::LowersSpare,
            6 => Place::ChecksConnection,
            7 => Place::CountsDrop,
            8 => Place::SendsOut,
            9 => Place::LowersVain,
            _ => Place::Ends,
        }
    }
}

/// Which way a flow goes.
#[derive(Clone, Copy, Debug, PartialEq, Eq)]
pub enum Class {
    /// From a client to the virtual address and port.
    Client,
    /// From a backend to a client.
    Answer,
}

impl Class {
    fn number(self) -> u64
        ensures { result ≡ number_of_class self }
    {
        match self {
            Class::Client => 0,
            Class::Answer => 1,
        }
    }

    fn numbered(number: u64) -> Class
        ensures { result ≡ class_of number }
    {
        match number {
            0 => Class::Client,
            _ => Class::Answer,
        }
    }
}

/// What a segment tells of its connection, by its control bits (RFC 9293, section 3.1).
#[derive(Clone, Copy, Debug, PartialEq, Eq)]
pub enum Tells {
    /// Nothing: it is none of the others, or connections are not followed.
    Nothing,
    /// Its sender begins a connection: SYN, and none of ACK, FIN and RST.
    Opens,
    /// Its sender has no more to send: FIN, and no RST.
    Finishes,
    /// The connection is over: RST.
    Resets,
}

impl Tells {
    fn number(self) -> u64
        ensures { result ≡ number_of_tells self }
    {
        match self {
            Tells::Nothing => 0,
            Tells::Opens => 1,
            Tells::Finishes => 2,
            Tells::Resets => 3,
        }
    }

    fn numbered(number: u64) -> Tells
        ensures { result ≡ tells_numbered number }
    {
        match number {
            0 => Tells::Nothing,
            1 => Tells::Opens,
            2 => Tells::Finishes,
            _ => Tells::Resets,
        }
    }
}

/// What is noted of a packet in hand.
#[derive(Clone, Copy, Debug, PartialEq, Eq)]
pub struct Noted {
    pub class: Class,
    /// The client that it comes from, or goes to.
    pub client: Endpoint,
    /// Whether it resets its connection.
    pub resets: bool,
    /// The time that it was told, in microseconds.
    pub time: u64,
    /// The number of the backend that it goes to, or comes from.
    pub backend: u16,
    /// The number of a backend whose load is to be lowered.
    pub spare: u16,
    /// The reason for which it is dropped.
    pub reason: u64,
    /// What it tells of its connection, where connections are followed.
    pub tells: Tells,
}

impl Noted {
    /// What a Local has noted, with this number of backends.
    pub(crate) fn read_from(local: &Local, backends: u64) -> Noted
        requires some { 1 ≤ backends }
        requires few { backends ≤ 64 }
        ensures { result ≡ noted backends local.now }
    {
        Noted {
            class: Class::numbered(local.regs[0]),
            client: Endpoint {
                protocol: (local.regs[1] % (1 << 8)) as u8,
                address: (local.regs[2] % (1 << 32)) as u32,
                port: (local.regs[3] % (1 << 16)) as u16,
            },
            resets: local.regs[4] == 1,
            time: local.regs[5],
            backend: (local.regs[6] % backends) as u16,
            spare: (local.regs[7] % backends) as u16,
            reason: local.regs[REASON_REGISTER],
            tells: Tells::numbered(local.regs[9]),
        }
    }
}

/// Where a packet goes from here.
#[derive(Clone, Copy, Debug, PartialEq, Eq)]
pub struct Goes {
    pub place: Place,
    pub noted: Noted,
}

fn number_of_flag(flag: bool) -> u64
    ensures { result ≡ number_of_flag flag }
{
    if flag { 1 } else { 0 }
}

impl Goes {
    /// The Local that says so.
    pub(crate) fn local(&self) -> Local
        ensures { result ≡ local_of self.now.place self.now.noted }
    {
        let noted = &self.noted;
        Local {
            at: self.place.number(),
            regs: [
                noted.class.number(),
                u64::from(noted.client.protocol),
                u64::from(noted.client.address),
                u64::from(noted.client.port),
                number_of_flag(noted.resets),
                noted.time,
                u64::from(noted.backend),
                u64::from(noted.spare),
                noted.reason,
                noted.tells.number(),
                0,
                0,
            ],
        }
    }
}
