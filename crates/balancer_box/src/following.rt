ghost use Rattle.std.specs.Prelude.{◌≡◌, IfOk, OnErr, Some};
ghost use Rattle.balancer_box.specs.Connections.{has_ended, phase_finished};
ghost use Rattle.balancer_box.specs.Balancer.{heard, phase_then, ends, after_idle, opens, finds};
ghost use Rattle.balancer_box.specs.Balancer.{gives_way, new_slot, gives_up, connects, checks};

use crate::{Class, Connections, Goes, Noted, Place, Tells};
use nat_tables::{Phase, Slot};
use packet_headers::TCP;
use plain_text::NoMemory;

/// Whether a connection has ended: both sides finished it, or one reset it.
fn has_ended(phase: Phase) -> bool
    ensures { result ≡ has_ended phase }
{
    matches!(phase, Phase::Closing(_))
}

/// The phase after FIN from the client, or from the server.
fn phase_finished(seconds: u32, side: Class, phase: Phase) -> Phase
    ensures { result ≡ phase_finished seconds side phase }
{
    match (side, phase) {
        (Class::Client, Phase::Plain) => Phase::EndedByClient,
        (Class::Client, Phase::EndedByServer) => Phase::Closing(seconds),
        (Class::Answer, Phase::Plain) => Phase::EndedByServer,
        (Class::Answer, Phase::EndedByClient) => Phase::Closing(seconds),
        (_, same) => same,
    }
}

impl Tells {
    /// Whether it begins a connection.
    fn opens(self) -> bool
        ensures { result ≡ opens self }
    {
        self == Tells::Opens
    }
}

impl Noted {
    /// What the packet tells of its connection; nothing where it is not of TCP.
    fn heard(self) -> Tells
        ensures { result ≡ heard self }
    {
        if self.client.protocol == TCP {
            self.tells
        } else {
            Tells::Nothing
        }
    }

    /// The phase of its connection after this packet, where an ended one is kept for so many seconds.
    fn phase_then(self, seconds: u32, phase: Phase) -> Phase
        ensures { result ≡ phase_then seconds self phase }
    {
        match self.heard() {
            Tells::Nothing | Tells::Opens => phase,
            Tells::Finishes => phase_finished(seconds, self.class, phase),
            Tells::Resets => Phase::Closing(seconds),
        }
    }

    /// Whether it ends a connection that had not ended before.
    fn ends(self, seconds: u32, slot: Slot) -> bool
        ensures { result ≡ ends seconds self slot }
    {
        !has_ended(slot.phase) && has_ended(self.phase_then(seconds, slot.phase))
    }

    /// Whether this connection gives way to the one that the packet begins: it has ended, and the packet opens one.
    fn gives_way(self, slot: Slot) -> bool
        ensures { result ≡ gives_way self slot }
    {
        has_ended(slot.phase) && self.heard().opens()
    }

    /// The packet removed this idle connection. The load of its backend is lowered, unless the connection had ended and
    /// so counts no more.
    fn after_idle(self, slot: Slot) -> Goes
        ensures { result ≡ after_idle self slot.port (has_ended slot.phase) }
    {
        if has_ended(slot.phase) {
            return self.begins();
        }
        Goes::to(
            Place::LowersIdle,
            Noted {
                spare: slot.port,
                ..self
            },
        )
    }

    /// The backend that was chosen is given up, as the client has a connection to this one; where the packet ends that
    /// connection, the load of its backend is lowered next.
    fn gives_up(self, ends: bool, backend: u16) -> Goes
        ensures { result ≡ gives_up self ends backend }
    {
        let noted = Noted {
            backend,
            spare: self.backend,
            ..self
        };
        if ends {
            Goes::to(Place::LowersVain, noted)
        } else {
            Goes::to(Place::LowersSpare, noted)
        }
    }

    /// The connection that the packet begins.
    fn new_slot(self) -> Slot
        ensures { result ≡ new_slot self }
    {
        Slot {
            port: self.backend,
            last: self.time,
            phase: Phase::Plain,
        }
    }

    /// A client's packet looks for its connection, where connections are followed.
    pub(crate) fn finds_followed(self, seconds: u32, table: &mut Connections) -> Goes
        ensures { (table.new, result) ≡ finds (Some seconds) self table.old }
    {
        let Some(slot) = table.slot_of(&self.client) else {
            return match table.take_first_idle(self.time) {
                Some((_, idle)) => self.after_idle(idle),
                None => self.begins(),
            };
        };
        if slot.is_idle(&self.client, self.time) {
            table.remove(&self.client);
            return self.after_idle(slot);
        }
        if self.gives_way(slot) {
            table.remove(&self.client);
            return self.begins();
        }
        table.refresh(&self.client, self.time);
        table.set_phase(&self.client, self.phase_then(seconds, slot.phase));
        self.goes_to_where(self.ends(seconds, slot), slot.port)
    }

    /// A client's packet connects its client, where connections are followed.
    pub(crate) fn connects_followed(
        self,
        seconds: u32,
        table: &mut Connections,
    ) -> Result<Goes, NoMemory>
        ensures ok { IfOk result (λ goes. (table.new, goes)
            ≡ connects (Some seconds) self table.old) }
        ensures err { OnErr result (table.new ≡ table.old) }
    {
        let Some(slot) = table.slot_of(&self.client) else {
            table.find_or_bind(&self.client, self.backend, self.time)?;
            let slot = self.new_slot();
            table.set_phase(&self.client, self.phase_then(seconds, slot.phase));
            return Ok(self.goes_to_where(self.ends(seconds, slot), self.backend));
        };
        table.refresh(&self.client, self.time);
        table.set_phase(&self.client, self.phase_then(seconds, slot.phase));
        Ok(self.gives_up(self.ends(seconds, slot), slot.port))
    }

    /// An answer looks for its client's connection, where connections are followed.
    pub(crate) fn checks_followed(self, seconds: u32, table: &mut Connections) -> Goes
        ensures { (table.new, result) ≡ checks (Some seconds) self table.old }
    {
        let Some(slot) = table.slot_of(&self.client) else {
            return self.unconnected();
        };
        if slot.port != self.backend || slot.is_idle(&self.client, self.time) {
            return self.unconnected();
        }
        table.set_phase(&self.client, self.phase_then(seconds, slot.phase));
        self.goes_to_where(self.ends(seconds, slot), self.backend)
    }
}
