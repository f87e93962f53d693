ghost use Rattle.std.specs.Prelude.{◌≡◌, ℕ, ◌+◌, ◌^◌, ◌<◌, ◌≤◌, false, nat_lt, not, Some};
ghost use Rattle.nat_tables.specs.Phases.{protocol_timer, timer, is_kept, phase_after};
ghost use Rattle.nat_tables.specs.Forwards.{is_idle, refreshed, marked, in_phase};
ghost use Rattle.nat_tables.specs.Idling.{IsLiveUntil};

use crate::{Endpoint, Phase, Segment};
use packet_headers::TCP;

/// Idle TCP mappings are kept for 2 hours and 4 minutes (RFC 5382, REQ-5), in microseconds.
const TCP_TIMER: u64 = 7_440_000_000;

/// Idle UDP mappings are kept for 5 minutes (RFC 4787, REQ-5), in microseconds.
const UDP_TIMER: u64 = 300_000_000;

/// Microseconds of a second.
const SECOND: u64 = 1_000_000;

/// After how many microseconds without use a mapping of a protocol is idle.
fn protocol_timer(protocol: u8) -> u64
    ensures timer { result ≡ protocol_timer protocol }
    ensures some { 1 ≤ result }
{
    if protocol == TCP {
        TCP_TIMER
    } else {
        UDP_TIMER
    }
}

impl Phase {
    /// After how many microseconds without use a mapping of a protocol is idle in this phase.
    fn timer(self, protocol: u8) -> u64
        ensures timer { result ≡ timer protocol self }
        ensures some { 1 ≤ result }
    {
        match self {
            Phase::Plain
            | Phase::Established
            | Phase::EndedByClient
            | Phase::EndedByServer
            | Phase::Kept => protocol_timer(protocol),
            Phase::Opening(seconds) | Phase::Closing(seconds) => {
                u64::from(seconds.max(1)) * SECOND
            }
        }
    }

    /// Whether the mapping is never idle, whatever its timer.
    fn is_kept(self) -> bool
        ensures { result ≡ is_kept self }
    {
        matches!(&self, Phase::Kept)
    }

    /// The phase after a segment, where a connection that is not established is kept for so many seconds.
    fn after(self, seconds: u32, segment: Segment) -> Phase
        ensures { result ≡ phase_after seconds segment self }
    {
        if self.is_kept() {
            return self;
        }
        match segment {
            Segment::Opens => Phase::Opening(seconds),
            Segment::Closes => Phase::Closing(seconds),
            Segment::Silent => match self {
                Phase::Plain | Phase::Opening(_) => Phase::Opening(seconds),
                Phase::Established | Phase::Kept => self,
                Phase::Closing(_) | Phase::EndedByClient | Phase::EndedByServer => {
                    Phase::Closing(seconds)
                }
            },
            Segment::Carries => match self {
                Phase::Closing(_) | Phase::EndedByClient | Phase::EndedByServer => {
                    Phase::Closing(seconds)
                }
                Phase::Plain | Phase::Opening(_) | Phase::Established => Phase::Established,
                Phase::Kept => Phase::Kept,
            },
        }
    }
}

/// What an inside endpoint is mapped to.
#[derive(Clone, Copy, Debug, PartialEq, Eq)]
pub struct Slot {
    /// The outside port, of the endpoint's protocol.
    pub port: u16,
    /// When the mapping was last used, in microseconds.
    pub last: u64,
    /// How far its connection has come; `Plain` where none is followed.
    pub phase: Phase,
}

impl Slot {
    /// Whether this mapping of the endpoint was not used for the timer of its protocol and phase.
    fn is_past(&self, key: &Endpoint, now: u64) -> bool
        ensures { result
            ≡ not (nat_lt now (self.now.last + timer key.now.protocol self.now.phase)) }
    {
        now >= self.last && now - self.last >= self.phase.timer(key.protocol)
    }

    /// Whether this mapping of the endpoint is idle: it was not used for the timer of its protocol and phase. It is not
    /// idle before its last use, and never where it is kept.
    pub fn is_idle(&self, key: &Endpoint, now: u64) -> bool
        ensures { result ≡ is_idle now (key.now, self.now) }
    {
        !self.phase.is_kept() && self.is_past(key, now)
    }

    /// The last time at which this mapping of the endpoint is not past, of those that there are.
    fn past_after(&self, key: &Endpoint) -> u64
        ensures used { result < self.now.last + timer key.now.protocol self.now.phase }
        ensures last { (now : ℕ) → now < 2 ^ 64
            → now < self.now.last + timer key.now.protocol self.now.phase → now ≤ result }
    {
        self.last.saturating_add(self.phase.timer(key.protocol) - 1)
    }

    /// The last time at which this mapping of the endpoint is live, of those that there are.
    pub(crate) fn live_until(&self, key: &Endpoint) -> u64
        ensures live { IsLiveUntil result (Some (key.now, self.now)) }
        ensures last { (now : ℕ) → now < 2 ^ 64 → is_idle now (key.now, self.now) ≡ false
            → now ≤ result }
    {
        if self.phase.is_kept() {
            return u64::MAX;
        }
        self.past_after(key)
    }

    /// The mapping after a use. Its last use does not go back where time does.
    pub(crate) fn refreshed(&self, now: u64) -> Slot
        ensures { result ≡ refreshed now self.now }
    {
        Slot {
            port: self.port,
            last: self.last.max(now),
            phase: self.phase,
        }
    }

    /// The mapping after a segment of its connection.
    pub(crate) fn marked(&self, seconds: u32, segment: Segment) -> Slot
        ensures { result ≡ marked seconds segment self.now }
    {
        Slot {
            port: self.port,
            last: self.last,
            phase: self.phase.after(seconds, segment),
        }
    }

    /// The mapping in another phase.
    pub(crate) fn in_phase(&self, phase: Phase) -> Slot
        ensures { result ≡ in_phase phase self.now }
    {
        Slot {
            port: self.port,
            last: self.last,
            phase,
        }
    }
}
