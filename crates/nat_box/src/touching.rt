ghost use Rattle.std.specs.Prelude.{◌≡◌, ℕ, IfOk, OnErr, Option, Some, None};
ghost use Rattle.nat_box.specs.Nat.{goes, dropped, mapped, after_find, after_reserve, after_bind};
ghost use Rattle.nat_box.specs.Nat.{after_endpoint, looked, told, followed_by};
ghost use Rattle.nat_box.specs.Nat.{looked_by, live_port, after_port, touched_by};
ghost use Rattle.nat_box.specs.Nat.{after_find_within, after_bind_within, after_lost};
ghost use Rattle.nat_box.specs.declared.place.Place.TheVariants.{FindsMapping, FindsOrBinds};
ghost use Rattle.nat_box.specs.declared.place.Place.TheVariants.{UnbindsLost};
ghost use Rattle.nat_box.specs.Places.{source_key, is_refused};
ghost use Rattle.nat_tables.specs.Forwards.{lives};
ghost use Rattle.nat_box.specs.declared.value.NatValue.TheVariants.{Dropped, Free, Mapped, Taken};

use crate::place::NO_PORT;
use crate::{Class, Goes, NatBox, Noted, Place};
use flow_boxes::Drops;
use nat_tables::{Bind, Endpoint, Find, Freed, Mappings, Pool, Reverse};
use packet_headers::TCP;
use plain_text::NoMemory;

/// The reason for which a packet is dropped that goes to a port with no mapping.
const NO_MAPPING: u64 = 7;

/// The reason for which a packet is dropped that finds no free port.
const NO_FREE_PORT: u64 = 8;

/// The reason for which a packet is dropped that needs one mapping more than its host may have.
const OVER_LIMIT: u64 = 10;

impl Goes {
    pub(crate) fn to(place: Place, noted: Noted) -> Goes
        ensures { result ≡ goes place noted }
    {
        Goes { place, noted }
    }
}

impl Noted {
    /// The packet is dropped for this reason.
    fn dropped(self, reason: u64) -> Goes
        ensures { result ≡ dropped self reason }
    {
        Goes::to(
            Place::CountsDrop,
            Noted {
                word_or_reason: reason,
                ..self
            },
        )
    }

    /// Its source has its mapping.
    fn mapped(self) -> Goes
        ensures { result ≡ mapped self self.class }
    {
        match self.class {
            Class::Hairpin => Goes::to(Place::FindsEndpoint, self),
            Class::Outbound | Class::Inbound | Class::OutboundError => {
                Goes::to(Place::SendsOut, self)
            }
        }
    }

    fn after_find(self, found: Find) -> Goes
        ensures { result ≡ after_find self found }
    {
        match found {
            Find::Live(port) => Noted { port, ..self }.mapped(),
            Find::Absent(Some(freed)) => Goes::to(Place::UnbindsFreed, Noted { freed, ..self }),
            Find::Absent(None) => Goes::to(Place::DrawsWord, self),
        }
    }

    fn after_reserve(self, reserved: Option<u16>) -> Goes
        ensures { result ≡ after_reserve self reserved }
    {
        match reserved {
            Some(port) => Goes::to(Place::BindsPort, Noted { port, ..self }),
            None => self.dropped(NO_FREE_PORT),
        }
    }

    /// The port in hand is given up; this port is noted in its place.
    fn loses(self, port: u16) -> Goes
        ensures { result
            ≡ goes UnbindsLost (record self { port = port; freed = source_key self }) }
    {
        let freed: Freed = self.source_key();
        Goes::to(
            Place::UnbindsLost,
            Noted {
                port,
                freed,
                ..self
            },
        )
    }

    /// A port that another packet's mapping made needless is given up.
    fn after_bind(self, bind: Bind) -> Goes
        ensures { result ≡ after_bind self bind }
    {
        match bind {
            Bind::Bound => self.mapped(),
            Bind::Other(port) => self.loses(port),
        }
    }

    /// Where each host has at most so many mappings: a packet of a host that can have no further one is dropped.
    fn after_find_within(self, most: u32, found: Find, table: &Mappings) -> Goes
        ensures { result ≡ after_find_within most self found table.now }
    {
        match found {
            Find::Absent(None) if table.is_full(most, &self.source) => self.dropped(OVER_LIMIT),
            Find::Absent(_) | Find::Live(_) => self.after_find(found),
        }
    }

    /// Another packet was quicker, and the host can have no further mapping: the port in hand is given up.
    fn after_bind_within(self, bind: Option<Bind>) -> Goes
        ensures { result ≡ after_bind_within self bind }
    {
        match bind {
            Some(bind) => self.after_bind(bind),
            None => self.loses(NO_PORT),
        }
    }

    /// The port that it took in vain is given back. Its source has its mapping, or could have none.
    fn after_lost(self) -> Goes
        ensures { result ≡ after_lost self (is_refused self) }
    {
        if self.is_refused() {
            self.dropped(OVER_LIMIT)
        } else {
            self.mapped()
        }
    }

    fn after_endpoint(self, found: Option<Endpoint>) -> Goes
        ensures { result ≡ after_endpoint self found }
    {
        match found {
            Some(key) => {
                let target = Endpoint {
                    protocol: self.source.protocol,
                    address: key.address,
                    port: key.port,
                };
                Goes::to(Place::AsksIfLives, Noted { target, ..self })
            }
            None => self.dropped(NO_MAPPING),
        }
    }

    /// The port of its source's mapping, where there is one that is live. It refreshes nothing.
    fn live_port(&self, table: &Mappings) -> Option<u16>
        ensures { result ≡ live_port self.now.source self.now.time table.now }
    {
        match table.slot_of(&self.source) {
            Some(slot) if !slot.is_idle(&self.source, self.time) => Some(slot.port),
            Some(_) | None => None,
        }
    }

    fn after_port(self, found: Option<u16>) -> Goes
        ensures { result ≡ after_port self found }
    {
        match found {
            Some(port) => Goes::to(Place::SendsOut, Noted { port, ..self }),
            None => self.dropped(NO_MAPPING),
        }
    }

    /// Whether the mapping of the endpoint that it goes to lives in a forward table.
    fn after_asking(self, table: &Mappings) -> Goes
        ensures { result
            ≡ looked_by self (lives self.target self.dest_port self.time table.now) }
    {
        if table.lives(&self.target, self.dest_port, self.time) {
            Goes::to(Place::SendsOut, self)
        } else {
            self.dropped(NO_MAPPING)
        }
    }

    /// Touches the counts of drops.
    pub(crate) fn touch_drops(self, place: Place, drops: &mut Drops) -> Goes
        ensures { (limit : Option ℕ)
            → (Dropped drops.new, result) ≡ touched_by limit place (Dropped drops.old) self }
    {
        if place == Place::CountsDrop {
            drops.add(self.drop_reason());
        }
        Goes::to(Place::Ends, self)
    }

    /// Touches the pool.
    pub(crate) fn touch_pool(self, limit: Option<u32>, place: Place, pool: &mut Pool) -> Goes
        ensures { (Free pool.new, result) ≡ touched_by limit place (Free pool.old) self }
    {
        match place {
            Place::ReservesPort => {
                let source = self.source;
                self.after_reserve(pool.reserve(source.protocol, source.port, self.drawn_word()))
            }
            Place::GivesBackFreed => {
                pool.give_back(self.freed.protocol, self.freed.port);
                Goes::to(Place::DrawsWord, self)
            }
            Place::GivesBackLost => {
                pool.give_back(self.freed.protocol, self.freed.port);
                match limit {
                    Some(_) => self.after_lost(),
                    None => self.mapped(),
                }
            }
            _ => Goes::to(Place::Ends, self),
        }
    }

    /// It looks its source up in the source's forward table.
    fn finds(self, limit: Option<u32>, table: &mut Mappings) -> Goes
        ensures { (Mapped table.new, result)
            ≡ touched_by limit FindsMapping (Mapped table.old) self }
    {
        match limit {
            Some(most) => {
                let found = table.find_within(most, &self.source, self.time);
                self.after_find_within(most, found, table)
            }
            None => self.after_find(table.find(&self.source, self.time)),
        }
    }

    /// It maps its source to the port in hand, unless the source has a mapping by now, or its host no room for one.
    fn binds(self, limit: Option<u32>, table: &mut Mappings) -> Result<Goes, NoMemory>
        ensures ok { IfOk result (λ goes. (Mapped table.new, goes)
            ≡ touched_by limit FindsOrBinds (Mapped table.old) self) }
        ensures err { OnErr result (table.new ≡ table.old) }
    {
        match limit {
            Some(most) => {
                let bind = table.bind_within(most, &self.source, self.port, self.time)?;
                Ok(self.after_bind_within(bind))
            }
            None => {
                let bind = table.find_or_bind(&self.source, self.port, self.time)?;
                Ok(self.after_bind(bind))
            }
        }
    }

    /// Touches a forward table.
    pub(crate) fn touch_mappings(
        self,
        limit: Option<u32>,
        place: Place,
        table: &mut Mappings,
    ) -> Result<Goes, NoMemory>
        ensures ok { IfOk result (λ goes. (Mapped table.new, goes)
            ≡ touched_by limit place (Mapped table.old) self) }
        ensures err { OnErr result (table.new ≡ table.old) }
    {
        match place {
            Place::FindsMapping => Ok(self.finds(limit, table)),
            Place::FindsOrBinds => self.binds(limit, table),
            _ => Ok(Goes::to(Place::Ends, self)),
        }
    }

    /// Touches a reverse table.
    pub(crate) fn touch_bound(self, place: Place, table: &mut Reverse) -> Result<Goes, NoMemory>
        ensures ok { IfOk result (λ goes. (limit : Option ℕ)
            → (Taken table.new, goes) ≡ touched_by limit place (Taken table.old) self) }
        ensures err { OnErr result (table.new ≡ table.old) }
    {
        match place {
            Place::BindsPort => {
                table.bind(self.source.protocol, self.port, &self.source)?;
                Ok(Goes::to(Place::FindsOrBinds, self))
            }
            Place::UnbindsFreed => {
                table.unbind(self.freed.protocol, self.freed.port);
                Ok(Goes::to(Place::GivesBackFreed, self))
            }
            Place::UnbindsLost => {
                table.unbind(self.freed.protocol, self.freed.port);
                Ok(Goes::to(Place::GivesBackLost, self))
            }
            _ => Ok(Goes::to(Place::Ends, self)),
        }
    }

    /// Reads a forward table: whether the mapping of the endpoint that the packet goes to lives; or, of an error that
    /// goes out, the port of its source. It refreshes nothing.
    pub(crate) fn look_at_mappings(self, place: Place, table: &Mappings) -> Goes
        ensures { result ≡ looked place (Mapped table.now) self }
    {
        match place {
            Place::AsksIfLives => self.after_asking(table),
            Place::FindsPort => self.after_port(self.live_port(table)),
            _ => Goes::to(Place::Ends, self),
        }
    }

    /// Reads a reverse table: the endpoint that the packet's destination port is bound to.
    pub(crate) fn look_at_bound(self, place: Place, table: &Reverse) -> Goes
        ensures { result ≡ looked place (Taken table.now) self }
    {
        if place != Place::FindsEndpoint {
            return Goes::to(Place::Ends, self);
        }
        self.after_endpoint(table.find(self.source.protocol, self.dest_port))
    }

    /// Notes an answer: the time, or a random word.
    pub(crate) fn told(self, place: Place, answer: u64) -> Goes
        ensures { result ≡ told place answer self }
    {
        match place {
            Place::HearsTime => {
                let noted = Noted {
                    time: answer,
                    ..self
                };
                match self.class {
                    Class::Outbound | Class::Hairpin => Goes::to(Place::FindsMapping, noted),
                    Class::Inbound => Goes::to(Place::FindsEndpoint, noted),
                    Class::OutboundError => Goes::to(Place::FindsPort, noted),
                }
            }
            Place::DrawsWord => Goes::to(
                Place::ReservesPort,
                Noted {
                    word_or_reason: answer,
                    ..self
                },
            ),
            _ => Goes::to(Place::Ends, self),
        }
    }
}

impl NatBox {
    /// Notes a packet's segment in the mapping of its source, where connections are followed and it is of TCP.
    pub(crate) fn follow(&self, noted: &Noted, table: &mut Mappings)
        ensures { table.new ≡ followed_by self.now.settings.closing noted.now table.old }
    {
        let Some(seconds) = self.settings.closing else {
            return;
        };
        if noted.source.protocol == TCP {
            table.mark(&noted.source, seconds, noted.segment);
        }
    }
}
