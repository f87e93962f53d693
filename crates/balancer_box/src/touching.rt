ghost use Rattle.std.specs.Prelude.{◌≡◌, ◌≤◌, ◌<◌, ◌^◌, ℕ, IfOk, OnErr, length, Option, None};
ghost use Rattle.balancer_box.specs.Balancer.{goes, dropped, begins, goes_to, after_find};
ghost use Rattle.balancer_box.specs.Balancer.{after_bind, after_check, touched, told};
ghost use Rattle.balancer_box.specs.Balancer.{no_connection, finds, connects, checks};
ghost use Rattle.balancer_box.specs.declared.value.BalancerValue.TheVariants.{Dropped, Loaded};
ghost use Rattle.balancer_box.specs.declared.value.BalancerValue.TheVariants.{Connected};

use crate::{Class, Connections, Goes, Loads, Noted, Place};
use flow_boxes::Drops;
use nat_tables::{Bind, Find};
use plain_text::NoMemory;

/// The reason for which a packet is dropped that is of no connection and can begin none.
const NO_CONNECTION: u64 = 7;

impl Goes {
    pub(crate) fn to(place: Place, noted: Noted) -> Goes
        ensures { result ≡ goes place noted }
    {
        Goes { place, noted }
    }
}

impl Noted {
    /// The packet is dropped for this reason.
    fn dropped(self, reason: u64) -> Goes
        ensures { result ≡ dropped self reason }
    {
        Goes::to(Place::CountsDrop, Noted { reason, ..self })
    }

    /// The packet is of no connection: it begins one, unless it resets it.
    pub(crate) fn begins(self) -> Goes
        ensures { result ≡ begins self self.resets }
    {
        if self.resets {
            self.dropped(NO_CONNECTION)
        } else {
            Goes::to(Place::RaisesLeast, self)
        }
    }

    /// The packet is an answer to a client that is not connected to its backend.
    pub(crate) fn unconnected(self) -> Goes
        ensures { result ≡ dropped self no_connection }
    {
        self.dropped(NO_CONNECTION)
    }

    /// The packet goes to the backend of its connection, or comes from there. Where it closed or ended the connection,
    /// the load of the backend is lowered first.
    pub(crate) fn goes_to_where(self, ends: bool, backend: u16) -> Goes
        ensures { result ≡ goes_to self ends backend }
    {
        if ends {
            Goes::to(
                Place::LowersSpare,
                Noted {
                    backend,
                    spare: backend,
                    ..self
                },
            )
        } else {
            Goes::to(Place::SendsOut, Noted { backend, ..self })
        }
    }

    fn goes_to(self, backend: u16) -> Goes
        ensures { result ≡ goes_to self self.resets backend }
    {
        self.goes_to_where(self.resets, backend)
    }

    fn after_find(self, found: Find) -> Goes
        ensures { result ≡ after_find self found }
    {
        match found {
            Find::Live(backend) => self.goes_to(backend),
            Find::Absent(Some(idle)) => Goes::to(
                Place::LowersIdle,
                Noted {
                    spare: idle.port,
                    ..self
                },
            ),
            Find::Absent(None) => self.begins(),
        }
    }

    /// A backend that another packet's connection made needless is given up.
    fn after_bind(self, bind: Bind) -> Goes
        ensures { result ≡ after_bind self bind }
    {
        match bind {
            Bind::Bound => Goes::to(Place::SendsOut, self),
            Bind::Other(backend) => Goes::to(
                Place::LowersSpare,
                Noted {
                    backend,
                    spare: self.backend,
                    ..self
                },
            ),
        }
    }

    fn after_check(self, there: bool) -> Goes
        ensures { result ≡ after_check self there }
    {
        if there {
            self.goes_to(self.backend)
        } else {
            self.dropped(NO_CONNECTION)
        }
    }

    /// Touches the counts of drops.
    pub(crate) fn touch_drops(self, place: Place, drops: &mut Drops) -> Goes
        ensures { (closing : Option ℕ)
            → (Dropped drops.new, result) ≡ touched closing place (Dropped drops.old) self }
    {
        if place == Place::CountsDrop {
            drops.add(self.reason);
        }
        Goes::to(Place::Ends, self)
    }

    /// Touches the loads.
    pub(crate) fn touch_loads(self, place: Place, loads: &mut Loads) -> Goes
        requires { length loads.old ≤ 64 }
        ensures { (closing : Option ℕ)
            → (Loaded loads.new, result) ≡ touched closing place (Loaded loads.old) self }
    {
        match place {
            Place::LowersIdle => {
                loads.lower(self.spare);
                self.begins()
            }
            Place::RaisesLeast => {
                let backend = loads.least();
                loads.raise(backend);
                Goes::to(Place::Connects, Noted { backend, ..self })
            }
            Place::LowersVain => {
                loads.lower(self.spare);
                Goes::to(
                    Place::LowersSpare,
                    Noted {
                        spare: self.backend,
                        ..self
                    },
                )
            }
            Place::LowersSpare => {
                loads.lower(self.spare);
                Goes::to(Place::SendsOut, self)
            }
            _ => Goes::to(Place::Ends, self),
        }
    }

    /// A client's packet looks for its connection.
    fn finds(self, closing: Option<u32>, table: &mut Connections) -> Goes
        ensures { (table.new, result) ≡ finds closing self table.old }
    {
        match closing {
            Some(seconds) => self.finds_followed(seconds, table),
            None => {
                let found = table.find(&self.client, self.time, self.resets);
                self.after_find(found)
            }
        }
    }

    /// A client's packet connects its client.
    fn connects(self, closing: Option<u32>, table: &mut Connections) -> Result<Goes, NoMemory>
        ensures ok { IfOk result (λ goes. (table.new, goes) ≡ connects closing self table.old) }
        ensures err { OnErr result (table.new ≡ table.old) }
    {
        match closing {
            Some(seconds) => self.connects_followed(seconds, table),
            None => {
                let bind = table.find_or_bind(&self.client, self.backend, self.time)?;
                Ok(self.after_bind(bind))
            }
        }
    }

    /// An answer looks for its client's connection.
    fn checks(self, closing: Option<u32>, table: &mut Connections) -> Goes
        ensures { (table.new, result) ≡ checks closing self table.old }
    {
        match closing {
            Some(seconds) => self.checks_followed(seconds, table),
            None => {
                let there = table.check(&self.client, self.backend, self.time, self.resets);
                self.after_check(there)
            }
        }
    }

    /// Touches a connection table.
    pub(crate) fn touch_connections(
        self,
        closing: Option<u32>,
        place: Place,
        table: &mut Connections,
    ) -> Result<Goes, NoMemory>
        ensures ok { IfOk result (λ goes. (Connected table.new, goes)
            ≡ touched closing place (Connected table.old) self) }
        ensures err { OnErr result (table.new ≡ table.old) }
    {
        match place {
            Place::FindsConnection => Ok(self.finds(closing, table)),
            Place::Connects => self.connects(closing, table),
            Place::ChecksConnection => Ok(self.checks(closing, table)),
            _ => Ok(Goes::to(Place::Ends, self)),
        }
    }

    /// Notes the time.
    pub(crate) fn told(self, place: Place, answer: u64) -> Goes
        ensures { result ≡ told place answer self }
    {
        if place != Place::HearsTime {
            return Goes::to(Place::Ends, self);
        }
        let noted = Noted {
            time: answer,
            ..self
        };
        match self.class {
            Class::Client => Goes::to(Place::FindsConnection, noted),
            Class::Answer => Goes::to(Place::ChecksConnection, noted),
        }
    }
}
