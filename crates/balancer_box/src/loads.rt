ghost use Rattle.std.specs.Prelude.{◌≡◌, ◌++◌, ◌≤◌, IfOk, OnOk, length};
ghost use Rattle.std.specs.String.{string_bytes};
ghost use Rattle.balancer_box.specs.Loads.{raised, lowered, least_loaded, no_loads};
ghost use Rattle.balancer_box.specs.Shown.{loads_text, further_loads};

use plain_text::{NoMemory, Text, put_decimal};
use std::alloc::Global;
use std::marker::Model;

/// The load of each backend, by its number: how many connections it is counted for, modulo 2^64. Contracts see the list
/// of the loads.
#[derive(Debug, Drop)]
pub struct Loads {
    counts: Vec<u64>,
}

impl Model for Loads {
    ghost use Rattle.std.specs.Prelude.{List, ℕ};

    ghost Value = { List ℕ };

    ghost view = { λ l. l.counts.items };
}

impl Loads {
    /// No load of this number of backends.
    pub fn new(alloc: Global, backends: usize) -> Result<Self, NoMemory>
        ensures { IfOk result (λ loads. loads ≡ no_loads backends) }
    {
        Ok(Loads {
            counts: vec![in alloc; 0; backends]?,
        })
    }

    /// The load of one backend grows by 1. Nothing changes where the backend is not there.
    pub fn raise(&mut self, backend: u16)
        ensures { self.new ≡ raised backend self.old }
    {
        let at = usize::from(backend);
        if at < self.counts.len() {
            self.counts[at] = self.counts[at].wrapping_add(1);
        }
    }

    /// The load of one backend falls by 1. Nothing changes where the backend is not there.
    pub fn lower(&mut self, backend: u16)
        ensures { self.new ≡ lowered backend self.old }
    {
        let at = usize::from(backend);
        if at < self.counts.len() {
            self.counts[at] = self.counts[at].wrapping_sub(1);
        }
    }

    /// The backend of least load, the first of equals; 0 where there is none.
    pub fn least(&self) -> u16
        requires { length self.now ≤ 64 }
        ensures { result ≡ least_loaded self.now }
    {
        let mut least = 0;
        for (backend, load) in self.counts.iter().enumerate() {
            if *load < self.counts[least] {
                least = backend;
            }
        }
        least as u16
    }

    /// The same loads.
    pub fn copy(&self) -> Result<Self, NoMemory>
        ensures { IfOk result (λ copy. copy ≡ self.now) }
    {
        Ok(Loads {
            counts: self.counts.clone()?,
        })
    }

    /// The loads by backend, joined by a space.
    pub fn text(&self, alloc: Global) -> Result<Text, NoMemory>
        ensures { IfOk result (λ text. text ≡ loads_text self.now) }
    {
        let mut text = String::new(alloc);
        if let Some((first, others)) = self.counts.split_first() {
            put_decimal(&mut text, *first)?;
            put_others(&mut text, others)?;
        }
        Text::of(alloc, text.as_str())
    }
}

/// Appends further loads, each behind a space.
fn put_others(text: &mut String, others: &[u64]) -> Result<(), NoMemory>
    ensures { OnOk result (string_bytes text.new
        ≡ string_bytes text.old ++ further_loads others.now) }
{
    for count in others {
        text.push_str(" ")?;
        put_decimal(text, *count)?;
    }
    Ok(())
}
