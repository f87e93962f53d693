ghost use Rattle.std.specs.Prelude.{◌≡◌, IfOk};
ghost use Rattle.live_workers.specs.Draws.{generators_of};

use plain_text::NoMemory;
use rand_pcg::Pcg32;
use round_join::Moves;
use std::alloc::Global;
use std::marker::Model;
use std::mem;

/// The stream of the generator of worker 0; that of worker t is t further.
const FIRST_STREAM: u64 = 55;

/// The generators of the workers' free draws, one for each thread. They go on from round to round.
///
/// With them goes the room that the workers have for their moves.
#[derive(Drop)]
pub struct Draws {
    generators: Vec<Pcg32>,
    rooms: Vec<Moves>,
}

impl Model for Draws {
    ghost use Rattle.std.specs.Prelude.{List};
    ghost use Rattle.rand_pcg.specs.Lcg.{Lcg};

    ghost Value = { List Lcg };

    ghost view = { λ d. d.generators.items };
}

impl Draws {
    /// Those of a seed, for this number of threads, before their first words.
    #[tactic(auto, using(crate::proofs::Generators::one_more))]
    pub fn new(alloc: Global, seed: u64, threads: u32) -> Result<Self, NoMemory>
        ensures { IfOk result (λ draws. draws ≡ generators_of seed 0 threads) }
    {
        let mut generators = Vec::new(alloc);
        for thread in 0..threads {
            generators.push(Pcg32::new(seed, FIRST_STREAM + u64::from(thread)))?;
        }
        Ok(Draws {
            generators,
            rooms: Vec::new(alloc),
        })
    }

    /// The room of the round before, by thread; none of the first round.
    pub(crate) fn take_rooms(&mut self, alloc: Global) -> Vec<Moves>
        ensures { self.new ≡ self.old }
    {
        mem::replace(&mut self.rooms, Vec::new(alloc))
    }

    /// The generators, by thread.
    pub(crate) fn into_vec(self) -> Vec<Pcg32>
        ensures { result.items ≡ self }
    {
        self.generators
    }

    pub(crate) fn of(generators: Vec<Pcg32>, rooms: Vec<Moves>) -> Self
        ensures { result ≡ generators.items }
    {
        Draws { generators, rooms }
    }
}
