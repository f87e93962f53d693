ghost use Rattle.std.specs.Prelude.{◌≡◌, ◌+◌, ◌*◌, ℕ, Bool};
ghost use Rattle.random_words.specs.Words.{generator_after};
ghost use Rattle.recovery_world.specs.World.{Setting, World};
ghost use Rattle.recovery_world.specs.Many.{chosen};
ghost use Rattle.system_parts.specs.SystemStanding.{StandsFor};
ghost use Rattle.single_events.specs.Single.{IsSingle};
ghost use Rattle.several_events.specs.Choosing.{Counted};

use box_program::Program;
use rand_pcg::Pcg32;
use random_words::next_word;
use recovery_world::Event;
use script_text::auto_event;
use system_parts::Core;

/// How many threads there can be.
const MOST_THREADS: usize = 16;

/// How many entries and outputs each thread had.
fn counts_of_all<P: Program>(core: &Core<P>) -> ([u64; MOST_THREADS], [u64; MOST_THREADS])
    ensures { Counted (P.meaning core.now.program)
        core.now core.now.inputs.threads result.0 result.1 }
{
    let mut entries = [0; MOST_THREADS];
    let mut outputs = [0; MOST_THREADS];
    'threads: for thread in 0..core.inputs.threads() {
        let counts = core.master.counts(thread);
        entries[thread as usize] = counts.entries;
        outputs[thread as usize] = counts.outputs;
    }
    (entries, outputs)
}

/// The event that the next two words choose.
pub fn choose_next<P: Program>(core: &Core<P>, words: &mut Pcg32) -> Event
    ensures chosen { (s : Setting P.Value) (w : World P.Value) (seed k : ℕ)
        → StandsFor (P.meaning core.now.program) s w core.now
        → words.old ≡ generator_after seed (2 * k)
        → result ≡ chosen s seed k w }
    ensures single { (up : Bool) → IsSingle up result }
    ensures words { (seed k : ℕ) → words.old ≡ generator_after seed (2 * k)
        → words.new ≡ generator_after seed (2 * (k + 1)) }
{
    let first = next_word(words);
    let second = next_word(words);
    let threads = core.inputs.threads() as usize;
    let (entries, outputs) = counts_of_all(core);
    auto_event(first, second, &entries[..threads], &outputs[..threads])
}
