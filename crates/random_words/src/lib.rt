//! The random words of a seed: those of a Pcg32 (O'Neill, "PCG: A Family of Simple Fast Space-Efficient Statistically
//! Good Algorithms for Random Number Generation") that starts at it, on one stream.
#![tactic(auto)]

ghost use Rattle.std.specs.Prelude.{◌≡◌, ℕ, ◌+◌};
ghost use Rattle.random_words.specs.Words.{generator_after, word_of};

use rand_core::utils::NextWord;
use rand_pcg::Pcg32;

/// The stream of the generator, whatever the seed.
const STREAM: u64 = 54;

/// The generator of a seed, before its first word.
pub fn generator(seed: u64) -> Pcg32
    ensures fresh { result ≡ generator_after seed 0 }
{
    Pcg32::new(seed, STREAM)
}

/// The next word of a seed, of 32 bits.
pub fn next_word(generator: &mut Pcg32) -> u32
    ensures word { (seed count : ℕ) → generator.old ≡ generator_after seed count
        → result ≡ word_of seed count }
    ensures after { (seed count : ℕ) → generator.old ≡ generator_after seed count
        → generator.new ≡ generator_after seed (count + 1) }
{
    generator.next_word()
}
