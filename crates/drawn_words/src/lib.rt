//! The words that a system draws: those of a seed, in order, and how many of them were drawn. A system that another one
//! goes on from says by that number where its words go on.
#![tactic(auto)]

ghost use Rattle.std.specs.Prelude.{◌≡◌, ◌+◌, ℕ};
ghost use Rattle.random_words.specs.Words.{word_of};
ghost use Rattle.drawn_words.specs.Drawn.{drawn_after};

use rand_pcg::Pcg32;
use random_words::generator;
use std::marker::Model;

/// The generator of the words of a seed, and how many of them were drawn.
#[derive(Drop)]
pub struct DrawnWords {
    generator: Pcg32,
    /// Modulo 2^64; a run has at most 2,000,000 moves, and draws at most one word by each.
    drawn: u64,
}

impl Model for DrawnWords {
    ghost use Rattle.drawn_words.specs.Drawn.{Drawn};

    ghost Value = { Drawn };

    ghost view = { λ y. record { generator = y.generator; drawn = y.drawn } };
}

/// The words of a seed, behind this number of them.
pub fn words_behind(seed: u64, drawn: u64) -> DrawnWords
    ensures { result ≡ drawn_after seed drawn }
{
    let mut generator = generator(seed);
    generator.advance(drawn);
    DrawnWords { generator, drawn }
}

/// Draws the next word of the seed, of 32 bits.
pub fn draw(words: &mut DrawnWords) -> u32
    ensures word { (seed count : ℕ) → words.old ≡ drawn_after seed count
        → result ≡ word_of seed count }
    ensures after { (seed count : ℕ) → words.old ≡ drawn_after seed count
        → words.new ≡ drawn_after seed (count + 1) }
{
    words.drawn = words.drawn.wrapping_add(1);
    random_words::next_word(&mut words.generator)
}

impl DrawnWords {
    /// How many words were drawn, modulo 2^64.
    pub fn drawn(&self) -> u64
        ensures { result ≡ self.now.drawn }
    {
        self.drawn
    }
}
