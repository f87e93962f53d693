//! What an event came to, as the words behind those of the event.
ghost use Rattle.std.specs.Prelude.{◌≡◌, ◌++◌, codes, List, OnOk};
ghost use Rattle.std.specs.String.{string_bytes};
ghost use Rattle.recovery_world.specs.declared.event.Outcome.TheVariants as outcome_is;
ghost use Rattle.recovery_world.specs.World.{Sent};
ghost use Rattle.plain_text.specs.NumberedWords.{one, two};
ghost use Rattle.recovery_world.specs.Files.{outcome_words, freed_words, sent_names};

use line_tables::{put_one, put_two, put_word};
use plain_text::NoMemory;
use recovery_world::Outcome;

/// Appends words with three numbers in them.
fn put_three(
    text: &mut String,
    word: &str,
    a: u64,
    other: &str,
    b: u64,
    last: &str,
    c: u64,
) -> Result<(), NoMemory>
    ensures { OnOk result (string_bytes text.new
        ≡ string_bytes text.old ++ two word.now a other.now b ++ one last.now c) }
{
    put_two(text, word, a, other, b)?;
    put_one(text, last, c)
}

/// Appends the words of a touch.
fn put_touched(text: &mut String, entry: u64, var: u64, place: u64) -> Result<(), NoMemory>
    ensures { OnOk result (string_bytes text.new
        ≡ string_bytes text.old ++ outcome_words (outcome_is.Touched entry var place)) }
{
    put_three(text, "entry ", entry, " touch ", var, " place ", place)
}

/// Appends the words of a read.
fn put_looked(text: &mut String, entry: u64, var: u64, after: u64) -> Result<(), NoMemory>
    ensures { OnOk result (string_bytes text.new
        ≡ string_bytes text.old ++ outcome_words (outcome_is.Looked entry var after)) }
{
    put_three(text, "entry ", entry, " read ", var, " after ", after)
}

/// Appends the words of an entry that was told a number.
fn put_told(text: &mut String, entry: u64, word: &str, value: u64) -> Result<(), NoMemory>
    ensures { OnOk result (string_bytes text.new
        ≡ string_bytes text.old ++ two (codes "entry ") entry word.now value) }
{
    put_two(text, "entry ", entry, word, value)
}

/// Appends the words of a recovery.
fn put_recovered(text: &mut String, epoch: u64, keeps: u64, drops: u64) -> Result<(), NoMemory>
    ensures { OnOk result (string_bytes text.new
        ≡ string_bytes text.old ++ outcome_words (outcome_is.Recovered epoch keeps drops)) }
{
    put_three(text, "epoch ", epoch, " keeps ", keeps, " drops ", drops)
}

/// Appends the words of what several events made.
fn put_summary(text: &mut String, moves: u64, released: u64, epoch: u64) -> Result<(), NoMemory>
    ensures { OnOk result (string_bytes text.new
        ≡ string_bytes text.old ++ outcome_words (outcome_is.Summary moves released epoch)) }
{
    put_three(
        text,
        "moves ",
        moves,
        " released ",
        released,
        " epoch ",
        epoch,
    )
}

/// Appends the words of an outcome.
pub fn write_outcome(text: &mut String, outcome: &Outcome) -> Result<(), NoMemory>
    ensures { OnOk result
        (string_bytes text.new ≡ string_bytes text.old ++ outcome_words outcome.now) }
{
    match outcome {
        Outcome::Total(n) => put_one(text, "total ", *n),
        Outcome::Set => put_word(text, "set"),
        Outcome::Take(k) => put_one(text, "take ", *k),
        Outcome::Touched { entry, var, place } => put_touched(text, *entry, *var, *place),
        Outcome::Looked { entry, var, after } => put_looked(text, *entry, *var, *after),
        Outcome::ClockTold { entry, value } => put_told(text, *entry, " clock ", *value),
        Outcome::Drawn { entry, value } => put_told(text, *entry, " draw ", *value),
        Outcome::Emitted(j) => put_one(text, "output ", *j),
        Outcome::Ended(k) => put_one(text, "end ", *k),
        Outcome::Idle => put_word(text, "idle"),
        Outcome::Waits { thread, number } => put_two(text, "waits ", *thread, " ", *number),
        Outcome::Down => put_word(text, "down"),
        Outcome::Nothing => put_word(text, "none"),
        Outcome::New => put_word(text, "new"),
        Outcome::Known => put_word(text, "known"),
        Outcome::Released => put_word(text, "released"),
        Outcome::Again => put_word(text, "again"),
        Outcome::Old => put_word(text, "old"),
        Outcome::Short => put_word(text, "short"),
        Outcome::Copied(c) => put_one(text, "copied ", *c),
        Outcome::Covers(c) => put_one(text, "covers ", *c),
        Outcome::Crashed => put_word(text, "done"),
        Outcome::Recovered {
            epoch,
            keeps,
            drops,
        } => put_recovered(text, *epoch, *keeps, *drops),
        Outcome::Up => put_word(text, "up"),
        Outcome::Shown(shown) => put_word(text, shown.as_str()),
        Outcome::Summary {
            moves,
            released,
            epoch,
        } => put_summary(text, *moves, *released, *epoch),
    }
}

/// Appends each released output, by its thread and number, as THREAD:NUMBER with a space before it.
pub fn write_released(text: &mut String, released: &[(u32, u64)]) -> Result<(), NoMemory>
    ensures { OnOk result ((freed : List Sent) → released.now ≡ sent_names freed
        → string_bytes text.new ≡ string_bytes text.old ++ freed_words freed) }
{
    'outputs: for (thread, number) in released {
        put_two(text, " ", u64::from(*thread), ":", *number)?;
    }
    Ok(())
}
