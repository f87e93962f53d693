ghost use Rattle.std.specs.Prelude.{◌≡◌, ◌≤◌, length};
ghost use Rattle.script_text.specs.Choosing.{chosen_event, number_before};

use recovery_world::Event;

/// The event that two random words choose, where the lists have the numbers of entries and of outputs of each thread.
///
/// The thread is `b` modulo the number of threads, and `a` modulo 32 chooses the event: 0 to 15 a step of the thread,
/// 16 to 18 a packet that is fed, 19 to 24 the arrival of one of its last four entries, 25 to 28 of one of its last
/// four outputs, 29 a snapshot, and 30 and 31 its storing. Which of the four is `b` / 16 modulo 4; it is at least
/// number 1.
pub fn auto_event(a: u32, b: u32, entries: &[u64], outputs: &[u64]) -> Event
    requires threads { (1 ≤ length entries.now) × (length entries.now ≤ 16) }
    requires alike { length outputs.now ≡ length entries.now }
    ensures { result ≡ chosen_event a b entries.now outputs.now }
{
    let thread = b as usize % entries.len();
    let back = u64::from(b / 16 % 4);
    match a % 32 {
        0..=15 => Event::Step {
            thread: thread as u64,
            answer: None,
        },
        16..=18 => Event::Feed(1),
        19..=24 => Event::Log {
            thread: thread as u64,
            number: one_of_last(entries[thread], back),
        },
        25..=28 => Event::Out {
            thread: thread as u64,
            number: one_of_last(outputs[thread], back),
        },
        29 => Event::Snap,
        _ => Event::Store,
    }
}

/// The number this far before the last of those up to a count, and at least 1.
fn one_of_last(count: u64, back: u64) -> u64
    ensures { result ≡ number_before count back }
{
    count.saturating_sub(back).max(1)
}
