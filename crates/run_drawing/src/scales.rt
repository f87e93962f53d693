ghost use Rattle.std.specs.Prelude.{◌≡◌, ◌≤◌};
ghost use Rattle.run_drawing.specs.Scales.{across as across_of, floor_of, overview_high as high_of};
ghost use Rattle.run_drawing.specs.Scales.{tall as tall_of, upwards as upwards_of};

/// Where an event stands among so many, or a time in a span of so much, to the right.
pub fn across(many: u64, index: u64) -> u32
    ensures place { result ≡ across_of many index }
    ensures right { 120 ≤ result }
{
    let place = index.min(10_000_000_000_000_000) * 1000 / 1u64.max(many);
    120 + place.min(1000) as u32
}

/// Where a count stands, upwards.
pub fn upwards(most: u64, number: u64) -> u32
    ensures { result ≡ upwards_of most number }
{
    let height = number.min(1_000_000_000) * 200 / 1u64.max(most);
    260 - height.min(200) as u32
}

/// The floor on which the bars of a thread stand.
pub fn floor(thread: u64) -> u32
    ensures place { result ≡ floor_of thread }
    ensures below { 340 ≤ result }
{
    340 + 40 * thread.min(100) as u32
}

/// How tall a bar of so many moves is.
pub fn tall(most: u64, number: u64) -> u32
    ensures height { result ≡ tall_of most number }
    ensures low { result ≤ 30 }
{
    let height = number.min(1_000_000_000) * 30 / 1u64.max(most);
    height.min(30) as u32
}

/// How high the overview of so many threads is.
pub fn overview_high(threads: u64) -> u32
    ensures { result ≡ high_of threads }
{
    320 + 40 * threads.min(100) as u32
}
