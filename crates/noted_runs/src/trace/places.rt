ghost use Rattle.std.specs.Prelude.{◌≡◌, ◌+◌, ◌∷◌, ◌++◌, [], ℕ, List, IfOk, OnOk, length};
ghost use Rattle.std.specs.Prelude.{replicate};
ghost use Rattle.std.specs.Prelude.{slice_index_or};
ghost use Rattle.noted_runs.specs.Places.{HasPlaces, IsNoted};

use plain_text::NoMemory;
use std::alloc::Global;
use std::marker::Model;

/// The places, from 1, of the released outputs of a thread in the order of release, by their numbers. Contracts see
/// them as a list, in which 0 stands for none.
#[derive(Drop)]
pub struct Places {
    places: Vec<u64>,
}

impl Model for Places {
    ghost use Rattle.std.specs.Prelude.{List, ℕ};

    ghost Value = { List ℕ };

    ghost view = { λ p. p.places.items };
}

impl Places {
    /// No places.
    fn new(alloc: Global) -> Self
        ensures { result ≡ [] }
    {
        Places {
            places: Vec::new(alloc),
        }
    }

    /// The place of the output with this number; 0 where there is none.
    fn place(&self, number: u64) -> u64
        ensures { result ≡ slice_index_or self.now number 0 }
    {
        match self.places.get(number as usize) {
            Some(place) => *place,
            None => 0,
        }
    }

    /// Notes the place of the output with this number, unless it has one.
    fn note(&mut self, number: u64, place: u64) -> Result<(), NoMemory>
        ensures { OnOk result (IsNoted number place self.old self.new) }
    {
        if self.place(number) != 0 {
            return Ok(());
        }
        let Some(count) = number.checked_add(1) else {
            return Err(NoMemory);
        };
        if self.places.len() < count as usize {
            self.places.resize(count as usize, 0)?;
        }
        self.places[number as usize] = place;
        Ok(())
    }
}

/// No places, for each thread.
fn no_places(alloc: Global, threads: u32) -> Result<Vec<Places>, NoMemory>
    ensures { IfOk result (λ lists. lists.items ≡ replicate threads []) }
{
    let mut lists = Vec::new(alloc);
    for _ in 0..threads {
        lists.push(Places::new(alloc))?;
    }
    Ok(lists)
}

/// Notes the place of an output, by its thread and number, unless it has one. One of no thread is not noted.
fn note_name(lists: &mut Vec<Places>, name: (u32, u64), place: u64) -> Result<(), NoMemory>
    ensures { OnOk result ((threads : ℕ) (names : List (ℕ × ℕ)) → place ≡ length names + 1
        → HasPlaces threads names lists.old.items
        → HasPlaces threads (names ++ name ∷ []) lists.new.items) }
{
    let at = name.0 as usize;
    if at >= lists.len() {
        return Ok(());
    }
    lists[at].note(name.1, place)
}

/// For each thread the places of its released outputs, by the threads and numbers of these in the order of release.
pub fn find_places(
    alloc: Global,
    threads: u32,
    names: &[(u32, u64)],
) -> Result<Vec<Places>, NoMemory>
    ensures { IfOk result (λ lists. HasPlaces threads names.now lists.items) }
{
    let mut lists = no_places(alloc, threads)?;
    for (index, name) in names.iter().enumerate() {
        note_name(&mut lists, *name, index as u64 + 1)?;
    }
    Ok(lists)
}

/// The place of the output of this thread and number in the order of release; 0 where it was not released.
pub fn place_of(lists: &[Places], thread: u32, number: u64) -> u64
    ensures { result ≡ slice_index_or (slice_index_or lists.now thread []) number 0 }
{
    match lists.get(thread as usize) {
        Some(list) => list.place(number),
        None => 0,
    }
}
