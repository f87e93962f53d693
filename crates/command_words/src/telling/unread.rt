use super::advice::{Advice, tell, tell_error};
use super::files::reading_error;
use super::shown::Shown;
use crate::word_places::read_places;
use plain_text::Text;
use std::io;
use std::path::Path;
use std::rt::Files;

/// What is in the way of an input.
#[derive(Drop)]
enum Obstacle {
    Folder,
    /// What the system says of the name.
    Error(io::Error),
}

/// Tells which of the inputs is not there, and what the system says of it. Nothing is told where each is there: then
/// reading failed.
pub fn tell_unread<R: AllocGlobal + Files + Eprint>(rt: &R, words: &[Text]) -> io::Result<()> {
    let places = read_places(words);
    for place in 0..words.len() {
        if !places.is_input(place) {
            continue;
        }
        let name = words[place].as_str();
        let shown = Shown::name(name);
        match find_obstacle(rt, name) {
            Some(Obstacle::Folder) => return tell(
                rt,
                Some(Advice::Name(shown, ": it is a folder")),
            ),
            Some(Obstacle::Error(error)) => return tell_error(rt, shown, &error),
            None => {}
        }
    }
    Ok(())
}

fn find_obstacle<R: Files>(rt: &R, name: &str) -> Option<Obstacle> {
    match Path::new(name).metadata(rt) {
        Ok(about) if about.is_dir() => Some(Obstacle::Folder),
        Ok(about) if about.is_file() => Some(Obstacle::Error(reading_error(rt, name)?)),
        Ok(_) => None,
        Err(error) => Some(Obstacle::Error(error)),
    }
}
