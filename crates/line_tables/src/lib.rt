//! Tables of lines: the forms that a line may have, each with its first word and with what stands at the places after
//! it. The words of a line are read as values, and they make the thing that the line says. And how words with numbers
//! are written.
#![tactic(auto)]

mod part;
mod table;
mod values;
mod writing;

pub use part::{Part, kind_of};
pub use table::{LineTable, read_thing};
pub use values::MOST_VALUES;
pub use writing::{put_one, put_two, put_word, word_of_kind};
