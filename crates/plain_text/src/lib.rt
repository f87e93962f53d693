//! Bytes, texts, packets and numbers: the plain data that every other crate of FTMB speaks of, and the lines of its
//! text files.
#![tactic(auto)]

mod bytes;
mod fault;
mod field;
mod kind;
mod laws;
mod limit;
mod line;
mod line_file;
mod memory;
mod number;
mod packet;
mod sequence;
mod text;
mod word;

pub use bytes::{Bytes, copy_with_room};
pub use fault::{LineCause, LineFault, ReadError};
pub use field::{Field, end_of_line, read_field};
pub use kind::Kind;
pub use laws::{a_line_is_one_thing, a_text_has_one_first_fault};
pub use limit::{
    Limit, MOST_CAPTURED, MOST_EVENTS, MOST_FILE_BYTES, MOST_MOVES, MOST_OUTPUT_BYTES, MOST_PACKETS,
};
pub use line::{Line, LineIter, count_lines, lines};
pub use line_file::{LineFile, WrittenFile, put_lines, read_lines};
pub use memory::NoMemory;
pub use number::{put_decimal, put_u64, read_address, read_u64};
pub use packet::{HEADER_ROOM, Packet, Packets, Unit};
pub use sequence::Sequence;
pub use text::Text;
pub use word::{WordIter, words};
