//! The outside: a world of named files, sources and sinks of bytes, and a clock.
#![tactic(auto)]

mod all;
mod beginning;
mod buffered;
mod calls;
mod clock;
mod files;
mod memory_file;
mod memory_world;
mod names;
mod piece;
mod stream;
mod world;
mod world_stream;

pub use all::{WriteError, write_all};
pub use beginning::{Front, FrontError, read_front};
pub use buffered::BufferedSource;
pub use clock::{Clock, FixedClock};
pub use memory_world::MemoryWorld;
pub use piece::{fill_behind, fill_piece, read_behind};
pub use stream::{Filled, Put, Sink, SliceSource, Source};
pub use world::{OpenFault, World};
pub use world_stream::{WorldSink, WorldSource};
