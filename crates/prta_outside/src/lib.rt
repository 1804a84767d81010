//! What lies outside the program, behind two traits: a shelf of named files to read, and a sink of bytes to write.
#![tactic(auto)]

mod calls;
mod disk;
mod faults;
mod folder_shelf;
mod memory_shelf;
mod memory_sink;
mod shelf;
mod sink;
mod std_sink;

pub use folder_shelf::FolderShelf;
pub use memory_shelf::MemoryShelf;
pub use memory_sink::MemorySink;
pub use shelf::{Shelf, ShelfFault};
pub use sink::{Sink, SinkFault};
pub use std_sink::StdSink;
