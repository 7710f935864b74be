//! The edge of the planner: names that have bytes, and a place to put bytes.
#![tactic(auto)]

mod files;
mod folder;
mod memory_shelf;
mod memory_sink;
mod schedule;
mod shelf;
mod sink;
mod std_sink;
mod text;

pub use answers::{List, NoMemory, Stop};
pub use files::FileShelf;
pub use folder::Folder;
pub use memory_shelf::MemShelf;
pub use memory_sink::MemSink;
pub use shelf::{Shelf, ShelfError};
pub use sink::{Sink, SinkFailed};
pub use std_sink::StdSink;
pub use text::Text;
