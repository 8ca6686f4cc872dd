//! The traits of the outside: shelves that files are read from, sinks that text is written to.
#![tactic(auto)]

mod calls;
mod dir_shelf;
mod error;
mod mem_shelf;
mod mem_sink;
mod reading;
mod shelf;
mod sink;
mod std_sink;
mod writing;

pub use dir_shelf::DirShelf;
pub use error::{Failed, ReadFault};
pub use mem_shelf::MemShelf;
pub use mem_sink::MemSink;
pub use reading::read_file;
pub use shelf::Shelf;
pub use sink::Sink;
pub use std_sink::StdSink;
pub use writing::emit;
