//! The outside of the solver: folders of named files, what takes bytes, and the gate that workers pass. Each is
//! a trait that says what its calls mean; here are also the calls that read a whole file and write a whole text,
//! fakes in memory whose every byte a contract can name, and the thin edges over the real folder and a real
//! writer.
#![tactic(auto)]

mod folder_shelf;
mod gate;
mod loading;
mod mem_folder;
mod mem_shelf;
mod mem_sink;
mod schedule;
mod shelf;
mod sink;
mod steady_shelf;
mod steady_sink;
mod storing;
mod stream_sink;

pub use folder_shelf::FolderShelf;
pub use gate::{Gate, OpenGate};
pub use loading::{LoadFault, load};
pub use mem_folder::MemFile;
pub use mem_shelf::MemShelf;
pub use mem_sink::MemSink;
pub use shelf::{Shelf, ShelfFault};
pub use sink::{Sink, SinkFault, put};
pub use steady_shelf::SteadyShelf;
pub use steady_sink::SteadySink;
pub use storing::store;
pub use stream_sink::StreamSink;
