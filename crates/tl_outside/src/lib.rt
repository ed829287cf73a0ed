//! What lies outside the planner: files that are read as a whole, and answers that are written as a
//! whole.
#![tactic(auto)]

mod failed;
mod file_list;
mod file_store;
mod machine;
mod memory_sink;
mod memory_store;
mod out_sink;
mod reading;
mod script;
mod sink;
mod store;
mod writing;

pub use failed::Failed;
pub use file_list::FileList;
pub use file_store::FileStore;
pub use memory_sink::MemorySink;
pub use memory_store::MemoryStore;
pub use out_sink::OutSink;
pub use reading::{ReadFault, read_whole};
pub use script::Numbers;
pub use sink::Sink;
pub use store::Store;
pub use writing::write_whole;
