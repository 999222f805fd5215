//! Files by name and a sink for bytes, as traits, in memory and on a real folder.
#![tactic(auto)]

mod changes;
mod faults;
mod folder_files;
mod memory_files;
mod memory_sink;
mod stdout_sink;
#[cfg(test)]
mod tests;
mod traits;

pub use changes::{Change, PutFailed, put_changes};
pub use folder_files::FolderFiles;
pub use memory_files::MemoryFiles;
pub use memory_sink::MemorySink;
pub use stdout_sink::StdoutSink;
pub use traits::{Failed, Files, ReadError, Sink};
