//! What lies outside a run: files that are read and a sink that is written to, as traits whose contracts say what a
//! call did and when it may fail, with fakes in memory for tests and the real ones of the system; and a gate that workers
//! come past.
#![tactic(auto)]

mod count;
mod disk_files;
mod files;
mod gate;
mod interrupted;
mod mem_files;
mod mem_sink;
mod opened;
mod out_sink;
mod plan;
mod shelf;
mod sink;
mod sure_files;
mod sure_sink;

pub use disk_files::DiskFiles;
pub use files::{Failed, FileFault, Files, read_file};
pub use gate::{Gate, OpenGate};
pub use mem_files::MemFiles;
pub use mem_sink::MemSink;
pub use out_sink::OutSink;
pub use sink::{Sink, write_all};
pub use sure_files::SureFiles;
pub use sure_sink::SureSink;
