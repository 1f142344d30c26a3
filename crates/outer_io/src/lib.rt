//! The outside of a program: bytes that come in, bytes that go out, and files, each with a count of its faults.
//! Objects in memory tell their bytes, and fail at chosen calls or never. Objects over streams tell what
//! their streams tell, which for those of the system is nothing.
#![tactic(auto)]

mod call_limits;
mod failing_calls;
mod files;
mod link;
mod link_times;
mod mem_files;
mod mem_link;
mod mem_sink;
mod mem_source;
mod phase;
mod plain_files;
mod plain_source;
mod read_calls;
mod reader_source;
mod sink;
mod source;
mod stream_link;
mod system_answer;
mod system_files;
mod system_stream;
mod write_calls;
mod writer_sink;

pub use files::{FileAnswer, Files};
pub use link::Link;
pub use link_times::LinkTimes;
pub use mem_files::MemFiles;
pub use mem_link::MemLink;
pub use mem_sink::MemSink;
pub use mem_source::MemSource;
pub use plain_files::PlainFiles;
pub use plain_source::PlainSource;
pub use reader_source::ReaderSource;
pub use sink::{Put, Sink, Written, write_all, write_four, write_two};
pub use source::{Got, Source};
pub use stream_link::StreamLink;
pub use system_files::{SystemFiles, read_file};
pub use writer_sink::WriterSink;
