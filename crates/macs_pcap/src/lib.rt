//! Classic captures of Ethernet frames, from any source of octets and to any sink.
#![tactic(auto)]

mod fault;
mod fields;
mod header;
pub mod laws;
mod moving;
mod reader;
mod sink;
mod source;
mod writer;

pub use fault::PcapFault;
pub use header::{Header, LONGEST, Stamp};
pub use reader::{PcapReader, read_header, read_record};
pub use sink::{Sink, WriteFailed, WriterSink};
pub use source::{ReadFailed, ReaderSource, Source};
pub use writer::{PcapWriter, write_header, write_record};
