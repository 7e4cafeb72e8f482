//! What a tracer needs of its platform, as traits with laws, and a platform of lists.
#![tactic(auto)]

mod back_end;
mod clock;
mod laws;
mod list_back_end;
mod list_clock;
mod memory_sink;
mod own_back_end;
mod packet_source;
mod script;
mod scripted_back_end;
mod scripted_clock;
mod scripted_sink;
mod scripted_source;
mod sink;
mod stopping_writer;
mod writer_sink;
mod writing;

pub use back_end::BackEnd;
pub use clock::{Clock, ClockSpent};
pub use laws::appended_pieces;
pub use list_back_end::ListBackEnd;
pub use list_clock::ListClock;
pub use memory_sink::MemorySink;
pub use own_back_end::OwnBackEnd;
pub use packet_source::PacketSource;
pub use script::{Script, Turn};
pub use scripted_back_end::ScriptedBackEnd;
pub use scripted_clock::ScriptedClock;
pub use scripted_sink::ScriptedSink;
pub use scripted_source::ScriptedSource;
pub use sink::{Sink, SinkFault};
pub use stopping_writer::StoppingWriter;
pub use writer_sink::WriterSink;
pub use writing::write_all;
