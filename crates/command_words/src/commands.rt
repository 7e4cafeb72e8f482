//! What the program is asked to do.

use crate::quota::Quota;
use uuid::Uuid;

/// A command with its parts. What was left out has its default.
#[derive(Clone, Copy, Debug)]
pub enum Command<'a> {
    /// Numbers from standard input, traced and read back.
    FirstPath,
    /// Judges the configuration in the file of this path.
    Check(&'a str),
    Metadata(MetadataCommand<'a>),
    Trace(TraceCommand<'a>),
    Read(ReadCommand<'a>),
}

/// Prints the metadata of a configuration.
#[derive(Clone, Copy, Debug)]
pub struct MetadataCommand<'a> {
    /// The path of the configuration's file.
    pub config: &'a str,
    /// The trace's identifier, where the configuration asks for one to be handed in.
    pub uuid: Option<Uuid>,
}

/// Traces the events of a script into a new folder, or behind the trace that is in a folder.
#[derive(Clone, Copy, Debug)]
pub struct TraceCommand<'a> {
    /// The path of the configuration's file.
    pub config: &'a str,
    /// The path of the script's file.
    pub script: &'a str,
    /// The path of the folder that is made, or in which the trace goes on.
    pub folder: &'a str,
    /// The bytes of a packet, from 1 to `MOST_PACKET_BYTES`.
    pub packet_bytes: u32,
    /// The packets that a stream keeps until they are collected, from 1 to `MOST_BUFFERS`.
    pub buffers: u32,
    /// The trace's identifier, where the configuration asks for one to be handed in.
    pub uuid: Option<Uuid>,
    /// Whether no progress is said.
    pub is_quiet: bool,
    /// Where each stream is traced in a thread of its own, how many readings each may make of the clock that they share.
    pub workers: Option<Quota>,
    pub resume: Resuming,
}

/// Where a trace begins.
#[derive(Clone, Copy, Debug)]
pub enum Resuming {
    /// In a folder that is made for it.
    Anew,
    /// Behind the trace in a folder that is there.
    Behind,
}

/// Prints the trace in a folder.
#[derive(Clone, Copy, Debug)]
pub struct ReadCommand<'a> {
    /// The path of the folder.
    pub folder: &'a str,
    /// Whether no progress is said.
    pub is_quiet: bool,
}

/// The most bytes that a packet may have.
pub const MOST_PACKET_BYTES: u32 = 1 << 20;

/// The most buffers that a stream may have.
pub const MOST_BUFFERS: u32 = 1024;
