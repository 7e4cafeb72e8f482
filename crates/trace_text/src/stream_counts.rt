//! What is told of a stream file beside its name and its end.

/// What is told of a stream file beside its name and its end.
#[derive(Clone, Copy)]
pub(crate) struct StreamCounts {
    pub(crate) packets: u64,
    pub(crate) records: u128,
    /// The snapshot of the last packet.
    pub(crate) discarded: Option<u64>,
    /// How many packets have not the number after that of the packet before them.
    pub(crate) gaps: Option<u64>,
}
