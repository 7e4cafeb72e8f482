//! What is done next while stream files are read side by side.

/// What is done next, with a file by its place in the list.
pub(crate) enum Step {
    /// Its next packet is read.
    Read(usize),
    /// Its record is told.
    Tell(usize),
    /// All is told.
    Over,
}
