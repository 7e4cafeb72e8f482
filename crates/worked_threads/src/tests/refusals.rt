//! Streams over rings in which any one request for memory is refused: what is answered then, and what a call answers that is made once more.
//! The script beside the gate refuses each request of these tests in turn.

mod again;
mod memory;

/// What a call says that is out of memory, whatever it has for that itself.
const OUT_OF_MEMORY: &str = "out of memory";
