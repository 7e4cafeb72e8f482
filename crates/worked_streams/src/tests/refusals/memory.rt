//! Runs that end where a request is refused, each answering want of memory.

mod stream_readers;
