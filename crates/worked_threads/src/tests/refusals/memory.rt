//! Runs that end where a request is refused, each answering want of memory. Where a run goes on without its sink or without a thread it does so as stated, and
//! then says so too.

mod held_packet;
pub mod two_workers;
