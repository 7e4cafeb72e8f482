//! Worked rows over workers, and over streams at one clock.

mod clocked_streams;
mod ended_threads;
mod expected;
mod refusals;
mod ring_stream;
mod telling;
mod thread_gates;
mod thread_steps;
mod threads;
