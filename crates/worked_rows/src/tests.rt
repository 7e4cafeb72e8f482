//! Worked rows over sessions, scripts and whole traces: what no run of the program shows.

mod added_streams;
mod again;
mod example;
mod expected;
mod failing_readers;
mod positions;
mod printed_traces;
mod scripts;
mod session_steps;
