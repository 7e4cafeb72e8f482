//! Worked rows over single streams and their files that no run of the program shows; its cases show the others.

mod changed_bytes;
mod declined_ends;
mod expected;
mod found_in_files;
mod lying_lengths;
mod memory;
mod number_configuration;
mod number_files;
mod packet_by_packet;
mod platform_limits;
mod recycled_buffers;
mod refusals;
mod rings;
mod stream_files;
mod streams;
