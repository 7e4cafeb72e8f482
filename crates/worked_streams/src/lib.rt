//! Worked rows of single streams, from their calls to packets, and from packets to what a reader finds: tables of tests, and nothing else.
#![tactic(auto)]

#[cfg(test)]
mod tests;
