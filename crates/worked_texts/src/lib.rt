//! Worked rows of single crates that read and write texts, configurations and metadata, and each of their public calls once with ample memory: tests, and nothing else.
#![tactic(auto)]

#[cfg(test)]
mod tests;
