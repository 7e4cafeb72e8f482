//! Worked rows of single crates, from values and bits to streams, collectors and merged orders, and each of their public calls once with ample memory: tests, and nothing else.
#![tactic(auto)]

#[cfg(test)]
mod tests;
