//! Worked rows of streams in threads of their own, and of what one tells another: tables of tests, and nothing else.
#![tactic(auto)]

#[cfg(test)]
mod tests;
