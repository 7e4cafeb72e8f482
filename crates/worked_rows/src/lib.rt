//! Worked rows of sessions, of scripts, and of whole traces: tables of tests, and nothing else.
#![tactic(auto)]

#[cfg(test)]
mod tests;
