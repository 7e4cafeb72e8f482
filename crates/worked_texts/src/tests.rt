//! A module a subject.

mod again;
mod command_line;
mod configurations;
mod denoted;
mod faults;
mod metadata;
mod rows;
mod tables;
mod tokens;
mod words;
