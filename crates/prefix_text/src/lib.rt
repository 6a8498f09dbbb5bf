//! The words and lines of the program: commands, lines of entries, what the commands print, and the generator of tables.
#![tactic(auto)]

mod command;
mod forms;
mod generator;
pub mod laws;
mod lines;
pub mod rows;
#[cfg(test)]
mod tests;
mod text;

pub use command::{Command, parse_command};
pub use forms::EitherPrefix;
pub use generator::Generator;
pub use lines::{Entry, first_bad_line, parse_entry, split_line};
pub use text::{
    Counts, Sizes, bad_line, push_aggregate, push_check, push_entry, push_found, push_sizes,
};
