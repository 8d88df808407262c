// The lines of a session script, read as commands.
#![tactic(auto)]

mod bank;
mod command;
mod fields;

pub use bank::words;
pub use command::{Command, parse_entry, parse_line};
