// Accepting a program: its shape and its type rules.
#![tactic(auto)]

mod accepting;
mod access;
mod nested;
mod nesting;
mod program;
mod shape;
mod tables;
mod walk;

pub use accepting::accept;
pub use program::Program;
