// An order and a bank that are chosen while the program runs.
#![tactic(auto)]

mod bank;
mod order;

pub use bank::AnyBank;
pub use order::AnyOrder;
