// Sessions: an accepted program that runs over a bank.
#![tactic(auto)]

mod memory;
mod report;
mod session;
mod stack;
mod turn;
mod values;

pub use report::RunReport;
pub use session::Session;
