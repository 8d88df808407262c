// Two sessions of one program, and what a party's logs of them tell.
#![tactic(auto)]

mod call;
mod comparing;
mod fault;
mod faults;
mod logs;
mod performing;

pub use call::Call;
pub use comparing::compare;
pub use fault::CompareFault;
pub use logs::Logs;
