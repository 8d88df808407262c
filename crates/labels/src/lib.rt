// Label orders: who may see what, behind one interface.
#![tactic(auto)]

mod fault;
mod order;
mod party_set;
mod two_party;

pub use fault::OrderFault;
pub use order::LabelOrder;
pub use party_set::PartySet;
pub use two_party::TwoParty;
