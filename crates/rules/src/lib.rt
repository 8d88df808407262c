// What a single record must keep: the checks of its shape and its type rules, generic over every label order.
#![tactic(auto)]

mod faults;
mod operands;
mod shape;
mod typing;

pub use faults::{RuleFault, ShapeFault};
pub use operands::Labelled;
pub use shape::{branches, check_record, record_at, variable_at};
pub use typing::{around, broken_rule, label_operands};
