// The program sheet: its tables, its bytes, and the reading and laying out between them.
#![tactic(auto)]

mod answers;
mod codec;
mod encode;
mod faults;
mod laying;
mod reading;
mod sheet;
mod tables;
mod writing;

pub use faults::SheetFault;
pub use laying::lay_out;
pub use sheet::ReadSheet;
pub use tables::{Form, Kind, Op, Record, UnknownOp, Variable};
