// What a program answers of its order and its tables.
ghost use Rattle.std.specs.Prelude.{◌≡◌, ◌≤◌, length};
ghost use Rattle.model.specs.Nesting.{record_at};
ghost use Rattle.model.specs.Program.{variable_at};
ghost use Rattle.checker.specs.Contents.{contents};

use crate::program::Program;
use labels::LabelOrder;
use rules::{record_at, variable_at};
use sheet::{Record, Variable};

impl<O: LabelOrder> Program<O> {
    pub fn order(&self) -> O
        ensures { result ≡ (contents self.now).order }
    {
        self.order
    }

    pub fn variable_count(&self) -> usize
        ensures count { result ≡ length (contents self.now).tables.variables }
        ensures few { result ≤ 64 }
    {
        self.tables.variables.len()
    }

    pub fn record_count(&self) -> usize
        ensures count { result ≡ length (contents self.now).tables.records }
        ensures few { result ≤ 512 }
    {
        self.tables.records.len()
    }

    // Variable v, or a number labelled 0 where there is none.
    pub fn variable(&self, v: u8) -> Variable
        ensures { result ≡ variable_at (contents self.now).tables.variables v }
    {
        variable_at(&self.tables.variables, v)
    }

    // Record k, counted from 1, or a skip labelled 0 where there is none.
    pub fn record(&self, k: u16) -> Record
        ensures { result ≡ record_at (contents self.now).tables.records k }
    {
        record_at(&self.tables.records, k as usize)
    }
}
