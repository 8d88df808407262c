// The numbers.
ghost use Rattle.std.specs.Prelude.{◌≡◌};
ghost use Rattle.model.specs.Machine.{held, put};
ghost use Rattle.session.specs.Memories.{tables_of, memory_of, HasNumber, Becomes};

use crate::memory::Memory;
use banks::Bank;
use checker::Program;
use labels::LabelOrder;

impl<O: LabelOrder, B: Bank> Memory<O, B> {
    pub(crate) fn program(&self) -> &Program<O>
        ensures { result.now ≡ self.now.program }
    {
        &self.program
    }

    // The number that is variable v.
    pub(crate) fn number(&self, v: u8) -> u32
        requires { HasNumber (tables_of self.now) v }
        ensures { result ≡ held (tables_of self.now) (memory_of B.cells self.now) v 0 }
    {
        self.numbers[v as usize]
    }

    // Sets the number that is variable v.
    pub(crate) fn set_number(&mut self, v: u8, value: u32)
        requires { HasNumber (tables_of self.old) v }
        ensures { Becomes B.cells (put (tables_of self.old) (memory_of B.cells self.old) v 0 value) self.old self.new }
    {
        self.numbers[v as usize] = value;
    }
}
