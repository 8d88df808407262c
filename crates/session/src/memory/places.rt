// Places of variables: a number, or a cell of an array.
ghost use Rattle.std.specs.Prelude.{◌≡◌, ◌+◌, ◌^◌, ◌<◌, ◌≤◌, ◌↔◌, true, length, IsTrue, Some, None, nat_lt};
ghost use Rattle.model.specs.Program.{IsVariable, length_of, base, cells_needed};
ghost use Rattle.model.specs.Machine.{held, put, fetched, stored, copied};
ghost use Rattle.model.specs.Session.{has_place};
ghost use Rattle.session.specs.Starts.{copied_cells};
ghost use Rattle.session.specs.Memories.{tables_of, memory_of, HasArray, Becomes};

use crate::memory::Memory;
use banks::Bank;
use labels::LabelOrder;
use sheet::Kind;

// What a fetch found, and whether its index was outside the array.
#[derive(Clone, Copy)]
pub(crate) struct Fetched {
    pub(crate) value: u32,
    pub(crate) outside: bool,
}

// Copies n cells to another place, which the source does not run into. A bank is reached by number alone, so the loop
// counts.
#[tactic(auto, using(crate::proofs::Copying::copied_more))]
fn copy_cells<B: Bank>(bank: &mut B, source: usize, target: usize, n: usize)
    requires fits { (source + n < 2 ^ 64) × (target + n < 2 ^ 64) }
    requires apart { target < source + n → target ≤ source }
    ensures { B.cells bank.new ≡ copied_cells source target n (B.cells bank.old) }
{
    for i in 0..n {
        let value = bank.get(source + i);
        bank.put(target + i, value);
    }
}

impl<O: LabelOrder, B: Bank> Memory<O, B> {
    // Has the bank fewer cells than the arrays need?
    #[tactic(auto, using(crate::proofs::Laying::start_last))]
    pub(crate) fn too_small(&self) -> bool
        ensures { result ≡ nat_lt (length (memory_of B.cells self.now).cells) (cells_needed (tables_of self.now)) }
    {
        self.bank.size() < self.starts[self.program.variable_count()] as usize
    }

    // Is there such a variable, and is the index inside it?
    #[tactic(auto, using(crate::proofs::Placing::has_number, crate::proofs::Placing::has_array, crate::proofs::Placing::has_none))]
    pub(crate) fn has_place(&self, v: u8, i: u32) -> bool
        ensures { result ≡ has_place (tables_of self.now) v i }
    {
        (v as usize) < self.program.variable_count()
            && match self.program.variable(v).kind {
                Kind::Number => i == 0,
                Kind::Array(n) => i < n as u32,
            }
    }

    // The cell of array v at index i, or none where the index is outside, not below the array's length.
    #[tactic(auto, using(crate::proofs::Laying::start_at, crate::proofs::Reading::few_variables))]
    fn cell(&self, v: u8, i: u32) -> Option<usize>
        requires { IsVariable (tables_of self.now) v }
        ensures inside { i < length_of (tables_of self.now).variables v →
            result ≡ Some (base (tables_of self.now) v + i) }
        ensures outside { length_of (tables_of self.now).variables v ≤ i → result ≡ None }
    {
        if i < self.program.variable(v).kind.cells() as u32 {
            Some(self.starts[v as usize] as usize + i as usize)
        } else {
            None
        }
    }

    // Array a at index i, or 0 outside it. The bank is asked its size and then for one cell, inside and outside alike; outside
    // it is a cell beyond the row.
    #[tactic(auto, using(crate::proofs::Placing::no_cell))]
    pub(crate) fn fetch(&mut self, a: u8, i: u32) -> Fetched
        requires { HasArray (tables_of self.old) a }
        ensures value { result.value ≡
            fetched (tables_of self.old) (memory_of B.cells self.old) a i }
        ensures outside { IsTrue result.outside ↔ (length_of (tables_of self.old).variables a ≤ i) }
        ensures kept { Becomes B.cells (memory_of B.cells self.old) self.old self.new }
    {
        let cell = self.cell(a, i);
        let beyond = self.bank.size();
        Fetched {
            value: self.bank.get(cell.unwrap_or(beyond)),
            outside: cell.is_none(),
        }
    }

    // Sets array x at index i, and answers whether the index was outside; then nothing changes. The bank is asked as for a
    // fetch.
    #[tactic(auto, using(crate::proofs::Placing::no_cell))]
    pub(crate) fn store(&mut self, x: u8, i: u32, value: u32) -> bool
        requires { HasArray (tables_of self.old) x }
        ensures outside { IsTrue result ↔ (length_of (tables_of self.old).variables x ≤ i) }
        ensures stored { Becomes B.cells
            (stored (tables_of self.old) (memory_of B.cells self.old) x i value) self.old self.new }
    {
        let cell = self.cell(x, i);
        let beyond = self.bank.size();
        self.bank.put(cell.unwrap_or(beyond), value);
        cell.is_none()
    }

    // Copies array a, of the same length, to array x: one put for each cell, in rising order.
    #[tactic(auto, using(crate::proofs::Reading::few_variables, crate::proofs::Copying::apart))]
    pub(crate) fn copy(&mut self, x: u8, a: u8)
        requires arrays { (HasArray (tables_of self.old) x) × (HasArray (tables_of self.old) a) }
        requires lengths { length_of (tables_of self.old).variables x ≡ length_of (tables_of self.old).variables a }
        ensures { Becomes B.cells (copied (tables_of self.old) (memory_of B.cells self.old) x a (length_of (tables_of self.old).variables x)) self.old self.new }
    {
        let source = self.starts[a as usize] as usize;
        let target = self.starts[x as usize] as usize;
        let n = self.program.variable(x).kind.cells() as usize;
        copy_cells(&mut self.bank, source, target, n);
    }

    // What variable v holds at index i; there are these two kinds and no others, so a match decides.
    #[tactic(auto, using(crate::proofs::Placing::there, crate::proofs::Placing::is_number, crate::proofs::Placing::is_array, crate::proofs::Placing::look_number, crate::proofs::Placing::look_array))]
    pub(crate) fn look(&mut self, v: u8, i: u32) -> u32
        requires { has_place (tables_of self.old) v i ≡ true }
        ensures value { result ≡ held (tables_of self.old) (memory_of B.cells self.old) v i }
        ensures kept { Becomes B.cells (memory_of B.cells self.old) self.old self.new }
    {
        match self.program.variable(v).kind {
            Kind::Number => self.number(v),
            Kind::Array(_) => self.fetch(v, i).value,
        }
    }

    // Sets variable v at index i.
    #[tactic(auto, using(crate::proofs::Placing::there, crate::proofs::Placing::is_number, crate::proofs::Placing::is_array, crate::proofs::Placing::enter_number, crate::proofs::Placing::enter_array))]
    pub(crate) fn enter(&mut self, v: u8, i: u32, value: u32)
        requires { has_place (tables_of self.old) v i ≡ true }
        ensures { Becomes B.cells
            (put (tables_of self.old) (memory_of B.cells self.old) v i value) self.old self.new }
    {
        match self.program.variable(v).kind {
            Kind::Number => self.set_number(v, value),
            Kind::Array(_) => {
                self.store(v, i, value);
            }
        }
    }
}
