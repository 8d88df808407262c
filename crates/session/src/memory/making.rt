// Making a memory.
ghost use Rattle.std.specs.Prelude.{◌≡◌};
ghost use Rattle.checker.specs.Contents.{contents};
ghost use Rattle.model.specs.Session.{zeroed, opened};
ghost use Rattle.session.specs.Starts.{first_cells};
ghost use Rattle.session.specs.Memories.{memory_of};

use crate::memory::Memory;
use banks::Bank;
use checker::Program;
use labels::LabelOrder;

// Where each variable begins in the bank.
fn first_cells<O: LabelOrder>(program: &Program<O>) -> [u32; 65]
    ensures { result ≡ first_cells (contents program.now).tables }
{
    let mut starts = [0; 65];
    let mut start = 0;
    for (v, first) in starts.iter_mut().enumerate() {
        *first = start;
        start += program.variable(v as u8).kind.cells() as u32;
    }
    starts
}

// Sets the first n cells to 0, in rising order. A bank is reached by number alone, so the loop counts.
#[tactic(auto, using(crate::proofs::Clearing::zeroed_more))]
fn clear<B: Bank>(bank: &mut B, n: usize)
    ensures { B.cells bank.new ≡ zeroed n (B.cells bank.old) }
{
    for i in 0..n {
        bank.put(i, 0);
    }
}

impl<O: LabelOrder, B: Bank> Memory<O, B> {
    // Every number and every cell that the arrays use is 0.
    pub(crate) fn new(program: Program<O>, bank: B) -> Memory<O, B>
        ensures memory { memory_of B.cells result ≡ (opened (contents program).tables (B.cells bank)).config.memory }
        ensures program { result.program ≡ program }
    {
        let starts = first_cells(&program);
        let mut bank = bank;
        clear(&mut bank, starts[program.variable_count()] as usize);
        Memory {
            program,
            bank,
            numbers: [0; 64],
            starts,
        }
    }
}
