// A program with its memory.
ghost use Rattle.std.specs.Prelude.{◌≡◌};
ghost use Rattle.checker.specs.Contents.{contents};
ghost use Rattle.session.specs.Starts.{first_cells};

use checker::Program;
use labels::LabelOrder;

// `starts` tells at which cell of the bank each variable begins; the place after the last variable tells how many
// cells there are in all.
#[derive(Drop)]
pub(crate) struct Memory<O: LabelOrder, B> {
    program: Program<O>,
    bank: B,
    // All places are in use from the start, so there is no length beside.
    numbers: [u32; 64],
    starts: [u32; 65],
    ghost laid: { starts ≡ first_cells (contents program).tables },
}

mod making;
mod numbers;
mod places;

pub(crate) use places::Fetched;
