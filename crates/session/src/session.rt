// A session.
ghost use Rattle.std.specs.Prelude.{◌≡◌, true};
ghost use Rattle.model.specs.Machine.{stripped};
ghost use Rattle.session.specs.Memories.{records_in};
ghost use Rattle.session.specs.Stacks.{pile};
ghost use Rattle.session.specs.Piles.{piled};

use crate::memory::Memory;
use crate::stack::Stack;
use labels::LabelOrder;

// The records on the stack are higher than the places where they lie, since links rise, and no zero is on top. The
// program stays through each call, and each says so: no type says that a value behind `&mut` keeps a part, and callers state
// what follows over it.
#[derive(Drop)]
pub struct Session<O: LabelOrder, B> {
    memory: Memory<O, B>,
    stack: Stack,
    // A flag, and no type of its own: a host may make its calls in any order, and is refused.
    started: bool,
    ghost climbs: { piled (records_in memory.program) (pile stack) ≡ true },
    ghost clean: { stripped (pile stack) ≡ pile stack },
}

mod calls;
mod runs;
mod steps;
