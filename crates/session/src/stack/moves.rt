// What a step does to the stack.
ghost use Rattle.std.specs.Prelude.{◌≡◌, ◌<◌, [], ◌∷◌, length};
ghost use Rattle.session.specs.Stacks.{pile, below_top};
ghost use Rattle.model.specs.Machine.{is_empty, stripped};

use crate::stack::Stack;
use arrayvec::ArrayVec;

impl Stack {
    // The stack that holds one record.
    pub(crate) fn new(first: u16) -> Stack
        ensures { pile result ≡ first ∷ [] }
    {
        let mut stack = Stack {
            entries: ArrayVec::new(),
        };
        stack.entries.push(first);
        stack
    }

    pub(crate) fn is_empty(&self) -> bool
        ensures { result ≡ is_empty (pile self.now) }
    {
        self.entries.is_empty()
    }

    pub(crate) fn top(&self) -> u16
        requires { 0 < length (pile self.now) }
        ensures { pile self.now ≡ result ∷ below_top (pile self.now) }
    {
        self.entries[self.entries.len() - 1]
    }

    // Puts `next` in the place of the top and `above` over it, and takes zeros off.
    #[tactic(auto, using(crate::proofs::StackLaws::pile_written, crate::proofs::StackLaws::pile_over, crate::proofs::StackLaws::stripped_none))]
    pub(crate) fn advance(&mut self, next: u16, above: u16)
        requires { (0 < length (pile self.old)) × ((0 < above → length (pile self.old) < 512)) }
        ensures { pile self.new ≡ stripped (above ∷ (next ∷ below_top (pile self.old))) }
    {
        let top = self.entries.len() - 1;
        self.entries[top] = next;
        if above != 0 {
            self.entries.push(above);
        } else {
            self.strip();
        }
    }

    // Takes zeros off. The library takes no values from an end by a test, so this is a loop.
    #[tactic(auto, using(crate::proofs::StackLaws::below_pile, crate::proofs::StackLaws::stripped_zero, crate::proofs::StackLaws::stripped_live, crate::proofs::StackLaws::stripped_empty))]
    fn strip(&mut self)
        ensures { pile self.new ≡ stripped (pile self.old) }
    {
        while !self.is_empty() && self.top() == 0 {
            let _ = self.entries.pop();
        }
    }
}
