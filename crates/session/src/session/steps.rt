// One step.
ghost use Rattle.std.specs.Prelude.{◌≡◌, ◌+◌, ◌<◌, ◌≤◌, ◌∷◌, length};
ghost use Rattle.model.specs.Nesting.{record_at};
ghost use Rattle.model.specs.Machine.{step, written};
ghost use Rattle.session.specs.Acting.{Runs, write_at};
ghost use Rattle.session.specs.Memories.{tables_of, order_of, memory_of};
ghost use Rattle.session.specs.Stacks.{pile, below_top};
ghost use Rattle.session.specs.Piles.{moved};
ghost use Rattle.session.specs.States.{config_of};

use crate::session::Session;
use crate::turn::Turn;
use crate::values::holds;
use banks::Bank;
use labels::LabelOrder;
use sheet::{Form, Record};
use tape::Entry;

impl<O: LabelOrder, B: Bank> Session<O, B> {
    // The number of the top record, and the record. It may act, since the program is accepted.
    fn top(&self) -> (u16, Record)
        requires { 0 < length (pile self.now.stack) }
        ensures on { pile self.now.stack ≡ result.0 ∷ below_top (pile self.now.stack) }
        ensures is { result.1 ≡ record_at (tables_of self.now.memory).records result.0 }
        ensures runs { Runs (tables_of self.now.memory) result.1.form }
    {
        let n = self.stack.top();
        (n, self.memory.program().record(n))
    }

    // What takes the place of record n on the stack, and what is put above that; 0 is no record, as in a link.
    fn moved(&self, n: u16, next: u16, form: Form) -> (u16, u16)
        requires { Runs (tables_of self.now.memory) form }
        ensures { result ≡ moved (tables_of self.now.memory) n next form (memory_of B.cells self.now.memory) }
    {
        match form {
            Form::If { a, then, other } => {
                let branch = if holds(self.memory.number(a)) {
                    then
                } else {
                    other
                };
                (next, branch)
            }
            Form::While { a, body } => if holds(self.memory.number(a)) {
                (n, body)
            } else {
                (next, 0)
            },
            _ => (next, 0),
        }
    }

    // Takes the top record, writes its entries from `at` on, and answers the next place.
    pub(crate) fn step(&mut self, tape: &mut [Entry], at: usize) -> usize
        requires { (0 < length (pile self.old.stack)) × (at + 6 ≤ length tape.old) }
        ensures config { config_of B.cells self.new ≡ step (tables_of self.old.memory) (config_of B.cells self.old) }
        ensures tape { tape.new ≡ write_at tape.old at (written (O.meaning (order_of self.old.memory)) (tables_of self.old.memory) (config_of B.cells self.old)) }
        ensures at { result ≡ at + length (written (O.meaning (order_of self.old.memory)) (tables_of self.old.memory) (config_of B.cells self.old)) }
        ensures started { self.new.started ≡ self.old.started }
        ensures program { self.new.memory.program ≡ self.old.memory.program }
    {
        let (n, taken) = self.top();
        let (place, above) = self.moved(n, taken.next, taken.form);
        let mut turn = Turn {
            number: n,
            label: taken.label,
            memory: &mut self.memory,
            tape,
            at,
        };
        turn.act(taken.form);
        self.stack.advance(place, above);
        turn.finish(self.stack.is_empty());
        turn.at
    }
}
