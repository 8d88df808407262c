// What a record reads and changes, each with its entry on the tape.
ghost use Rattle.std.specs.Prelude.{◌≡◌, [], ◌∷◌};
ghost use Rattle.model.specs.Program.{label_of};
ghost use Rattle.model.specs.Machine.{instruction, read, fetch, write, store, name, release, end, carried, held, put, fetched, mark, stored};
ghost use Rattle.session.specs.Memories.{tables_of, order_of, memory_of, HasNumber, HasArray};
ghost use Rattle.session.specs.Acting.{HasRoom, Leaves};

use crate::memory::Fetched;
use crate::turn::Turn;
use banks::Bank;
use labels::LabelOrder;
use tape::{BLANK, Entry, Kind};

impl<'a, O: LabelOrder, B: Bank> Turn<'a, O, B> {
    // Writes one entry.
    pub(super) fn note(&mut self, e: Entry)
        requires { HasRoom 1 self.old }
        ensures left { Leaves B.cells (e ∷ []) (memory_of B.cells self.old.memory.now) self.old self.new }
    {
        self.tape[self.at] = e;
        self.at += 1;
    }

    // The label of a read or fetch of v: in secret records the variable's own.
    #[tactic(auto, unfolding(model::specs::Machine::carried))]
    pub(super) fn carried(&self, v: u8) -> u8
        ensures { result ≡ carried (O.meaning (order_of self.now.memory.now)) (tables_of self.now.memory.now) self.now.label v }
    {
        let program = self.memory.program();
        if self.label == program.order().secret() {
            program.variable(v).label
        } else {
            self.label
        }
    }

    pub(crate) fn instruction(&mut self)
        requires { HasRoom 1 self.old }
        ensures left { Leaves B.cells (instruction self.old.label self.old.number ∷ []) (memory_of B.cells self.old.memory.now) self.old self.new }
    {
        self.note(Entry {
            kind: Kind::Instruction as u8,
            label: self.label,
            record: self.number,
            ..BLANK
        });
    }

    // The number that is variable v.
    pub(crate) fn read(&mut self, v: u8) -> u32
        requires room { HasRoom 1 self.old }
        requires number { HasNumber (tables_of self.old.memory.now) v }
        ensures value { result ≡ held (tables_of self.old.memory.now) (memory_of B.cells self.old.memory.now) v 0 }
        ensures left { Leaves B.cells (read (carried (O.meaning (order_of self.old.memory.now)) (tables_of self.old.memory.now) self.old.label v) v result ∷ []) (memory_of B.cells self.old.memory.now) self.old self.new }
    {
        let value = self.memory.number(v);
        self.note(Entry {
            kind: Kind::Read as u8,
            label: self.carried(v),
            variable: v,
            value,
            ..BLANK
        });
        value
    }

    // Array a at index i, or 0 outside it, which its entry marks.
    #[tactic(auto, using(crate::proofs::Placing::mark_told))]
    pub(crate) fn fetch(&mut self, a: u8, i: u32) -> u32
        requires room { HasRoom 1 self.old }
        requires array { HasArray (tables_of self.old.memory.now) a }
        ensures value { result ≡
            fetched (tables_of self.old.memory.now) (memory_of B.cells self.old.memory.now) a i }
        ensures left { Leaves B.cells
            (fetch
            (carried (O.meaning (order_of self.old.memory.now)) (tables_of self.old.memory.now) self.old.label a)
            a i result (mark (tables_of self.old.memory.now) a i) ∷ [])
            (memory_of B.cells self.old.memory.now) self.old self.new }
    {
        let Fetched { value, outside } = self.memory.fetch(a, i);
        self.note(Entry {
            kind: Kind::Fetch as u8,
            label: self.carried(a),
            variable: a,
            mark: u8::from(outside),
            index: i,
            value,
            ..BLANK
        });
        value
    }

    // Sets the number that is variable x.
    pub(crate) fn write(&mut self, x: u8, value: u32)
        requires room { HasRoom 1 self.old }
        requires number { HasNumber (tables_of self.old.memory.now) x }
        ensures left { Leaves B.cells (write self.old.label x value ∷ []) (put (tables_of self.old.memory.now) (memory_of B.cells self.old.memory.now) x 0 value) self.old self.new }
    {
        self.memory.set_number(x, value);
        self.note(Entry {
            kind: Kind::Write as u8,
            label: self.label,
            variable: x,
            value,
            ..BLANK
        });
    }

    // Sets the number that is variable x to a value that is released.
    pub(crate) fn release(&mut self, x: u8, value: u32)
        requires room { HasRoom 1 self.old }
        requires number { HasNumber (tables_of self.old.memory.now) x }
        ensures left { Leaves B.cells (release (label_of (tables_of self.old.memory.now).variables x) x value ∷ []) (put (tables_of self.old.memory.now) (memory_of B.cells self.old.memory.now) x 0 value) self.old self.new }
    {
        self.memory.set_number(x, value);
        let label = self.memory.program().variable(x).label;
        self.note(Entry {
            kind: Kind::Release as u8,
            label,
            variable: x,
            value,
            ..BLANK
        });
    }

    // Sets array x at index i; outside it nothing changes, and the entry is marked.
    #[tactic(auto, using(crate::proofs::Placing::mark_told))]
    pub(crate) fn store(&mut self, x: u8, i: u32, value: u32)
        requires room { HasRoom 1 self.old }
        requires array { HasArray (tables_of self.old.memory.now) x }
        ensures left { Leaves B.cells
            (store self.old.label x i value (mark (tables_of self.old.memory.now) x i) ∷ [])
            (stored (tables_of self.old.memory.now) (memory_of B.cells self.old.memory.now) x i value)
            self.old self.new }
    {
        let outside = self.memory.store(x, i, value);
        self.note(Entry {
            kind: Kind::Store as u8,
            label: self.label,
            variable: x,
            mark: u8::from(outside),
            index: i,
            value,
            ..BLANK
        });
    }

    // Names variable v.
    pub(crate) fn name(&mut self, label: u8, v: u8)
        requires { HasRoom 1 self.old }
        ensures left { Leaves B.cells (name label v ∷ []) (memory_of B.cells self.old.memory.now) self.old self.new }
    {
        self.note(Entry {
            kind: Kind::Name as u8,
            label,
            variable: v,
            ..BLANK
        });
    }

    // Tells that the run has ended.
    pub(crate) fn end(&mut self)
        requires { HasRoom 1 self.old }
        ensures left { Leaves B.cells (end (O.meaning (order_of self.old.memory.now)).public ∷ []) (memory_of B.cells self.old.memory.now) self.old self.new }
    {
        let label = self.memory.program().order().public();
        self.note(Entry {
            kind: Kind::End as u8,
            label,
            ..BLANK
        });
    }
}
