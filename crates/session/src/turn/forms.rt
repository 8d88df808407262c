// The forms: what each does to the memory, and what it writes on the tape.
// Each form is a function of its own, also where two look alike, since they write different entries.
ghost use Rattle.model.specs.Machine.{end_if};
ghost use Rattle.session.specs.Memories.{order_of, memory_of};
ghost use Rattle.session.specs.Acting.{HasRoom, MayAct, Acts, Leaves};

use crate::turn::Turn;
use crate::values::{apply, mux};
use banks::Bank;
use labels::LabelOrder;
use sheet::{Form, Op};

impl<'a, O: LabelOrder, B: Bank> Turn<'a, O, B> {
    // x := a.
    fn copy(&mut self, x: u8, a: u8)
        requires { MayAct (Form.Copy x a) self.old }
        ensures { Acts O.meaning B.cells (Form.Copy x a) self.old self.new }
    {
        self.instruction();
        let value = self.read(a);
        self.write(x, value);
    }

    // x := value.
    fn constant(&mut self, x: u8, value: u32)
        requires { MayAct (Form.Constant x value) self.old }
        ensures { Acts O.meaning B.cells (Form.Constant x value) self.old self.new }
    {
        self.instruction();
        self.write(x, value);
    }

    // x := a op b.
    fn binary(&mut self, x: u8, a: u8, b: u8, op: Op)
        requires { MayAct (Form.Binary x a b op) self.old }
        ensures { Acts O.meaning B.cells (Form.Binary x a b op) self.old self.new }
    {
        self.instruction();
        let left = self.read(a);
        let right = self.read(b);
        self.write(x, apply(op, left, right));
    }

    // x := a[b].
    fn element(&mut self, x: u8, a: u8, b: u8)
        requires { MayAct (Form.Fetch x a b) self.old }
        ensures { Acts O.meaning B.cells (Form.Fetch x a b) self.old self.new }
    {
        self.instruction();
        let index = self.read(b);
        let value = self.fetch(a, index);
        self.write(x, value);
    }

    // x := mux(a, b, c).
    fn choose(&mut self, x: u8, a: u8, b: u8, c: u8)
        requires { MayAct (Form.Mux x a b c) self.old }
        ensures { Acts O.meaning B.cells (Form.Mux x a b c) self.old self.new }
    {
        self.instruction();
        let test = self.read(a);
        let left = self.read(b);
        let right = self.read(c);
        self.write(x, mux(test, left, right));
    }

    // x[a] := b.
    fn set_element(&mut self, x: u8, a: u8, b: u8)
        requires { MayAct (Form.Store x a b) self.old }
        ensures { Acts O.meaning B.cells (Form.Store x a b) self.old self.new }
    {
        self.instruction();
        let index = self.read(a);
        let value = self.read(b);
        self.store(x, index, value);
    }

    // x := declass(a).
    fn declass(&mut self, x: u8, a: u8)
        requires { MayAct (Form.Declass x a) self.old }
        ensures { Acts O.meaning B.cells (Form.Declass x a) self.old self.new }
    {
        self.instruction();
        let value = self.read(a);
        self.release(x, value);
    }

    // x := oram(a).
    fn oram(&mut self, x: u8, a: u8)
        requires { MayAct (Form.Oram x a) self.old }
        ensures { Acts O.meaning B.cells (Form.Oram x a) self.old self.new }
    {
        self.memory.copy(x, a);
        self.instruction();
        let own = self.memory.program().variable(a).label;
        self.name(own, a);
        let secret = self.memory.program().order().secret();
        self.name(secret, x);
    }

    // The guard of an if or a while: it is read, and nothing is changed.
    fn guard(&mut self, a: u8)
        requires { MayAct (Form.While a 0) self.old }
        ensures { Acts O.meaning B.cells (Form.While a 0) self.old self.new }
    {
        self.instruction();
        self.read(a);
    }

    // Does what a record of this form does, besides its place on the stack. The forms are a closed set, and the match is
    // checked to have them all.
    pub(crate) fn act(&mut self, form: Form)
        requires { MayAct form self.old }
        ensures { Acts O.meaning B.cells form self.old self.new }
    {
        match form {
            Form::Skip => {}
            Form::Copy { x, a } => self.copy(x, a),
            Form::Constant { x, value } => self.constant(x, value),
            Form::Binary { x, a, b, op } => self.binary(x, a, b, op),
            Form::Fetch { x, a, b } => self.element(x, a, b),
            Form::Mux { x, a, b, c } => self.choose(x, a, b, c),
            Form::Store { x, a, b } => self.set_element(x, a, b),
            Form::If { a, .. } | Form::While { a, .. } => self.guard(a),
            Form::Declass { x, a } => self.declass(x, a),
            Form::Oram { x, a } => self.oram(x, a),
        }
    }

    // Tells of the end where no record is left.
    pub(crate) fn finish(&mut self, last: bool)
        requires { HasRoom 1 self.old }
        ensures { Leaves B.cells (end_if (O.meaning (order_of self.old.memory.now)) last) (memory_of B.cells self.old.memory.now) self.old self.new }
    {
        if last {
            self.end();
        }
    }
}
