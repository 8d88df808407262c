// The two tables of a program: variables and records.
ghost use Rattle.std.specs.Prelude.{◌≡◌};
ghost use Rattle.sheet.specs.Tables.{cells, form_code, operator_code, operator_of};

// A number, or an array of so many cells of the bank.
#[derive(Clone, Copy, Default)]
pub enum Kind {
    #[default]
    Number,
    Array(u16),
}

#[derive(Clone, Copy, Default)]
pub struct Variable {
    pub label: u8,
    pub kind: Kind,
}

// The operators of `x := a op b`, on 32 bits: sum, difference and product wrap, equal and less give 1 or 0.
#[derive(Clone, Copy)]
pub enum Op {
    Sum = 1,
    Difference = 2,
    Product = 3,
    Equal = 4,
    Less = 5,
    And = 6,
    Or = 7,
    Xor = 8,
}

// A byte that stands for no operator.
#[derive(Clone, Copy, Debug, PartialEq, Eq)]
pub struct UnknownOp(pub u8);

// What a record does. Operands are numbers of variables, links numbers of records; link 0 ends a chain.
#[derive(Clone, Copy, Default)]
pub enum Form {
    // Nothing.
    #[default]
    Skip,
    // x := a
    Copy { x: u8, a: u8 },
    // x := value
    Constant { x: u8, value: u32 },
    // x := a op b
    Binary { x: u8, a: u8, b: u8, op: Op },
    // x := a[b]
    Fetch { x: u8, a: u8, b: u8 },
    // x := b where a is 0, else c
    Mux { x: u8, a: u8, b: u8, c: u8 },
    // x[a] := b
    Store { x: u8, a: u8, b: u8 },
    // The first branch where a is 1, else the second.
    If { a: u8, then: u16, other: u16 },
    // The body again and again while a is 1.
    While { a: u8, body: u16 },
    // x := a, released: a secret number becomes readable.
    Declass { x: u8, a: u8 },
    // The whole array a, copied into the secret array x.
    Oram { x: u8, a: u8 },
}

// Records count from 1 and are chained by `next`.
#[derive(Clone, Copy, Default)]
pub struct Record {
    pub label: u8,
    pub next: u16,
    pub form: Form,
}

impl Kind {
    // The cells that a variable of this kind takes in the bank.
    pub fn cells(self) -> u16
        ensures { result ≡ cells self }
    {
        match self {
            Kind::Number => 0,
            Kind::Array(n) => n,
        }
    }
}

impl Form {
    // The number of the form. Variants have fields, so their numbers are no discriminants.
    pub fn number(self) -> u8
        ensures { result ≡ form_code self }
    {
        match self {
            Form::Skip => 0,
            Form::Copy { .. } => 1,
            Form::Constant { .. } => 2,
            Form::Binary { .. } => 3,
            Form::Fetch { .. } => 4,
            Form::Mux { .. } => 5,
            Form::Store { .. } => 6,
            Form::If { .. } => 7,
            Form::While { .. } => 8,
            Form::Declass { .. } => 9,
            Form::Oram { .. } => 10,
        }
    }
}

// The byte that stands for the operator.
impl From<Op> for u8 {
    ghost from_gives = { λ op code. code ≡ operator_code op };

    fn from(op: Op) -> u8 {
        op as u8
    }
}

// The operator of a byte; each enum has numbers of its own, so each has its match.
impl TryFrom<u8> for Op {
    type Error = UnknownOp;

    ghost try_from_gives = { λ code result. result ≡ operator_of code };

    fn try_from(code: u8) -> Result<Op, UnknownOp> {
        match code {
            1 => Ok(Op::Sum),
            2 => Ok(Op::Difference),
            3 => Ok(Op::Product),
            4 => Ok(Op::Equal),
            5 => Ok(Op::Less),
            6 => Ok(Op::And),
            7 => Ok(Op::Or),
            8 => Ok(Op::Xor),
            _ => Err(UnknownOp(code)),
        }
    }
}
