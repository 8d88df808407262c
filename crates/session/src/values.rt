// Values that are computed.
ghost use Rattle.std.specs.Prelude.{◌≡◌};
ghost use Rattle.model.specs.Machine.{apply, mux, holds};

use sheet::Op;

// a op b, modulo 2^32.
#[tactic(auto, unfolding(model::specs::Machine::apply))]
pub(crate) fn apply(op: Op, a: u32, b: u32) -> u32
    ensures { result ≡ apply op a b }
{
    match op {
        Op::Sum => a.wrapping_add(b),
        Op::Difference => a.wrapping_sub(b),
        Op::Product => a.wrapping_mul(b),
        Op::Equal => (a == b) as u32,
        Op::Less => (a < b) as u32,
        Op::And => a & b,
        Op::Or => a | b,
        Op::Xor => a ^ b,
    }
}

// b where a is 0, else c.
#[tactic(auto, unfolding(model::specs::Machine::mux))]
pub(crate) fn mux(a: u32, b: u32, c: u32) -> u32
    ensures { result ≡ mux a b c }
{
    if a == 0 { b } else { c }
}

// A guard is true at exactly 1.
#[tactic(auto, unfolding(model::specs::Machine::holds))]
pub(crate) fn holds(a: u32) -> bool
    ensures { result ≡ holds a }
{
    a == 1
}
