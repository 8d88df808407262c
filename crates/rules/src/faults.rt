// Why a program is not accepted.
ghost use Rattle.std.specs.Prelude.{◌≡◌};
ghost use Rattle.rules.specs.Faults.{shape_number, shape_place, shape_refusal_of, rule_refusal_of};

use model::Rule;
use refusal::{Layer, Refusal};

// A fault of a program's shape, with the variable or the record that has it.
#[derive(Clone, Copy)]
pub enum ShapeFault {
    // 20: a variable's label is unknown.
    VariableLabel(usize),
    // 21: a record's label is unknown.
    RecordLabel(usize),
    // 22: no such variable.
    NoVariable(usize),
    // 23: a variable of the wrong kind.
    WrongKind(usize),
    // 24: a link neither 0 nor above its own number and within the count.
    Link(usize),
    // 25: a record from 2 up not linked exactly once.
    LinkedOnce(usize),
    // 26: nested deeper than 16.
    Depth(usize),
    // 27: oram arrays differ in length.
    OramLength(usize),
}

// A rule, and the record that breaks it.
#[derive(Clone, Copy)]
pub struct RuleFault {
    pub rule: Rule,
    pub place: usize,
}

impl ShapeFault {
    // The number of the refusal. A variant may carry a place, so its number is no discriminant.
    pub fn number(self) -> u8
        ensures { result ≡ shape_number self }
    {
        match self {
            ShapeFault::VariableLabel(_) => 20,
            ShapeFault::RecordLabel(_) => 21,
            ShapeFault::NoVariable(_) => 22,
            ShapeFault::WrongKind(_) => 23,
            ShapeFault::Link(_) => 24,
            ShapeFault::LinkedOnce(_) => 25,
            ShapeFault::Depth(_) => 26,
            ShapeFault::OramLength(_) => 27,
        }
    }

    // The place of the refusal: a variable for 20, else a record.
    pub fn place(self) -> usize
        ensures { result ≡ shape_place self }
    {
        match self {
            ShapeFault::VariableLabel(place)
            | ShapeFault::RecordLabel(place)
            | ShapeFault::NoVariable(place)
            | ShapeFault::WrongKind(place)
            | ShapeFault::Link(place)
            | ShapeFault::LinkedOnce(place)
            | ShapeFault::Depth(place)
            | ShapeFault::OramLength(place) => place,
        }
    }
}

// Written out for each layer: one From over a trait of faults proves, but wants constants and ghost members of as many lines.
impl From<ShapeFault> for Refusal {
    ghost from_gives = { λ f r. r ≡ shape_refusal_of f };

    fn from(f: ShapeFault) -> Refusal {
        Refusal {
            layer: Layer::Shape,
            number: f.number(),
            place: f.place(),
        }
    }
}

impl From<RuleFault> for Refusal {
    ghost from_gives = { λ f r. r ≡ rule_refusal_of f };

    fn from(f: RuleFault) -> Refusal {
        Refusal {
            layer: Layer::Rule,
            number: f.rule as u8,
            place: f.place,
        }
    }
}
