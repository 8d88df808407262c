// What a call that refuses answers: the layer, the number of the reason, and the place.
#![tactic(auto)]

ghost use Rattle.std.specs.Prelude.{◌≡◌, Some};
ghost use Rattle.refusal.specs.Refusals.{layer_name, refusal_text};

use std::fmt;

// The part of the engine that refuses.
#[derive(Clone, Copy, PartialEq, Eq)]
pub enum Layer {
    // The bytes of a program sheet.
    Sheet = 1,
    // The shape of a program: labels, variables, links.
    Shape = 2,
    // The type rules.
    Rule = 3,
    // A session's calls.
    Session = 4,
    // The making of a party's log.
    Log = 5,
    // The making of a label order.
    Order = 6,
}

#[derive(Clone, Copy, PartialEq, Eq)]
pub struct Refusal {
    pub layer: Layer,
    pub number: u8,
    pub place: usize,
}

impl Layer {
    // The name, as it is printed.
    pub fn name(self) -> &'static str
        ensures { result.now ≡ layer_name self }
    {
        match self {
            Layer::Sheet => "sheet",
            Layer::Shape => "shape",
            Layer::Rule => "rule",
            Layer::Session => "session",
            Layer::Log => "log",
            Layer::Order => "order",
        }
    }
}

impl fmt::Display for Layer {
    ghost output = { λ l. Some (layer_name l) };

    fn fmt<W: fmt::Write>(&self, f: &mut fmt::Formatter<W>) -> fmt::Result {
        f.write_str(self.name())
    }
}

// A refusal prints as `refused LAYER NUMBER PLACE`.
impl fmt::Display for Refusal {
    ghost output = { λ r. Some (refusal_text r) };

    fn fmt<W: fmt::Write>(&self, f: &mut fmt::Formatter<W>) -> fmt::Result {
        write!(f, "refused {} {} {}", self.layer, self.number, self.place)
    }
}
