// One of the two label orders, by a match in each method: a trait with a constant, of copied values, has no `dyn`.
ghost use Rattle.choice.specs.Orders.{order_meaning};
ghost use Rattle.labels.specs.TwoLaws.{two_party_lawful};
ghost use Rattle.labels.specs.SetLaws.{party_set_lawful};
ghost use Rattle.choice.specs.declared.order.AnyOrder.TheVariants.{Two, Set};

use labels::{LabelOrder, PartySet, TwoParty};

#[derive(Clone, Copy)]
pub enum AnyOrder {
    Two(TwoParty),
    Set(PartySet),
}

impl LabelOrder for AnyOrder {
    const P: u8 = 0;

    ghost meaning = { order_meaning };

    ghost lawful = { elim [
      | Two order ↦ two_party_lawful
      | Set order ↦ party_set_lawful order.parties order.ok.1
    ] };

    fn knows(&self, label: u8) -> bool {
        match self {
            AnyOrder::Two(order) => order.knows(label),
            AnyOrder::Set(order) => order.knows(label),
        }
    }

    fn parties(&self) -> u8 {
        match self {
            AnyOrder::Two(order) => order.parties(),
            AnyOrder::Set(order) => order.parties(),
        }
    }

    fn public(&self) -> u8 {
        Self::P
    }

    fn secret(&self) -> u8 {
        match self {
            AnyOrder::Two(order) => order.secret(),
            AnyOrder::Set(order) => order.secret(),
        }
    }

    fn flows(&self, m: u8, n: u8) -> bool {
        match self {
            AnyOrder::Two(order) => order.flows(m, n),
            AnyOrder::Set(order) => order.flows(m, n),
        }
    }

    fn join(&self, m: u8, n: u8) -> u8 {
        match self {
            AnyOrder::Two(order) => order.join(m, n),
            AnyOrder::Set(order) => order.join(m, n),
        }
    }

    fn opens(&self, label: u8, party: u8) -> bool {
        match self {
            AnyOrder::Two(order) => order.opens(label, party),
            AnyOrder::Set(order) => order.opens(label, party),
        }
    }
}
