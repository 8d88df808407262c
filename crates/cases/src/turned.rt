// An order may have another public label for each of its values: one whose values differ in it, asked as any order is.
ghost use Rattle.cases.specs.Turned.{turned_labels};
ghost use Rattle.cases.specs.TurnedLaws.{turned_lawful};

use labels::LabelOrder;

// Two labels, 0 and 1, and one party. Label 1 is public where the order is turned, else label 0; the other is secret.
#[derive(Clone, Copy)]
struct Turned {
    turned: bool,
}

impl LabelOrder for Turned {
    // The trait asks for one number, which cannot be the public label of both values.
    const P: u8 = 0;

    ghost meaning = { λ o. turned_labels o.turned };

    ghost lawful = { λ o. turned_lawful o.turned };

    fn knows(&self, label: u8) -> bool {
        label < 2
    }

    fn parties(&self) -> u8 {
        1
    }

    fn public(&self) -> u8 {
        if self.turned { 1 } else { 0 }
    }

    fn secret(&self) -> u8 {
        if self.turned { 0 } else { 1 }
    }

    fn flows(&self, m: u8, n: u8) -> bool {
        self.knows(m) && self.knows(n) && (m == self.public() || m == n)
    }

    fn join(&self, m: u8, n: u8) -> u8 {
        if m == self.public() && n == self.public() {
            self.public()
        } else {
            self.secret()
        }
    }

    fn opens(&self, label: u8, party: u8) -> bool {
        label == self.public() && party < 1
    }
}

// Is it an order of the labels 0 and 1 and of one party, with this public and this secret label?
fn has_labels<O: LabelOrder>(order: O, public: u8, secret: u8) -> bool {
    order.knows(0)
        && order.knows(1)
        && !order.knows(2)
        && order.parties() == 1
        && order.public() == public
        && order.secret() == secret
}

// Does the public label flow to both, the secret one to itself alone, and an unknown one nowhere?
fn flows_up<O: LabelOrder>(order: O, public: u8, secret: u8) -> bool {
    order.flows(public, public)
        && order.flows(public, secret)
        && order.flows(secret, secret)
        && !order.flows(secret, public)
        && !order.flows(public, 2)
        && !order.flows(2, 2)
}

// Is a join secret unless both labels are public?
fn joins_up<O: LabelOrder>(order: O, public: u8, secret: u8) -> bool {
    order.join(public, public) == public
        && order.join(public, secret) == secret
        && order.join(secret, public) == secret
        && order.join(secret, secret) == secret
        && order.join(public, 2) == secret
        && order.join(2, public) == secret
}

// Is the public label open to party 0, and nothing else to anyone?
fn opens_public<O: LabelOrder>(order: O, public: u8, secret: u8) -> bool {
    order.opens(public, 0)
        && !order.opens(public, 1)
        && !order.opens(secret, 0)
        && !order.opens(2, 0)
}

#[test]
fn another_public_label_for_each_value(rt: HostRuntime) {
    for (turned, public, secret) in [(false, 0, 1), (true, 1, 0)] {
        let order = Turned { turned };
        assert!(rt; has_labels(order, public, secret), "turned: {turned}");
        assert!(rt; flows_up(order, public, secret), "turned: {turned}");
        assert!(rt; joins_up(order, public, secret), "turned: {turned}");
        assert!(rt; opens_public(order, public, secret), "turned: {turned}");
    }
}
