// The order of a set of two to eight parties.
ghost use Rattle.std.specs.Prelude.{◌≡◌, ◌^◌, ◌≤◌};
ghost use Rattle.labels.specs.Orders.{party_set};
ghost use Rattle.refusal.specs.Answers.{map_ok};
ghost use Rattle.labels.specs.Make.{party_count};
ghost use Rattle.labels.specs.SetLaws.{party_set_lawful};

use crate::fault::OrderFault;
use crate::order::LabelOrder;

// A label is a set of parties that are shut out: bit k set means that party k may not see.
#[derive(Clone, Copy)]
pub struct PartySet {
    parties: u8,
    ghost ok: { (2 ≤ parties) × (parties ≤ 8) },
}

impl PartySet {
    // An order for so many parties, if they are 2 to 8.
    pub fn new(parties: usize) -> Result<PartySet, OrderFault>
        ensures { map_ok (λ s. s.parties) result ≡ party_count parties }
    {
        match parties {
            2..=8 => Ok(PartySet {
                parties: parties as u8,
            }),
            _ => Err(OrderFault::Parties(parties)),
        }
    }

    // How many labels there are.
    fn labels(&self) -> u16
        ensures { result ≡ 2 ^ self.now.parties }
    {
        1u16 << self.parties
    }
}

impl LabelOrder for PartySet {
    const P: u8 = 0;

    ghost meaning = { λ s. party_set s.parties };

    ghost lawful = { λ o. party_set_lawful o.parties o.ok.1 };

    fn knows(&self, label: u8) -> bool {
        u16::from(label) < self.labels()
    }

    fn parties(&self) -> u8 {
        self.parties
    }

    fn public(&self) -> u8 {
        Self::P
    }

    fn secret(&self) -> u8 {
        (self.labels() - 1) as u8
    }

    fn flows(&self, m: u8, n: u8) -> bool {
        self.knows(m) && self.knows(n) && m | n == n
    }

    fn join(&self, m: u8, n: u8) -> u8 {
        if self.knows(m) && self.knows(n) {
            m | n
        } else {
            self.secret()
        }
    }

    fn opens(&self, label: u8, party: u8) -> bool {
        self.knows(label) && party < self.parties && (label >> party) % 2 != 1
    }
}
