// The order of two parties: Alice is party 0, Bob party 1.
ghost use Rattle.labels.specs.Orders.{two_party};
ghost use Rattle.labels.specs.TwoLaws.{two_party_lawful};

use crate::order::LabelOrder;

// The joins, by rows P, A, B, O.
const JOIN: [[u8; 4]; 4] = [[0, 1, 2, 3], [1, 1, 3, 3], [2, 3, 2, 3], [3, 3, 3, 3]];

// The secret label, O.
const SECRET: u8 = 3;

// Labels: P = 0 is public, A = 1 is Alice's, B = 2 is Bob's, O = 3 is secret.
#[derive(Clone, Copy)]
pub struct TwoParty;

impl LabelOrder for TwoParty {
    const P: u8 = 0;

    ghost meaning = { λ _. two_party };

    ghost lawful = { λ o. two_party_lawful };

    fn knows(&self, label: u8) -> bool {
        label < 4
    }

    fn parties(&self) -> u8 {
        2
    }

    fn public(&self) -> u8 {
        Self::P
    }

    fn secret(&self) -> u8 {
        SECRET
    }

    fn flows(&self, m: u8, n: u8) -> bool {
        self.knows(m) && self.knows(n) && JOIN[m as usize][n as usize] == n
    }

    fn join(&self, m: u8, n: u8) -> u8 {
        if self.knows(m) && self.knows(n) {
            JOIN[m as usize][n as usize]
        } else {
            SECRET
        }
    }

    fn opens(&self, label: u8, party: u8) -> bool {
        matches!((label, party), (0, 0..=1) | (1, 0) | (2, 1))
    }
}
