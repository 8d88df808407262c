// Why an order could not be made.
ghost use Rattle.std.specs.Prelude.{◌≡◌};
ghost use Rattle.labels.specs.Faults.{order_refusal};

use refusal::{Layer, Refusal};

#[derive(Clone, Copy)]
pub enum OrderFault {
    // 50: not 2 to 8 parties, but this many.
    Parties(usize),
}

impl From<OrderFault> for Refusal {
    ghost from_gives = { λ f r. r ≡ order_refusal f };

    fn from(f: OrderFault) -> Refusal {
        let OrderFault::Parties(place) = f;
        Refusal {
            layer: Layer::Order,
            number: 50,
            place,
        }
    }
}
