// Why a call of a session is refused.
ghost use Rattle.std.specs.Prelude.{◌≡◌};
ghost use Rattle.model.specs.Faults.{session_number, session_place, session_refusal_of};

use refusal::{Layer, Refusal};

// A fault, with the party or the variable that has it.
#[derive(Clone, Copy)]
pub enum SessionFault {
    // 40: the bank has fewer cells than the program needs.
    BankTooSmall,
    // 41: the session was started already.
    Started,
    // 42: no such party.
    NoParty(u8),
    // 43: no such variable, or the index is outside it.
    NoPlace(u8),
    // 44: the variable's label is not open to the party.
    NotOpen(u8),
    // 45: the session was not started.
    NotStarted,
    // 46: the run has ended.
    Ended,
    // 47: the tape has room for fewer than 6 entries.
    TapeTooShort,
}

impl SessionFault {
    // The number of the refusal. A variant may carry a place, so its number is no discriminant.
    pub fn number(self) -> u8
        ensures { result ≡ session_number self }
    {
        match self {
            SessionFault::BankTooSmall => 40,
            SessionFault::Started => 41,
            SessionFault::NoParty(_) => 42,
            SessionFault::NoPlace(_) => 43,
            SessionFault::NotOpen(_) => 44,
            SessionFault::NotStarted => 45,
            SessionFault::Ended => 46,
            SessionFault::TapeTooShort => 47,
        }
    }

    // The place of the refusal: the party for 42, the variable for 43 and 44, else 0.
    pub fn place(self) -> usize
        ensures { result ≡ session_place self }
    {
        match self {
            SessionFault::NoParty(party) => party as usize,
            SessionFault::NoPlace(variable) | SessionFault::NotOpen(variable) => variable as usize,
            _ => 0,
        }
    }
}

// Written out for each layer: one From over a trait of faults proves, but wants constants and ghost members of as many lines.
impl From<SessionFault> for Refusal {
    ghost from_gives = { λ f r. r ≡ session_refusal_of f };

    fn from(f: SessionFault) -> Refusal {
        Refusal {
            layer: Layer::Session,
            number: f.number(),
            place: f.place(),
        }
    }
}
