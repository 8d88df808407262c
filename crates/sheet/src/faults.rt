// Why a byte string is no sheet, or tables have none.
ghost use Rattle.std.specs.Prelude.{◌≡◌};
ghost use Rattle.sheet.specs.Faults.{fault_number, fault_place, sheet_refusal_of};

use refusal::{Layer, Refusal};

// A fault with its place: the first byte of the field at fault, or the length that is said.
#[derive(Clone, Copy)]
pub enum SheetFault {
    // 1: under 4 bytes; the input length.
    Truncated(usize),
    // 2: a version other than 1.
    Version(usize),
    // 3: not 1 to 64 variables.
    VariableCount(usize),
    // 4: not 1 to 512 records.
    RecordCount(usize),
    // 5: not the length that the counts ask for; the input length.
    Length(usize),
    // 6: an unknown kind.
    Kind(usize),
    // 7: a number with a length, or an array of none or more than 4,096 cells.
    VariableLength(usize),
    // 8: a length that takes the sum past 16,384.
    TotalLength(usize),
    // 9: an unknown form.
    Form(usize),
    // 10: a byte that its form leaves unused is not 0; the first such.
    Unused(usize),
    // 11: an unknown operator.
    Operator(usize),
    // 12: the buffer is too short; the length needed.
    Buffer(usize),
}

impl SheetFault {
    // The number of the refusal. A variant may carry a place, so its number is no discriminant.
    pub fn number(self) -> u8
        ensures { result ≡ fault_number self }
    {
        match self {
            SheetFault::Truncated(_) => 1,
            SheetFault::Version(_) => 2,
            SheetFault::VariableCount(_) => 3,
            SheetFault::RecordCount(_) => 4,
            SheetFault::Length(_) => 5,
            SheetFault::Kind(_) => 6,
            SheetFault::VariableLength(_) => 7,
            SheetFault::TotalLength(_) => 8,
            SheetFault::Form(_) => 9,
            SheetFault::Unused(_) => 10,
            SheetFault::Operator(_) => 11,
            SheetFault::Buffer(_) => 12,
        }
    }

    // The place of the refusal.
    pub fn place(self) -> usize
        ensures { result ≡ fault_place self }
    {
        match self {
            SheetFault::Truncated(place)
            | SheetFault::Version(place)
            | SheetFault::VariableCount(place)
            | SheetFault::RecordCount(place)
            | SheetFault::Length(place)
            | SheetFault::Kind(place)
            | SheetFault::VariableLength(place)
            | SheetFault::TotalLength(place)
            | SheetFault::Form(place)
            | SheetFault::Unused(place)
            | SheetFault::Operator(place)
            | SheetFault::Buffer(place) => place,
        }
    }
}

// Written out for each layer: one From over a trait of faults proves, but wants constants and ghost members of as many lines.
impl From<SheetFault> for Refusal {
    ghost from_gives = { λ f r. r ≡ sheet_refusal_of f };

    fn from(f: SheetFault) -> Refusal {
        Refusal {
            layer: Layer::Sheet,
            number: f.number(),
            place: f.place(),
        }
    }
}
