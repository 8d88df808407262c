// The verdict on the bytes of a sheet: from reading to accepting, and how it prints.
#![tactic(auto)]

ghost use Rattle.std.specs.Prelude.{◌≡◌, true, is_ok, IfOk, if◌then◌else◌, Some, string_bytes};
ghost use Rattle.labels.specs.Orders.{two_party};
ghost use Rattle.model.specs.Rules.{Accepted};
ghost use Rattle.model.specs.Secrecy.{Secrecy};
ghost use Rattle.checker.specs.Accepting.{sheet_program};
ghost use Rattle.checker.specs.Contents.{contents, holding};
ghost use Rattle.verdict.specs.Verdicts.{checked, accepted_text, verdict_text};

use checker::{Program, accept};
use labels::{LabelOrder, TwoParty};
use refusal::Refusal;
use sheet::ReadSheet;
use std::alloc::{AllocError, Global};
use std::fmt;

mod sizes;

pub use sizes::Sizes;

// An accepted sheet prints as `accepted VARIABLES RECORDS`.
impl fmt::Display for Sizes {
    ghost output = { λ s. Some (accepted_text s) };

    fn fmt<W: fmt::Write>(&self, f: &mut fmt::Formatter<W>) -> fmt::Result {
        write!(f, "accepted {} {}", self.variables, self.records)
    }
}

// Reads the bytes and fills the program that the host lends with the sheet's tables, unless it is refused: faults of the
// sheet, of its shape and of its rules pass up with their layer and place.
#[tactic(auto, using(sheet::proofs::Validity::read_accepted))]
pub fn read_and_accept<O: LabelOrder>(
    bytes: &[u8],
    order: &O,
    program: &mut Program<O>,
) -> Result<Sizes, Refusal>
    ensures answers { result ≡ checked (O.meaning order.now) bytes.now }
    ensures filled { contents program.new ≡ (if is_ok result then holding order.now (sheet_program bytes.now) else contents program.old) }
{
    let mut sheet = ReadSheet::smallest();
    sheet.read(bytes)?;
    accept(&sheet, order, program)?;
    Ok(Sizes {
        variables: sheet.variables(),
        records: sheet.records(),
    })
}

// The verdict on the bytes of a sheet under the order. A yes carries the secrecy of two sessions.
pub fn check<O: LabelOrder>(bytes: &[u8], order: O) -> Result<Sizes, Refusal>
    ensures answers { result ≡ checked (O.meaning order) bytes.now }
    ensures secret { is_ok result ≡ true → Accepted (O.meaning order) (sheet_program bytes.now) × Secrecy (O.meaning order) (sheet_program bytes.now) }
{
    read_and_accept(bytes, &order, &mut Program::new(order))
}

// The verdict under the two-party order, as one line without its end.
pub fn verdict_line(heap: Global, bytes: &[u8]) -> Result<String, AllocError>
    ensures { IfOk result (λ s. string_bytes s ≡ verdict_text (checked two_party bytes.now)) }
{
    match check(bytes, TwoParty) {
        Ok(sizes) => format!(in heap; "{sizes}"),
        Err(refusal) => format!(in heap; "{refusal}"),
    }
}
