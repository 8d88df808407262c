// The checks of a byte string that is to be a sheet, in the order of their numbers.
ghost use Rattle.std.specs.Prelude.{◌≡◌, ℕ, ◌+◌, ◌*◌, ◌^◌, ◌<◌, ◌≤◌, ◌||◌, ◌==◌, true, false, length, slice_index, MatchOption};
ghost use Rattle.sheet.specs.Format.{word16, used};
ghost use Rattle.refusal.specs.Answers.{answer};
ghost use Rattle.sheet.specs.Reading.{counts_refusal, header_refusal, variable_refusal, variables_refusal, record_refusal, records_refusal, sheet_refusal, variable_place, record_place, variable_count_of, record_count_of};

use crate::codec::used;
use crate::faults::SheetFault;
use crate::tables::Op;

// Where the variable numbered k begins.
pub(crate) fn variable_place(k: usize) -> usize
    requires { k ≤ 64 }
    ensures { result ≡ variable_place k }
{
    4 + 4 * k
}

// Where the record numbered k + 1 begins, behind so many variables.
pub(crate) fn record_place(variables: usize, k: usize) -> usize
    requires { (variables ≤ 64) × (k ≤ 512) }
    ensures { result ≡ record_place variables k }
{
    variable_place(variables) + 12 * k
}

// Whether there are so many variables and records in a sheet.
pub(crate) fn check_counts(variables: usize, records: usize) -> Result<(), SheetFault>
    ensures { result ≡ answer (counts_refusal variables records) tt }
{
    if !(1..=64).contains(&variables) {
        return Err(SheetFault::VariableCount(1));
    }
    if !(1..=512).contains(&records) {
        return Err(SheetFault::RecordCount(2));
    }
    Ok(())
}

// The header: how many variables and records there are.
#[tactic(auto, using(std::proofs::lemmas::Bool::Decides::nat_tests), unfolding(crate::specs::Reading::header_refusal))]
fn check_header(bytes: &[u8]) -> Result<(usize, usize), SheetFault>
    ensures { result ≡ answer (header_refusal bytes.now) (variable_count_of bytes.now, record_count_of bytes.now) }
{
    let n = bytes.len();
    let [version, variables, r0, r1, ..] = *bytes else {
        return Err(SheetFault::Truncated(n));
    };
    let (variables, records) = (variables as usize, u16::from_le_bytes([r0, r1]) as usize);
    if version != 1 {
        return Err(SheetFault::Version(0));
    }
    check_counts(variables, records)?;
    if n != record_place(variables, records) {
        return Err(SheetFault::Length(n));
    }
    Ok((variables, records))
}

// One variable, whose bytes begin at p, after others that take `before` cells: the cells with its own.
#[tactic(auto, using(std::proofs::lemmas::Bool::Decides::nat_tests), unfolding(crate::specs::Reading::variable_refusal))]
pub(crate) fn check_variable(row: &[u8; 4], p: usize, before: usize) -> Result<usize, SheetFault>
    requires fits { (p < 2 ^ 32) × (before ≤ 16384) }
    ensures { result ≡ answer (variable_refusal p before row.now) (before + word16 row.now 2) }
{
    let [kind, _, n0, n1] = *row;
    let n = u16::from_le_bytes([n0, n1]);
    match (kind, n) {
        (0, 0) | (1, 1..=4096) => (),
        (0 | 1, _) => return Err(SheetFault::VariableLength(p + 2)),
        _ => return Err(SheetFault::Kind(p)),
    }
    let total = before + n as usize;
    if total > 16384 {
        return Err(SheetFault::TotalLength(p + 2));
    }
    Ok(total)
}

fn check_variables(bytes: &[u8], count: usize) -> Result<(), SheetFault>
    requires fits { (count ≤ 64) × (variable_place count ≤ length bytes.now) }
    ensures { result ≡ answer (variables_refusal bytes.now count) tt }
{
    let table = &bytes[4..variable_place(count)];
    let mut total = 0;
    for (k, row) in table.as_chunks::<4>().0.iter().enumerate() {
        total = check_variable(row, variable_place(k), total)?;
    }
    Ok(())
}

// The first byte of a record that is not 0 though the form leaves it unused.
fn stray(form: u8, part: &[u8; 12]) -> Option<usize>
    ensures { MatchOption result ((k : ℕ) → k < length part.now → (used form k || slice_index part.now k == 0) ≡ true) (λ i. (i < length part.now) × ((used form i || slice_index part.now i == 0) ≡ false) × ((k : ℕ) → k < i → (used form k || slice_index part.now k == 0) ≡ true)) }
{
    let mut bytes = part.iter().enumerate();
    bytes.position(|(i, byte)| !used(form, i) && *byte != 0)
}

// One record, whose bytes begin at p.
fn check_record(row: &[u8; 12], p: usize) -> Result<(), SheetFault>
    requires fits { p < 2 ^ 32 }
    ensures { result ≡ answer (record_refusal p row.now) tt }
{
    let form = row[0];
    if form > 10 {
        return Err(SheetFault::Form(p));
    }
    if let Some(i) = stray(form, row) {
        return Err(SheetFault::Unused(p + i));
    }
    if form == 3 && Op::try_from(row[5]).is_err() {
        return Err(SheetFault::Operator(p + 5));
    }
    Ok(())
}

fn check_records(bytes: &[u8], variables: usize, count: usize) -> Result<(), SheetFault>
    requires fits { (variables ≤ 64) × ((count ≤ 512) × (record_place variables count ≤ length bytes.now)) }
    ensures { result ≡ answer (records_refusal bytes.now variables count) tt }
{
    let table = &bytes[variable_place(variables)..record_place(variables, count)];
    for (k, row) in table.as_chunks::<12>().0.iter().enumerate() {
        check_record(row, record_place(variables, k))?;
    }
    Ok(())
}

// Whether the bytes are a sheet.
#[tactic(auto, unfolding(crate::specs::Reading::sheet_refusal))]
pub(crate) fn check_sheet(bytes: &[u8]) -> Result<(), SheetFault>
    ensures { result ≡ answer (sheet_refusal bytes.now) tt }
{
    let (variables, records) = check_header(bytes)?;
    check_variables(bytes, variables)?;
    check_records(bytes, variables, records)
}
