// Tables laid out, and sheets read.
use crate::answer::Answer;
use crate::fault::Fault;
use crate::tables::{BYTE, RECORD, VARIABLE, bytes_of, record_in, variable_in};
use refusal::Refusal;
use sheet::{ReadSheet, Record, Variable, lay_out};
use std::alloc::Global;

// What fills the buffer before.
const MARK: u8 = 0xee;

// The length and then the whole buffer, or the refusal.
fn lay(
    heap: Global,
    variables: &[Variable],
    records: &[Record],
    size: usize,
) -> Result<Answer, Fault> {
    let mut buffer = vec![in heap; MARK; size]?;
    match lay_out(variables, records, &mut buffer) {
        Ok(length) => {
            let mut numbers = vec![in heap; length as u64]?;
            numbers.extend(buffer.iter().map(|byte| u64::from(*byte)))?;
            Ok(Answer::Numbers("laid", numbers))
        }
        Err(fault) => Ok(Answer::Left {
            refusal: Refusal::from(fault),
            untouched: buffer.iter().all(|byte| *byte == MARK),
        }),
    }
}

// The header of so many rows.
fn header(variables: usize, records: usize) -> [u8; 4] {
    let [r0, r1] = (records.min(65_535) as u16).to_le_bytes();
    [1, variables.min(255) as u8, r0, r1]
}

// Rows that no tables hold, refused as bytes. A count that its field cannot hold is written as the largest that it
// can, which is refused too.
fn untyped(heap: Global, variables: &[u8], records: &[u8]) -> Result<Answer, Fault> {
    let header = header(variables.len() / 4, records.len() / 12);
    let mut bytes = header.to_vec(heap)?;
    bytes.extend_from_slice(variables)?;
    bytes.extend_from_slice(records)?;
    match ReadSheet::smallest().read(&bytes) {
        Ok(()) => Err(Fault::Unreadable),
        Err(fault) => Ok(Answer::Untyped(Refusal::from(fault))),
    }
}

// `layout BUFFER VARIABLES ROW..`, with three numbers a variable and eight a record.
pub fn layout(heap: Global, numbers: &[u32]) -> Result<Answer, Fault> {
    let [size, count, rows @ ..] = numbers else {
        return Err(Fault::Unreadable);
    };
    let (variables, records) = rows
        .split_at_checked(3 * (*count as usize))
        .ok_or(Fault::Unreadable)?;
    let variables = bytes_of(heap, variables, &VARIABLE)?;
    let records = bytes_of(heap, records, &RECORD)?;
    let typed_variables: Option<Vec<Variable>> = variables
        .chunks(4)
        .map(variable_in)
        .collect(heap)?;
    let typed_records: Option<Vec<Record>> = records.chunks(12).map(record_in).collect(heap)?;
    match (typed_variables, typed_records) {
        (Some(variables), Some(records)) => lay(heap, &variables, &records, *size as usize),
        _ => untyped(heap, &variables, &records),
    }
}

// Reads bytes over the smallest sheet.
fn read_sheet(heap: Global, bytes: &[u8]) -> Result<Answer, Fault> {
    let mut sheet = ReadSheet::smallest();
    let answer = sheet.read(bytes);
    let (variables, records) = (sheet.variables() as u64, sheet.records() as u64);
    match answer {
        Ok(()) => Ok(Answer::Numbers("read", vec![in heap; variables, records]?)),
        Err(fault) => Ok(Answer::Left {
            refusal: Refusal::from(fault),
            untouched: variables == 1 && records == 1,
        }),
    }
}

// `read BYTE..`
pub fn read(heap: Global, numbers: &[u32]) -> Result<Answer, Fault> {
    let bytes = bytes_of(heap, numbers, &BYTE)?;
    read_sheet(heap, &bytes)
}
