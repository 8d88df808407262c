// The rows of tables: as numbers, as bytes, and as typed entries.
use crate::fault::Fault;
use sheet::{Kind, ReadSheet, Record, Variable};
use std::alloc::Global;

// How many bytes each field has: kind, label, length.
pub const VARIABLE: [usize; 3] = [1, 1, 2];

// Form, label, x, a, b, c, next, the rest.
pub const RECORD: [usize; 8] = [1, 1, 1, 1, 1, 1, 2, 4];

// A byte alone.
pub const BYTE: [usize; 1] = [1];

// Appends the fields of a row, each in so many bytes.
fn append(bytes: &mut Vec<u8>, row: &[u32], widths: &[usize]) -> Result<(), Fault> {
    if row.len() != widths.len() {
        return Err(Fault::Unreadable);
    }
    for (field, width) in row.iter().zip(widths) {
        let field = field.to_le_bytes();
        let Some((low, high)) = field.split_at_checked(*width) else {
            return Err(Fault::Unreadable);
        };
        if high.iter().any(|byte| *byte != 0) {
            return Err(Fault::Unreadable);
        }
        bytes.extend_from_slice(low)?;
    }
    Ok(())
}

// The bytes of rows with fields of these widths.
pub fn bytes_of(heap: Global, numbers: &[u32], widths: &[usize]) -> Result<Vec<u8>, Fault> {
    let mut bytes = Vec::new(heap);
    let fields = widths.len();
    if fields == 0 {
        return Err(Fault::Unreadable);
    }
    for row in numbers.chunks(fields) {
        append(&mut bytes, row, widths)?;
    }
    Ok(bytes)
}

// The variable of four bytes, also one whose length is none for an array.
pub fn variable_in(row: &[u8]) -> Option<Variable> {
    let (label, kind) = match *row {
        [0, label, 0, 0] => (label, Kind::Number),
        [1, label, n0, n1] => (label, Kind::Array(u16::from_le_bytes([n0, n1]))),
        _ => return None,
    };
    Some(Variable { label, kind })
}

// The record of twelve bytes, by reading them behind a header and a number.
pub fn record_in(row: &[u8]) -> Option<Record> {
    let [f, l, x, a, b, c, n0, n1, r0, r1, r2, r3] = *row else {
        return None;
    };
    let bytes = [
        1, 1, 1, 0, 0, 0, 0, 0, f, l, x, a, b, c, n0, n1, r0, r1, r2, r3,
    ];
    let mut sheet = ReadSheet::smallest();
    sheet.read(&bytes).ok()?;
    sheet.record(1)
}
