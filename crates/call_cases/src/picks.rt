// Picks of a log.
use crate::answer::Answer;
use crate::fault::Fault;
use choice::AnyOrder;
use refusal::Refusal;
use std::alloc::Global;
use tape::{Entry, pick};

// What fills the buffer before.
const UNWRITTEN: Entry = Entry {
    kind: 238,
    label: 238,
    record: 238,
    variable: 238,
    mark: 238,
    index: 238,
    value: 238,
};

fn parse_entry(row: &[u32]) -> Result<Entry, Fault> {
    let [kind, label, record, variable, index, value, mark] = *row else {
        return Err(Fault::Unreadable);
    };
    Ok(Entry {
        kind: u8::try_from(kind)?,
        label: u8::try_from(label)?,
        record: u16::try_from(record)?,
        variable: u8::try_from(variable)?,
        mark: u8::try_from(mark)?,
        index,
        value,
    })
}

fn parse_tape(heap: Global, numbers: &[u32]) -> Result<Vec<Entry>, Fault> {
    numbers.chunks(7).map(parse_entry).try_collect(heap)
}

// How many entries were picked, and then the whole buffer.
fn picked(heap: Global, count: usize, buffer: &[Entry]) -> Result<Answer, Fault> {
    let mut numbers = vec![in heap; count as u64]?;
    for entry in buffer {
        numbers.extend_from_slice(&[
            u64::from(entry.kind),
            u64::from(entry.label),
            u64::from(entry.record),
            u64::from(entry.variable),
            u64::from(entry.index),
            u64::from(entry.value),
            u64::from(entry.mark),
        ])?;
    }
    Ok(Answer::Numbers("picked", numbers))
}

/// `pick PARTY BUFFER ENTRY..`, with seven numbers an entry.
pub fn pick_log(heap: Global, order: &AnyOrder, numbers: &[u32]) -> Result<Answer, Fault> {
    let [party, buffer, numbers @ ..] = numbers else {
        return Err(Fault::Unreadable);
    };
    let (party, size) = (u8::try_from(*party)?, u16::try_from(*buffer)?);
    let tape = parse_tape(heap, numbers)?;
    let mut buffer = vec![in heap; UNWRITTEN; size as usize]?;
    match pick(order, party, &tape, &mut buffer) {
        Ok(count) => picked(heap, count, &buffer),
        Err(fault) => Ok(Answer::Left {
            refusal: Refusal::from(fault),
            untouched: buffer.iter().all(|entry| *entry == UNWRITTEN),
        }),
    }
}
