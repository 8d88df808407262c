// A record that acts.
use crate::memory::Memory;
use labels::LabelOrder;
use tape::Entry;

// The record's number and label, the memory that it changes, and the tape that it writes from `at` on. The room that is
// left shrinks with each entry, so each call asks for its own.
#[derive(Drop)]
pub(crate) struct Turn<'a, O: LabelOrder, B> {
    pub(crate) number: u16,
    pub(crate) label: u8,
    pub(crate) memory: &'a mut Memory<O, B>,
    pub(crate) tape: &'a mut [Entry],
    pub(crate) at: usize,
}

mod forms;
mod notes;
