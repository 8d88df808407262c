// Calls that make a bank and use it.
use crate::answer::Answer;
use crate::fault::Fault;
use banks::{Bank, FlatBank, ShareBank};
use choice::AnyBank;
use std::alloc::Global;

fn set_bank(heap: Global, place: &mut Option<AnyBank>, bank: AnyBank) -> Result<Answer, Fault> {
    let cells = bank.size() as u64;
    *place = Some(bank);
    Answer::one(heap, "cells", cells)
}

// `flat WORD..`
pub fn flat(heap: Global, place: &mut Option<AnyBank>, words: &[u32]) -> Result<Answer, Fault> {
    let bank = FlatBank::new(words.to_vec(heap)?);
    set_bank(heap, place, AnyBank::Flat(bank))
}

// `share PAD WORD..`
pub fn share(heap: Global, place: &mut Option<AnyBank>, numbers: &[u32]) -> Result<Answer, Fault> {
    let [pad, words @ ..] = numbers else {
        return Err(Fault::Unreadable);
    };
    let bank = ShareBank::new(words.to_vec(heap)?, *pad);
    set_bank(heap, place, AnyBank::Share(bank))
}

// `put CELL VALUE`
pub fn put(heap: Global, bank: &mut Option<AnyBank>, numbers: &[u32]) -> Result<Answer, Fault> {
    let ([cell, value], Some(bank)) = (numbers, bank) else {
        return Err(Fault::Unreadable);
    };
    bank.put(*cell as usize, *value);
    Ok(Answer::Numbers("put", Vec::new(heap)))
}

// `get CELL`
pub fn get(heap: Global, bank: &mut Option<AnyBank>, numbers: &[u32]) -> Result<Answer, Fault> {
    let ([cell], Some(bank)) = (numbers, bank) else {
        return Err(Fault::Unreadable);
    };
    Answer::one(heap, "cell", u64::from(bank.get(*cell as usize)))
}

// The bank's words, behind the pad where there is one.
pub fn take_words(heap: Global, bank: Option<AnyBank>) -> Result<Answer, Fault> {
    let mut numbers = Vec::new(heap);
    let words = match bank {
        Some(AnyBank::Flat(bank)) => bank.into_words(),
        Some(AnyBank::Share(bank)) => {
            numbers.push(u64::from(bank.pad()))?;
            bank.into_words()
        }
        None => return Err(Fault::Unreadable),
    };
    numbers.extend(words.iter().map(|word| u64::from(*word)))?;
    Ok(Answer::Numbers("words", numbers))
}
