// The words that a bank is made of.
ghost use Rattle.std.specs.Prelude.{◌≡◌, IfOk, vec_items};
ghost use Rattle.std.specs.Option.{option_map};
ghost use Rattle.script.specs.Commands.{each, zeros_of, bank_words};
ghost use Rattle.script.specs.Fields.{words_of, fields};

use crate::fields::{WORD, cut, field, numbers};
use std::alloc::{AllocError, Global};

const MOST_ZEROS: u64 = 1_000_000;

// So many zeros, if the number can be read. A pattern `Some([n])` gets no proof yet, so the array is taken apart by itself.
fn zeros(heap: Global, rest: Option<&str>) -> Result<Option<Vec<u32>>, AllocError>
    ensures { IfOk result (λ v. option_map vec_items v ≡ zeros_of (fields rest.entry)) }
{
    let Some(read) = numbers(rest, [MOST_ZEROS]) else {
        return Ok(None);
    };
    let [n] = read;
    Ok(Some(vec![in heap; 0u32; n as usize]?))
}

// The words one by one. A `collect` into an Option would not say when it fails, so this is a loop.
fn each(heap: Global, text: &str) -> Result<Option<Vec<u32>>, AllocError>
    ensures { IfOk result (λ v. option_map vec_items v ≡ each (words_of text.now)) }
{
    let mut all = Vec::new(heap);
    for word in text.split(' ') {
        match field(word, WORD) {
            Some(n) => all.push(n as u32)?,
            None => return Ok(None),
        }
    }
    Ok(Some(all))
}

// The words of a bank: `zeros N`, or the words one by one; none where the text cannot be read.
pub fn words(heap: Global, text: Option<&str>) -> Result<Option<Vec<u32>>, AllocError>
    ensures { IfOk result (λ v. option_map vec_items v ≡ bank_words (fields text.entry)) }
{
    let Some(line) = text else {
        return Ok(Some(Vec::new(heap)));
    };
    match cut(line) {
        ("zeros", rest) => zeros(heap, rest),
        _ => each(heap, line),
    }
}
