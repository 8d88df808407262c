// A line: a word, and decimal numbers of 32 bits behind it, divided by one space.
use crate::fault::Fault;
use std::alloc::Global;

#[derive(Drop)]
pub struct Line<'a> {
    pub word: &'a str,
    pub numbers: Vec<u32>,
}

// `parse` would take a sign.
fn parse_number(text: &str) -> Result<u32, Fault> {
    if text.starts_with('+') {
        return Err(Fault::Unreadable);
    }
    Ok(text.parse::<u32>()?)
}

impl<'a> Line<'a> {
    pub fn parse(heap: Global, bytes: &'a [u8]) -> Result<Line<'a>, Fault> {
        let text = std::str::from_utf8(bytes)?;
        let mut numbers = Vec::new(heap);
        let Some((word, rest)) = text.split_once(' ') else {
            return Ok(Line {
                word: text,
                numbers,
            });
        };
        for number in rest.split(' ') {
            numbers.push(parse_number(number)?)?;
        }
        Ok(Line { word, numbers })
    }
}
