// The answer to a line, and how it prints.
use crate::fault::Fault;
use refusal::Refusal;
use std::alloc::Global;
use std::io;
use std::io::Write;

#[derive(Drop)]
pub enum Answer {
    // A word, and numbers behind it.
    Numbers(&'static str, Vec<u64>),
    Refused(Refusal),
    // A refusal, and whether it left all as it was.
    Left { refusal: Refusal, untouched: bool },
    // Rows that no table can hold, refused as bytes.
    Untyped(Refusal),
}

impl Answer {
    // A word and one number.
    pub fn one(heap: Global, word: &'static str, number: u64) -> Result<Answer, Fault> {
        Ok(Answer::Numbers(word, vec![in heap; number]?))
    }
}

fn print_numbers<W: Write>(out: &mut W, numbers: &[u64]) -> io::Result<()> {
    for number in numbers {
        write!(out, " {number}")?;
    }
    writeln!(out)
}

pub fn print<W: Write>(out: &mut W, answer: &Answer) -> io::Result<()> {
    match answer {
        Answer::Numbers(word, numbers) => {
            write!(out, "{word}")?;
            print_numbers(out, numbers)
        }
        Answer::Refused(refusal) => writeln!(out, "{refusal}"),
        Answer::Left { refusal, untouched } => {
            let state = if *untouched { "untouched" } else { "touched" };
            writeln!(out, "{refusal} {state}")
        }
        Answer::Untyped(refusal) => writeln!(out, "untyped {refusal}"),
    }
}
