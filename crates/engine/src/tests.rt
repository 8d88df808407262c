// Calls played by the engine for C, which may always answer that there was no memory: here there is some.
use crate::{AnswerRow, CallRow, mazgrut_play_flat, mazgrut_play_share};
use std::process::Abort;
use std::test::Fail;
use tape::BLANK;

// One number and one skip, both labelled P; and an array of two cells with a skip.
const NUMBER: [u8; 20] = [1, 1, 1, 0, 0, 0, 0, 0, 0, 0, 0, 0, 0, 0, 0, 0, 0, 0, 0, 0];

const ARRAY: [u8; 20] = [1, 1, 1, 0, 1, 0, 2, 0, 0, 0, 0, 0, 0, 0, 0, 0, 0, 0, 0, 0];

const fn call(call: u8, index: u32, value: u32) -> CallRow {
    CallRow {
        call,
        party: 0,
        variable: 0,
        index,
        value,
        steps: 9,
    }
}

// Enter 7 at the index, start, run, and look there.
const fn calls(index: u32) -> [CallRow; 4] {
    [
        call(0, index, 7),
        call(1, 0, 0),
        call(2, 0, 0),
        call(3, index, 0),
    ]
}

// The program has ended after one step, which wrote end alone, and the value is there.
fn assert_played(rt: &impl Abort, sizes: AnswerRow, answers: &[AnswerRow; 4]) -> Result<(), Fail> {
    let [_, started, ran, looked] = *answers;
    assert_eq!(rt; sizes.layer, 0);
    assert_eq!(rt; sizes.first, 1);
    assert_eq!(rt; sizes.second, 1);
    assert_eq!(rt; started.layer, 0);
    assert_eq!(rt; ran.stop, 1);
    assert_eq!(rt; ran.first, 1);
    assert_eq!(rt; ran.second, 1);
    assert_eq!(rt; looked.layer, 0);
    assert_eq!(rt; looked.first, 7);
    Ok(())
}

#[test]
fn flat(rt: HostRuntime) -> Result<(), Fail> {
    let mut tape = [BLANK; 6];
    let mut answers = [AnswerRow::default(); 4];
    let sizes = mazgrut_play_flat(rt.alloc(), &NUMBER, 0, &calls(0), &mut tape, &mut answers);
    assert_played(&rt, sizes, &answers)?;
    assert_eq!(rt; tape[0].kind, 8);
    Ok(())
}

#[test]
fn shares(rt: HostRuntime) -> Result<(), Fail> {
    let mut tape = [BLANK; 6];
    let mut answers = [AnswerRow::default(); 4];
    let sizes = mazgrut_play_share(rt.alloc(), &ARRAY, 4, 1, &calls(1), &mut tape, &mut answers);
    assert_played(&rt, sizes, &answers)?;
    assert_eq!(rt; tape[0].kind, 8);
    Ok(())
}
