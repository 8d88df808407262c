// The engine for C and Rust, under the two-party order: a handful of functions on numbers and slices.
#![tactic(auto)]

ghost use Rattle.std.specs.Prelude.{◌≡◌, length, replicate};
ghost use Rattle.banks.specs.Shares.{joined_cells};
ghost use Rattle.labels.specs.Orders.{two_party};
ghost use Rattle.tape.specs.Log.{pick_answer, pick_buffer};
ghost use Rattle.model.specs.Rules.{Accepted};
ghost use Rattle.model.specs.Session.{opened};
ghost use Rattle.model.specs.Secrecy.{Secrecy};
ghost use Rattle.checker.specs.Accepting.{sheet_program};
ghost use Rattle.verdict.specs.Verdicts.{checked};
ghost use Rattle.engine.specs.Rows.{check_row, pick_row, OrMemory};
ghost use Rattle.engine.specs.Playing.{play_row, play_over};
ghost use Rattle.engine.specs.Following.{PlayFollows};

mod answers;
mod fault;
mod playing;
mod rows;
#[cfg(test)]
mod tests;

use answers::{row, told};
use banks::{FlatBank, ShareBank};
use fault::Fault;
use labels::TwoParty;
use playing::play;
pub use rows::{AnswerRow, CallRow};
use std::alloc::Global;
use tape::{Entry, pick};
use verdict::check;

// The verdict on the bytes of a sheet.
#[unsafe(no_mangle)]
pub extern "C" fn mazgrut_check(sheet: &[u8]) -> AnswerRow
    ensures answer { result ≡ check_row (checked two_party sheet.now) }
    ensures secret { result.layer ≡ 0 → Accepted two_party (sheet_program sheet.now) × Secrecy two_party (sheet_program sheet.now) }
{
    match check(sheet, TwoParty) {
        Ok(sizes) => AnswerRow::from(sizes),
        Err(refusal) => AnswerRow::from(Fault::from(refusal)),
    }
}

// A party's log of a tape.
#[unsafe(no_mangle)]
pub extern "C" fn mazgrut_pick(party: u8, tape: &[Entry], out: &mut [Entry]) -> AnswerRow
    ensures answer { result ≡ pick_row (pick_answer two_party party tape.now (length out.old)) }
    ensures buffer { out.new ≡ pick_buffer two_party party tape.now out.old }
{
    match pick(&TwoParty, party, tape, out) {
        Ok(entries) => told(entries as u64, 0),
        Err(fault) => AnswerRow::from(Fault::from(fault)),
    }
}

// Accepts a sheet, opens a session over a flat bank of so many zeros, and plays calls on it. The tape is lent to each run.
// Sheet, calls, tape and answers are parameters of their own, as C passes them.
#[unsafe(no_mangle)]
pub extern "C" fn mazgrut_play_flat(
    heap: Global,
    sheet: &[u8],
    words: usize,
    calls: &[CallRow],
    tape: &mut [Entry],
    answers: &mut [AnswerRow],
) -> AnswerRow
    ensures answer { OrMemory result (play_row sheet.now calls.now answers.old) }
    ensures tape { tape.new ≡ (play_over result sheet.now (replicate words 0) calls.now tape.old answers.old).tape }
    ensures answers { answers.new ≡ (play_over result sheet.now (replicate words 0) calls.now tape.old answers.old).answers }
    ensures follows { PlayFollows two_party (sheet_program sheet.now) calls.now (opened (sheet_program sheet.now) (replicate words 0)) tape.old answers.old }
{
    match vec![in heap; 0u32; words] {
        Ok(zeros) => row(play(sheet, FlatBank::new(zeros), calls, tape, answers)),
        Err(e) => AnswerRow::from(Fault::from(e)),
    }
}

// The same over a share bank of so many zeros with its first pad; a function of its own, since C calls it by its name.
#[unsafe(no_mangle)]
pub extern "C" fn mazgrut_play_share(
    heap: Global,
    sheet: &[u8],
    words: usize,
    pad: u32,
    calls: &[CallRow],
    tape: &mut [Entry],
    answers: &mut [AnswerRow],
) -> AnswerRow
    ensures answer { OrMemory result (play_row sheet.now calls.now answers.old) }
    ensures tape { tape.new ≡ (play_over result sheet.now (joined_cells (replicate words 0)) calls.now tape.old answers.old).tape }
    ensures answers { answers.new ≡ (play_over result sheet.now (joined_cells (replicate words 0)) calls.now tape.old answers.old).answers }
    ensures follows { PlayFollows two_party (sheet_program sheet.now) calls.now (opened (sheet_program sheet.now) (joined_cells (replicate words 0))) tape.old answers.old }
{
    match vec![in heap; 0u32; words] {
        Ok(zeros) => row(play(sheet, ShareBank::new(zeros, pad), calls, tape, answers)),
        Err(e) => AnswerRow::from(Fault::from(e)),
    }
}
