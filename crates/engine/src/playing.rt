// Playing calls on a session.
ghost use Rattle.std.specs.Prelude.{◌≡◌, ◌≤◌, length};
ghost use Rattle.labels.specs.Orders.{two_party};
ghost use Rattle.session.specs.Memories.{tables_of};
ghost use Rattle.session.specs.States.{state_of};
ghost use Rattle.engine.specs.Rows.{row_of};
ghost use Rattle.engine.specs.Playing.{call_of, row_answer, row_state, row_tape, played, play_row, play_over};

use crate::answers::{row, told};
use crate::fault::Fault;
use crate::rows::{AnswerRow, CallRow};
use banks::Bank;
use checker::Program;
use labels::TwoParty;
use session::Session;
use tape::Entry;
use verdict::read_and_accept;

// Plays one call.
fn perform<B: Bank>(
    session: &mut Session<TwoParty, B>,
    call: CallRow,
    tape: &mut [Entry],
) -> Result<AnswerRow, Fault>
    ensures answer { row_of result ≡ row_answer two_party (tables_of session.old.memory) call.call (call_of (length tape.old) call) (state_of B.cells session.old) }
    ensures state { state_of B.cells session.new ≡ row_state two_party (tables_of session.old.memory) (call_of (length tape.old) call) (state_of B.cells session.old) }
    ensures tape { tape.new ≡ row_tape two_party (tables_of session.old.memory) (call_of (length tape.old) call) (state_of B.cells session.old) tape.old }
    ensures program { session.new.memory.program ≡ session.old.memory.program }
{
    match call.call {
        0 => session.enter(call.party, call.variable, call.index, call.value)?,
        1 => session.start()?,
        2 => return Ok(AnswerRow::from(session.run(call.steps, tape)?)),
        3 => {
            let value = session.look(call.party, call.variable, call.index)?;
            return Ok(told(u64::from(value), 0));
        }
        _ => return Err(Fault::NoCall(call.call)),
    }
    Ok(told(0, 0))
}

// Plays calls, one after the other. After a zip with `iter_mut` nothing is known of the answers, so each is set by its number.
fn perform_all<B: Bank>(
    session: &mut Session<TwoParty, B>,
    calls: &[CallRow],
    tape: &mut [Entry],
    answers: &mut [AnswerRow],
)
    requires { length calls.now ≤ length answers.old }
    ensures tape { tape.new ≡ (played two_party (tables_of session.old.memory) calls.now 0 (state_of B.cells session.old) tape.old answers.old).tape }
    ensures answers { answers.new ≡ (played two_party (tables_of session.old.memory) calls.now 0 (state_of B.cells session.old) tape.old answers.old).answers }
{
    for (k, call) in calls.iter().enumerate() {
        answers[k] = row(perform(session, *call, tape));
    }
}

// Accepts the sheet, opens a session over the bank and plays the calls on it, with the answer of each in the row of its
// number.
pub(crate) fn play<B: Bank + Drop>(
    sheet: &[u8],
    bank: B,
    calls: &[CallRow],
    tape: &mut [Entry],
    answers: &mut [AnswerRow],
) -> Result<AnswerRow, Fault>
    ensures answer { row_of result ≡ play_row sheet.now calls.now answers.old }
    ensures tape { tape.new ≡ (play_over (row_of result) sheet.now (B.cells bank) calls.now tape.old answers.old).tape }
    ensures answers { answers.new ≡ (play_over (row_of result) sheet.now (B.cells bank) calls.now tape.old answers.old).answers }
{
    if answers.len() < calls.len() {
        return Err(Fault::NoRoom(calls.len()));
    }
    let mut program = Program::new(TwoParty);
    let sizes = read_and_accept(sheet, &TwoParty, &mut program)?;
    let mut session = Session::open(program, bank);
    perform_all(&mut session, calls, tape, answers);
    Ok(AnswerRow::from(sizes))
}
