// Performing calls. The heap is a parameter of what allocates, so it goes with the session.
ghost use Rattle.std.specs.Prelude.{◌≡◌, true, is_ok, IfOk};
ghost use Rattle.model.specs.Session.{run, after};
ghost use Rattle.session.specs.Memories.{tables_of, order_of};
ghost use Rattle.session.specs.States.{state_of, done};
ghost use Rattle.compare.specs.Calls.{call_of, calls_of, kept, Performed};

use crate::call::Call;
use banks::Bank;
use labels::LabelOrder;
use model::SessionFault;
use session::{RunReport, Session};
use std::alloc::{AllocError, Global};
use tape::{BLANK, Entry};

// Keeps the entries that a run wrote; none where it was refused.
fn keep(tape: &mut Vec<Entry>, answer: Result<RunReport, SessionFault>)
    ensures { tape.new.items ≡ kept answer tape.old.items }
{
    match answer {
        Ok(report) => tape.truncate(report.entries),
        Err(_) => tape.clear(),
    }
}

// What a run writes on a tape with so much room.
fn run_entries<O: LabelOrder, B: Bank>(
    session: &mut Session<O, B>,
    steps: u64,
    room: usize,
    heap: Global,
) -> Result<Vec<Entry>, AllocError>
    ensures state { is_ok result ≡ true → state_of B.cells session.new ≡ (done O.meaning B.cells (run steps room) session.old).state }
    ensures entries { IfOk result (λ v. v.items ≡ (done O.meaning B.cells (run steps room) session.old).tape) }
    ensures program { session.new.memory.program ≡ session.old.memory.program }
{
    let mut tape = Vec::new(heap);
    tape.resize(room, BLANK)?;
    let answer = session.run(steps, &mut tape);
    keep(&mut tape, answer);
    Ok(tape)
}

// Performs one call: what it writes is joined to the tape.
#[tactic(auto, using(crate::proofs::Joining::silent))]
fn perform<O: LabelOrder, B: Bank>(
    session: &mut Session<O, B>,
    call: Call,
    tape: &mut Vec<Entry>,
    heap: Global,
) -> Result<(), AllocError>
    ensures performed { is_ok result ≡ true → Performed (O.meaning (order_of session.old.memory)) (tables_of session.old.memory) (call_of call) (state_of B.cells session.old) (state_of B.cells session.new) tape.old.items tape.new.items }
    ensures program { session.new.memory.program ≡ session.old.memory.program }
{
    match call {
        Call::Enter {
            party,
            variable,
            index,
            value,
        } => {
            let _ = session.enter(party, variable, index, value);
        }
        Call::Start => {
            let _ = session.start();
        }
        Call::Run { steps, room } => {
            let entries = run_entries(session, steps, room, heap)?;
            tape.extend_from_slice(&entries)?;
        }
        Call::Look {
            party,
            variable,
            index,
        } => {
            let _ = session.look(party, variable, index);
        }
    }
    Ok(())
}

// Performs calls, one after the other, and answers all that their runs wrote, joined.
pub(crate) fn perform_all<O: LabelOrder, B: Bank>(
    session: &mut Session<O, B>,
    calls: &[Call],
    heap: Global,
) -> Result<Vec<Entry>, AllocError>
    ensures { IfOk result (λ v. v.items ≡ (after (O.meaning (order_of session.old.memory)) (tables_of session.old.memory) (calls_of calls.now) (state_of B.cells session.old)).tape) }
{
    let mut tape = Vec::new(heap);
    for call in calls {
        perform(session, *call, &mut tape, heap)?;
    }
    Ok(tape)
}
