// Comparing two sessions.
ghost use Rattle.std.specs.Prelude.{◌≡◌, ◌<◌, IfOk, vec_items, OnOk};
ghost use Rattle.model.specs.Secrecy.{Secrecy};
ghost use Rattle.checker.specs.Accepting.{sheet_program};
ghost use Rattle.compare.specs.Calls.{calls_of};
ghost use Rattle.refusal.specs.Answers.{map_ok};
ghost use Rattle.compare.specs.Comparing.{OrMemory, picked_log, logged, both, Compared};

use crate::call::Call;
use crate::fault::CompareFault;
use crate::logs::Logs;
use crate::performing::perform_all;
use banks::Bank;
use checker::{Program, accept};
use labels::LabelOrder;
use session::Session;
use sheet::ReadSheet;
use std::alloc::Global;
use tape::{BLANK, Entry, pick};

// One party's view of the sheet's program: what both sessions of a comparison share.
#[derive(Drop)]
struct View<'a, O: LabelOrder> {
    sheet: &'a ReadSheet<'a>,
    order: &'a O,
    party: u8,
    heap: Global,
}

impl<'a, O: LabelOrder> View<'a, O> {
    // The party's log of a tape.
    fn make_log(&self, tape: &[Entry]) -> Result<Vec<Entry>, CompareFault>
        ensures { OrMemory result (map_ok vec_items result ≡ picked_log (O.meaning self.now.order.now) self.now.party tape.now) }
    {
        let mut log = Vec::new(self.heap);
        log.resize(tape.len(), BLANK)?;
        let entries = pick(self.order, self.party, tape, &mut log)?;
        log.truncate(entries);
        Ok(log)
    }

    // The party's log of a session over the bank, after some calls.
    fn log_session<B: Bank + Drop>(
        &self,
        bank: B,
        calls: &[Call],
    ) -> Result<Vec<Entry>, CompareFault>
        ensures log { OrMemory result (map_ok vec_items result ≡ logged (O.meaning self.now.order.now) (sheet_program self.now.sheet.now.bytes.now) self.now.party (calls_of calls.now) (B.cells bank)) }
        ensures secrecy { OnOk result (Secrecy (O.meaning self.now.order.now) (sheet_program self.now.sheet.now.bytes.now)) }
    {
        let mut program = Program::new(*self.order);
        accept(self.sheet, self.order, &mut program)?;
        let mut session = Session::open(program, bank);
        let tape = perform_all(&mut session, calls, self.heap)?;
        self.make_log(&tape)
    }
}

// Accepts the sheet, opens a session over each bank, performs the calls of each, and answers the party's logs of both.
// Where the calls start alike for the party, the two logs tell it no more than the values released to it.
pub fn compare<O: LabelOrder, F: Bank + Drop, S: Bank + Drop>(
    sheet: &ReadSheet,
    order: &O,
    party: u8,
    first: F,
    calls: &[Call],
    second: S,
    others: &[Call],
    heap: Global,
) -> Result<Logs, CompareFault>
    ensures logs { OrMemory result (map_ok (λ l. (l.first.items, l.second.items)) result ≡ both (logged (O.meaning order.now) (sheet_program sheet.now.bytes.now) party (calls_of calls.now) (F.Bank.cells first)) (logged (O.meaning order.now) (sheet_program sheet.now.bytes.now) party (calls_of others.now) (S.Bank.cells second))) }
    ensures secret { IfOk result (λ l. Compared (O.meaning order.now) (sheet_program sheet.now.bytes.now) party (calls_of calls.now) (F.Bank.cells first) (calls_of others.now) (S.Bank.cells second) l.first.items l.second.items) }
{
    let view = View {
        sheet,
        order,
        party,
        heap,
    };
    let first = view.log_session(first, calls)?;
    let second = view.log_session(second, others)?;
    Ok(Logs { first, second })
}
