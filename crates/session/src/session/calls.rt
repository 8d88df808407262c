// Open, enter, start, run and look.
ghost use Rattle.std.specs.Prelude.{◌≡◌, ℕ, true, false, is_ok, length, OnOk};
ghost use Rattle.refusal.specs.Answers.{answer};
ghost use Rattle.tape.specs.Log.{overwritten};
ghost use Rattle.checker.specs.Contents.{contents};
ghost use Rattle.model.specs.Session.{opened, enter, start, run, look, looked, has_place};
ghost use Rattle.model.specs.Runs.{IsRun};
ghost use Rattle.session.specs.Memories.{tables_of, order_of};
ghost use Rattle.session.specs.Reports.{reported};
ghost use Rattle.session.specs.Pieces.{InPieces};
ghost use Rattle.session.specs.States.{config_of, state_of, refusal_of, done, ran_of, access_fault};

use crate::memory::Memory;
use crate::report::RunReport;
use crate::session::Session;
use crate::session::runs::MOST_ENTRIES;
use crate::stack::Stack;
use banks::Bank;
use checker::Program;
use labels::LabelOrder;
use model::SessionFault;
use tape::Entry;

impl<O: LabelOrder, B: Bank> Session<O, B> {
    // A session of the program over the bank: every number and every cell that the arrays use is 0, and record 1 is next.
    #[tactic(auto, using(crate::proofs::Moving::first_climbs, crate::proofs::Moving::first_clean), unfolding(model::specs::Session::opened))]
    pub fn open(program: Program<O>, bank: B) -> Session<O, B>
        ensures state { state_of B.cells result ≡ opened (contents program).tables (B.cells bank) }
        ensures program { result.memory.program ≡ program }
    {
        Session {
            memory: Memory::new(program, bank),
            stack: Stack::new(1),
            started: false,
        }
    }

    // May the party see the place? If so, there is such a place.
    fn check_access(&self, party: u8, variable: u8, index: u32) -> Result<(), SessionFault>
        ensures answers { result ≡ answer (access_fault (O.meaning (order_of self.now.memory)) (tables_of self.now.memory) party variable index) tt }
        ensures place { OnOk result (has_place (tables_of self.now.memory) variable index ≡ true) }
    {
        let order = self.memory.program().order();
        if party >= order.parties() {
            return Err(SessionFault::NoParty(party));
        }
        if !self.memory.has_place(variable, index) {
            return Err(SessionFault::NoPlace(variable));
        }
        if !order.opens(self.memory.program().variable(variable).label, party) {
            return Err(SessionFault::NotOpen(variable));
        }
        Ok(())
    }

    // May the session be started?
    #[tactic(auto, unfolding(model::specs::Session::fault, model::specs::Session::too_small))]
    fn check_start(&self) -> Result<(), SessionFault>
        ensures { result ≡ answer (refusal_of O.meaning B.cells start self.now) tt }
    {
        if self.memory.too_small() {
            return Err(SessionFault::BankTooSmall);
        }
        if self.started {
            return Err(SessionFault::Started);
        }
        Ok(())
    }

    // May it run, with room for so many entries?
    #[tactic(auto, unfolding(model::specs::Session::fault))]
    fn check_run(&self, room: usize) -> Result<(), SessionFault>
        ensures { (steps : ℕ) → result ≡ answer (refusal_of O.meaning B.cells (run steps room) self.now) tt }
    {
        if !self.started {
            return Err(SessionFault::NotStarted);
        }
        if self.ended() {
            return Err(SessionFault::Ended);
        }
        if room < MOST_ENTRIES {
            return Err(SessionFault::TapeTooShort);
        }
        Ok(())
    }

    // Sets a variable, before the start, for a party to which its label is open. Party, variable and index are what a host
    // passes, each refused by a number of its own.
    #[tactic(auto, unfolding(model::specs::Session::perform, model::specs::Session::fault, model::specs::Session::too_small))]
    pub fn enter(
        &mut self,
        party: u8,
        variable: u8,
        index: u32,
        value: u32,
    ) -> Result<(), SessionFault>
        ensures answers { result ≡ answer (refusal_of O.meaning B.cells (enter party variable index value) self.old) tt }
        ensures state { state_of B.cells self.new ≡ (done O.meaning B.cells (enter party variable index value) self.old).state }
        ensures program { self.new.memory.program ≡ self.old.memory.program }
        ensures untouched { is_ok result ≡ false → self.new ≡ self.old }
    {
        self.check_start()?;
        self.check_access(party, variable, index)?;
        self.memory.enter(variable, index, value);
        Ok(())
    }

    // Starts the session: nothing is entered from then on, and it may run.
    #[tactic(auto, unfolding(model::specs::Session::perform))]
    pub fn start(&mut self) -> Result<(), SessionFault>
        ensures answers { result ≡ answer (refusal_of O.meaning B.cells start self.old) tt }
        ensures state { state_of B.cells self.new ≡ (done O.meaning B.cells start self.old).state }
        ensures program { self.new.memory.program ≡ self.old.memory.program }
        ensures untouched { is_ok result ≡ false → self.new ≡ self.old }
    {
        self.check_start()?;
        self.started = true;
        Ok(())
    }

    // What a variable holds, for a party to which its label is open.
    #[tactic(auto, unfolding(model::specs::Session::perform, model::specs::Session::looked, model::specs::Session::fault, model::specs::Session::too_small))]
    pub fn look(&mut self, party: u8, variable: u8, index: u32) -> Result<u32, SessionFault>
        ensures answers { result ≡ looked (O.meaning (order_of self.old.memory)) (tables_of self.old.memory) (state_of B.cells self.old) party variable index }
        ensures state { state_of B.cells self.new ≡ (done O.meaning B.cells (look party variable index) self.old).state }
        ensures program { self.new.memory.program ≡ self.old.memory.program }
        ensures untouched { is_ok result ≡ false → self.new ≡ self.old }
    {
        if self.memory.too_small() {
            return Err(SessionFault::BankTooSmall);
        }
        self.check_access(party, variable, index)?;
        Ok(self.memory.look(variable, index))
    }

    // Runs for at most so many steps, and writes what they write from the beginning of the tape on; the rest of the tape
    // stays. Before each step: the program has ended, else the steps are taken, else the tape is full.
    #[tactic(auto, using(model::proofs::Running::is_run, crate::proofs::Splitting::in_pieces), unfolding(model::specs::Session::perform))]
    pub fn run(&mut self, steps: u64, tape: &mut [Entry]) -> Result<RunReport, SessionFault>
        ensures answers { result ≡ answer (refusal_of O.meaning B.cells (run steps (length tape.old)) self.old) (reported (ran_of O.meaning B.cells steps (length tape.old) self.old)) }
        ensures state { state_of B.cells self.new ≡ (done O.meaning B.cells (run steps (length tape.old)) self.old).state }
        ensures tape { tape.new ≡ overwritten (done O.meaning B.cells (run steps (length tape.old)) self.old).tape tape.old }
        ensures program { self.new.memory.program ≡ self.old.memory.program }
        ensures untouched { is_ok result ≡ false → self.new ≡ self.old }
        ensures steps { IsRun (O.meaning (order_of self.old.memory)) (tables_of self.old.memory) steps (length tape.old) (config_of B.cells self.old) (ran_of O.meaning B.cells steps (length tape.old) self.old) }
        ensures pieces { InPieces (O.meaning (order_of self.old.memory)) (tables_of self.old.memory) (config_of B.cells self.old) steps (length tape.old) }
    {
        self.check_run(tape.len())?;
        Ok(self.run_steps(steps, tape))
    }
}
