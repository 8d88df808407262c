// Runs.
ghost use Rattle.std.specs.Prelude.{◌≡◌, ◌<◌, ◌≤◌, false, length, IfSome, IfNone};
ghost use Rattle.tape.specs.Log.{overwritten};
ghost use Rattle.model.specs.Machine.{ended};
ghost use Rattle.model.specs.Session.{steps, stopped};
ghost use Rattle.session.specs.Memories.{tables_of, order_of};
ghost use Rattle.session.specs.Reports.{reported};
ghost use Rattle.session.specs.States.{config_of};

use crate::report::RunReport;
use crate::session::Session;
use banks::Bank;
use labels::LabelOrder;
use model::Stop;
use tape::Entry;

// The entries that a step may write.
pub(crate) const MOST_ENTRIES: usize = 6;

impl<O: LabelOrder, B: Bank> Session<O, B> {
    // Is the stack empty?
    #[tactic(auto, unfolding(model::specs::Machine::ended))]
    pub(crate) fn ended(&self) -> bool
        ensures { result ≡ ended (config_of B.cells self.now) }
    {
        self.stack.is_empty()
    }

    // Why no step is taken here, if none is: the run has ended, else no step is left, else there is no room for one.
    #[tactic(auto, using(crate::proofs::Running::run_ended, crate::proofs::Running::run_spent, crate::proofs::Running::run_full))]
    fn stop(&self, left: u64, room: usize) -> Option<Stop>
        ensures stopped { IfSome result (λ why. steps (O.meaning (order_of self.now.memory)) (tables_of self.now.memory) left room (config_of B.cells self.now) ≡ stopped why (config_of B.cells self.now)) }
        ensures goes { IfNone result ((ended (config_of B.cells self.now) ≡ false) × (0 < left) × (6 ≤ room)) }
    {
        if self.ended() {
            Some(Stop::Ended)
        } else if left == 0 {
            Some(Stop::Spent)
        } else if room < MOST_ENTRIES {
            Some(Stop::Full)
        } else {
            None
        }
    }

    // Steps until the run has ended, as many steps were taken as are asked for, or the tape is full. The loop counts the
    // steps by hand: how many there will be is not known before, and the report tells it.
    pub(crate) fn run_steps(&mut self, limit: u64, tape: &mut [Entry]) -> RunReport
        ensures report { result ≡ reported (steps (O.meaning (order_of self.old.memory)) (tables_of self.old.memory) limit (length tape.old) (config_of B.cells self.old)) }
        ensures config { config_of B.cells self.new ≡ (steps (O.meaning (order_of self.old.memory)) (tables_of self.old.memory) limit (length tape.old) (config_of B.cells self.old)).config }
        ensures tape { tape.new ≡ overwritten (steps (O.meaning (order_of self.old.memory)) (tables_of self.old.memory) limit (length tape.old) (config_of B.cells self.old)).tape tape.old }
        ensures started { self.new.started ≡ self.old.started }
        ensures program { self.new.memory.program ≡ self.old.memory.program }
    {
        let mut taken = 0;
        let mut at = 0;
        loop {
            if let Some(stop) = self.stop(limit - taken, tape.len() - at) {
                return RunReport {
                    steps: taken,
                    entries: at,
                    stop,
                };
            }
            at = self.step(tape, at);
            taken += 1;
        }
    }
}
