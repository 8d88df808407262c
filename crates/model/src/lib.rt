// The joint-run machine: what programs mean, which are accepted, and the secrecy of two sessions.
#![tactic(auto)]

ghost use Rattle.labels.specs.Labels.{Labels, Lawful};
ghost use Rattle.model.specs.Program.{Program};
ghost use Rattle.model.specs.Rules.{Accepted};
ghost use Rattle.model.specs.Secrecy.{Secrecy};
ghost use Rattle.model.specs.Cases.{Cases};

mod fault;
mod laws;
mod place;
mod rule;
mod stop;

pub use fault::SessionFault;
pub use laws::{
    end_closes_logs, marks_tell_outside, oram_copies, runs_are_one, stack_stays_low,
    steps_write_six, tapes_are_well_formed,
};
pub use place::Place;
pub use rule::Rule;
pub use stop::Stop;

/// Two sessions of an accepted program, whatever was entered and called, tell a party no more than it was released. As with
/// the laws, the contract is the theorem, and the answer means nothing.
pub fn secrecy_holds() -> u8
    ensures { (L : Labels) → Lawful L → (p : Program) → Accepted L p → Secrecy L p }
{
    0
}

/// The worked cases hold of the rules and the machine.
pub fn cases_hold() -> u8
    ensures { Cases }
{
    0
}
