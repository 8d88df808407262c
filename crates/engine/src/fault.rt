// Why a row tells of no answer.
ghost use Rattle.std.specs.Prelude.{◌≡◌};
ghost use Rattle.tape.specs.Log.{log_refusal};
ghost use Rattle.model.specs.Faults.{session_refusal_of};
ghost use Rattle.engine.specs.declared.fault.Fault.TheVariants.{Refused, Memory};

use model::SessionFault;
use refusal::Refusal;
use std::alloc::AllocError;
use tape::LogFault;

#[derive(Clone, Copy)]
pub(crate) enum Fault {
    // The engine refused it.
    Refused(Refusal),
    // There was no memory for the bank.
    Memory,
    // No call has this number.
    NoCall(u8),
    // There are fewer rows for answers than calls, which are so many.
    NoRoom(usize),
}

// One From for all that convert to a refusal would conflict with that of AllocError, so each has its own.
impl From<Refusal> for Fault {
    ghost from_gives = { λ r f. f ≡ Refused r };

    fn from(refusal: Refusal) -> Fault {
        Fault::Refused(refusal)
    }
}

impl From<LogFault> for Fault {
    ghost from_gives = { λ e f. f ≡ Refused (log_refusal e) };

    fn from(fault: LogFault) -> Fault {
        Fault::Refused(Refusal::from(fault))
    }
}

impl From<SessionFault> for Fault {
    ghost from_gives = { λ e f. f ≡ Refused (session_refusal_of e) };

    fn from(fault: SessionFault) -> Fault {
        Fault::Refused(Refusal::from(fault))
    }
}

impl From<AllocError> for Fault {
    ghost from_gives = { λ _ f. f ≡ Memory };

    fn from(_e: AllocError) -> Fault {
        Fault::Memory
    }
}
