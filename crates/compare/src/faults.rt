// The faults that end a comparison. Clauses name the fault that a `?` makes, and a derive says nothing of it, so these
// are written out.
ghost use Rattle.std.specs.Prelude.{◌≡◌};
ghost use Rattle.tape.specs.Log.{log_refusal};
ghost use Rattle.compare.specs.declared.fault.CompareFault.TheVariants.{Refused, Memory};

use crate::fault::CompareFault;
use refusal::Refusal;
use std::alloc::AllocError;
use tape::LogFault;

// One From for all that convert to a refusal would conflict with that of AllocError, so each has its own.
impl From<Refusal> for CompareFault {
    ghost from_gives = { λ f r. r ≡ Refused f };

    fn from(f: Refusal) -> CompareFault {
        CompareFault::Refused(f)
    }
}

impl From<LogFault> for CompareFault {
    ghost from_gives = { λ f r. r ≡ Refused (log_refusal f) };

    fn from(f: LogFault) -> CompareFault {
        CompareFault::Refused(Refusal::from(f))
    }
}

impl From<AllocError> for CompareFault {
    ghost from_gives = { λ _ r. r ≡ Memory };

    fn from(_e: AllocError) -> CompareFault {
        CompareFault::Memory
    }
}
