// Why a command was not done.
use labels::OrderFault;
use model::SessionFault;
use refusal::Refusal;
use std::alloc::{AllocError, AllocFailed};
use std::{fmt, io};
use tape::LogFault;

#[derive(Drop)]
pub enum Fault {
    // The line of this number cannot be read.
    Unreadable(u64),
    NoOrder,
    NoSession,
    NothingToOpen,
    Refused(Refusal),
    // The output failed, or there was not enough memory.
    Io(io::Error),
}

impl fmt::Display for Fault {
    fn fmt<W: fmt::Write>(&self, f: &mut fmt::Formatter<W>) -> fmt::Result {
        match self {
            Fault::Unreadable(line) => write!(f, "unreadable {line}"),
            Fault::NoOrder => write!(f, "no order"),
            Fault::NoSession => write!(f, "no session"),
            Fault::NothingToOpen => write!(f, "nothing to open"),
            Fault::Refused(refusal) => write!(f, "{refusal}"),
            Fault::Io(e) => write!(f, "{e}"),
        }
    }
}

// One From for all that convert to a refusal would conflict with that of AllocError, so each has its own.
impl From<Refusal> for Fault {
    fn from(refusal: Refusal) -> Fault {
        Fault::Refused(refusal)
    }
}

impl From<OrderFault> for Fault {
    fn from(fault: OrderFault) -> Fault {
        Fault::Refused(Refusal::from(fault))
    }
}

impl From<SessionFault> for Fault {
    fn from(fault: SessionFault) -> Fault {
        Fault::Refused(Refusal::from(fault))
    }
}

impl From<LogFault> for Fault {
    fn from(fault: LogFault) -> Fault {
        Fault::Refused(Refusal::from(fault))
    }
}

impl From<io::Error> for Fault {
    fn from(e: io::Error) -> Fault {
        Fault::Io(e)
    }
}

impl From<AllocError> for Fault {
    fn from(e: AllocError) -> Fault {
        Fault::Io(io::Error::from(e))
    }
}

impl<T: Drop> From<AllocFailed<T>> for Fault {
    fn from(e: AllocFailed<T>) -> Fault {
        Fault::Io(io::Error::from(e))
    }
}
