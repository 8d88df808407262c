// Why a run stops before its next step, in the order in which this is asked.
ghost use Rattle.std.specs.Prelude.{Some};
ghost use Rattle.model.specs.Stops.{stop_text};

use std::fmt;

#[derive(Clone, Copy, PartialEq, Eq)]
pub enum Stop {
    // The program has ended.
    Ended = 1,
    // As many steps were taken as were asked for.
    Spent = 2,
    // The tape has room for fewer than 6 entries more.
    Full = 3,
}

// A reason prints as its name.
impl fmt::Display for Stop {
    ghost output = { λ s. Some (stop_text s) };

    fn fmt<W: fmt::Write>(&self, f: &mut fmt::Formatter<W>) -> fmt::Result {
        f.write_str(match self {
            Stop::Ended => "ended",
            Stop::Spent => "spent",
            Stop::Full => "full",
        })
    }
}
