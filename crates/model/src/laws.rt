// Laws of the machine, in other words than its definitions. Each function carries one: its contract is the theorem, and what it
// answers means nothing.
ghost use Rattle.std.specs.Prelude.{◌≤◌, length};
ghost use Rattle.labels.specs.Labels.{Labels, Lawful};
ghost use Rattle.model.specs.Program.{Program};
ghost use Rattle.model.specs.Rules.{Accepted};
ghost use Rattle.model.specs.Machine.{Config, written};
ghost use Rattle.model.specs.Runs.{RunsAreOne};
ghost use Rattle.model.specs.Tapes.{WellFormedTapes, MarksTell, EndCloses};
ghost use Rattle.model.specs.Heights.{LowStack};
ghost use Rattle.model.specs.Copies.{OramCopies};

/// All runs of a session are one run, from the accepted start on.
pub fn runs_are_one() -> u8
    ensures { (L : Labels) → (p : Program) → RunsAreOne L p }
{
    0
}

/// A step writes at most six entries.
pub fn steps_write_six() -> u8
    ensures { (L : Labels) → (p : Program) → (c : Config) → length (written L p c) ≤ 6 }
{
    0
}

/// Each entry that a session of an accepted program writes is of a known kind, with a known label, 0 in the fields that its
/// kind does not use, and a mark of 0 or 1.
pub fn tapes_are_well_formed() -> u8
    ensures { (L : Labels) → Lawful L → (p : Program) → Accepted L p → WellFormedTapes L p }
{
    0
}

/// The mark of an entry that a session of an accepted program writes is 0 or 1, and 1 just when the entry is of a fetch or a
/// store whose index is not below the length of its array; a marked fetch found 0. The same holds of each party's log. And a
/// step that writes a marked store changes no number and no cell.
pub fn marks_tell_outside() -> u8
    ensures { (L : Labels) → (p : Program) → Accepted L p → MarksTell L p }
{
    0
}

/// A party's log is closed just when the program has ended.
pub fn end_closes_logs() -> u8
    ensures { (L : Labels) → Lawful L → (p : Program) → Accepted L p → EndCloses L p }
{
    0
}

/// The stack of a session of an accepted program never holds more than 16 records.
pub fn stack_stays_low() -> u8
    ensures { (L : Labels) → (p : Program) → Accepted L p → 1 ≤ length p.records → LowStack L p }
{
    0
}

/// Oram copies every cell of its array, and changes nothing else.
pub fn oram_copies() -> u8
    ensures { (p : Program) → OramCopies p }
{
    0
}
