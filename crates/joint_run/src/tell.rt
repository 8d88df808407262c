// Printing what was done.
use crate::play::{Outside, Told};
use crate::task::name;
use compare::Logs;
use std::fmt;
use tape::{Entry, Kind};

// An entry in words; one that fell outside its array says so.
#[derive(Clone, Copy)]
struct Line(Entry);

impl fmt::Display for Line {
    fn fmt<W: fmt::Write>(&self, f: &mut fmt::Formatter<W>) -> fmt::Result {
        let entry = self.0;
        let record = entry.record;
        let index = entry.index;
        let value = entry.value;
        let name = name(entry.variable);
        let outside = if entry.mark == 0 { "" } else { "outside, " };
        match entry.known_kind() {
            Some(Kind::Instruction) => write!(f, "instruction {record}"),
            Some(Kind::Read) => write!(f, "read {name}: {value}"),
            Some(Kind::Fetch) => write!(f, "fetch {name} [{index}]: {outside}{value}"),
            Some(Kind::Write) => write!(f, "write {name}: {value}"),
            Some(Kind::Store) => write!(f, "store {name} [{index}]: {outside}{value}"),
            Some(Kind::Name) => write!(f, "name {name}"),
            Some(Kind::Release) => write!(f, "release {name}: {value}"),
            Some(Kind::End) => write!(f, "end"),
            None => write!(f, "unknown"),
        }
    }
}

fn is_release(entry: &Entry) -> bool {
    matches!(entry.known_kind(), Some(Kind::Release))
}

// A log in readable lines, and the values released in it.
fn print_log(rt: &impl Print, who: &str, log: &[Entry]) -> anyhow::Result<()> {
    let count = log.len();
    println!(rt; "The log of the {who}, {count} entries:")?;
    for entry in log {
        let line = Line(*entry);
        println!(rt; "  {line}")?;
    }
    println!(rt; "Released to the {who}:")?;
    for entry in log.iter().filter(|entry| is_release(entry)) {
        let line = Line(*entry);
        println!(rt; "  {line}")?;
    }
    Ok(())
}

// What stands in a log in the place of an entry of the tape.
fn print_kept(rt: &impl Print, who: &str, kept: Option<Entry>) -> anyhow::Result<()> {
    match kept {
        Some(entry) => {
            let line = Line(entry);
            println!(rt; "  the log of the {who} has in its place: {line}")?;
        }
        None => println!(rt; "  the log of the {who} has nothing in its place")?,
    }
    Ok(())
}

// What the host's tape marks, and why nobody else sees it.
fn print_outside(rt: &impl Print, outside: &[Outside]) -> anyhow::Result<()> {
    println!(rt;
        "One of its frames names a drive that the maker does not have, and the host's tape marks:"
    )?;
    for place in outside {
        let line = Line(place.entry);
        println!(rt; "  {line}")?;
        print_kept(rt, "maker", place.maker)?;
        print_kept(rt, "plant", place.plant)?;
    }
    println!(rt;
        "The table is labelled O: of what happens in it a log tells the name alone, and not the index, the value or the mark."
    )?;
    Ok(())
}

// How two logs stand to each other.
#[derive(Clone, Copy, Debug, PartialEq, Eq)]
enum Comparison {
    Equal,
    // The one ends where the other goes on.
    Beginning { shorter: usize, longer: usize },
    // The first place where two entries are not the same.
    Differ(usize),
}

fn compare_logs(first: &[Entry], second: &[Entry]) -> Comparison {
    let (one, other) = (first.len(), second.len());
    match first.iter().zip(second).position(|(a, b)| *a != *b) {
        Some(place) => Comparison::Differ(place),
        None if one == other => Comparison::Equal,
        None => Comparison::Beginning {
            shorter: one.min(other),
            longer: one.max(other),
        },
    }
}

// Where two logs of the maker part, if they do.
fn print_comparison(rt: &impl Print, what: &str, logs: &Logs) -> anyhow::Result<()> {
    let (first, second) = (logs.first.as_slice(), logs.second.as_slice());
    match compare_logs(first, second) {
        Comparison::Equal => {
            let (a, b) = (first.len(), second.len());
            println!(rt; "With {what} the logs of the maker, {a} and {b} entries, do not differ.")?;
        }
        Comparison::Beginning { shorter, longer } => {
            println!(rt;
                "With {what} the maker's log of {shorter} entries is a beginning of that of {longer}."
            )?;
        }
        Comparison::Differ(i) => {
            println!(rt; "With {what} the logs of the maker first differ at entry {i}:")?;
            for entry in first.get(i).into_iter().chain(second.get(i)) {
                let line = Line(*entry);
                println!(rt; "  {line}")?;
            }
        }
    }
    Ok(())
}

impl Told {
    /// Prints it all; an error is one of writing.
    pub fn print(&self, rt: &impl Print) -> anyhow::Result<()> {
        let bytes = self.bytes;
        let variables = self.variables;
        let records = self.records;
        println!(rt; "A sheet of {bytes} bytes: accepted {variables} {records}")?;
        let mut steps = 0u64;
        for piece in &self.pieces {
            let (taken, entries, stop) = (piece.steps, piece.entries, piece.stop);
            steps = steps.saturating_add(taken);
            println!(rt; "ran {taken} steps, {entries} entries: {stop}")?;
        }
        println!(rt; "{steps} steps in all, over a share bank")?;
        print_log(rt, "maker", &self.maker)?;
        print_log(rt, "plant", &self.plant)?;
        print_comparison(rt, "another recording", &self.other)?;
        print_comparison(rt, "a third recording", &self.third)?;
        print_outside(rt, &self.outside)
    }
}

#[cfg(test)]
mod tests {
    use super::*;
    use crate::task::SLACKS;
    use std::test::Fail;
    use tape::BLANK;

    #[test]
    fn tells_what_fell_outside(rt: HostRuntime) -> Result<(), Fail> {
        let lines = [
            (3, 0, "fetch slacks [7]: 5"),
            (3, 1, "fetch slacks [7]: outside, 5"),
            (5, 0, "store slacks [7]: 5"),
            (5, 1, "store slacks [7]: outside, 5"),
        ];
        for (kind, mark, wanted) in lines {
            let line = Line(Entry {
                kind,
                variable: SLACKS,
                mark,
                index: 7,
                value: 5,
                ..BLANK
            });
            let told = format!(in rt.alloc(); "{line}")?;
            assert_eq!(rt; told.as_str(), wanted);
        }
        Ok(())
    }

    #[test]
    fn compares_logs(rt: HostRuntime) {
        let mut end = BLANK;
        end.kind = 8;
        let log = [BLANK, BLANK, end];
        let beginning = Comparison::Beginning {
            shorter: 2,
            longer: 3,
        };
        assert_eq!(rt; compare_logs(&log, &log), Comparison::Equal);
        assert_eq!(rt; compare_logs(&log, &log[..2]), beginning);
        assert_eq!(rt; compare_logs(&log[..2], &log), beginning);
        assert_eq!(rt; compare_logs(&log, &[BLANK, end]), Comparison::Differ(1));
    }
}
