// What a script works on: an order, an accepted program, a bank, a session with its tape.
ghost use Rattle.std.specs.Prelude.{◌≡◌, ◌≤◌, true, is_ok, vec_len};

use crate::fault::Fault;
use banks::{Bank, FlatBank, ShareBank};
use checker::Program;
use choice::{AnyBank, AnyOrder};
use hex_text::decode;
use labels::{LabelOrder, PartySet, TwoParty};
use script::{Command, parse_entry, parse_line, words};
use session::Session;
use std::alloc::Global;
use std::io;
use std::io::Write;
use tape::{BLANK, Entry, Kind, pick};
use verdict::read_and_accept;

// A pick that waits for its entries.
#[derive(Clone, Copy)]
struct Waiting {
    party: u8,
    buffer: usize,
    count: usize,
}

#[derive(Drop)]
pub struct Desk<W> {
    heap: Global,
    out: W,
    // The number of the line that is played.
    line: u64,
    order: Option<AnyOrder>,
    program: Option<Program<AnyOrder>>,
    bank: Option<AnyBank>,
    session: Option<Session<AnyOrder, AnyBank>>,
    // All that the session's runs wrote.
    tape: Vec<Entry>,
    // What runs and picks write over.
    room: Vec<Entry>,
    waiting: Option<Waiting>,
    // The entries that a pick has got so far.
    given: Vec<Entry>,
}

fn is_closed(log: &[Entry]) -> bool {
    log.iter()
        .any(|entry| matches!(entry.known_kind(), Some(Kind::End)))
}

// Makes the buffer at least so long.
fn widen(room: &mut Vec<Entry>, length: usize) -> Result<(), Fault>
    ensures { is_ok result ≡ true → length ≤ vec_len room.new }
{
    if room.len() < length {
        room.resize(length, BLANK)?;
    }
    Ok(())
}

// What was written over the front of the buffer. No call writes more than there is room for, so the clip cuts nothing;
// it spares the callers to prove that.
fn front(room: &[Entry], count: usize) -> &[Entry] {
    &room[..count.min(room.len())]
}

// Prints entries, a line each.
fn print_entries<W: Write>(out: &mut W, entries: &[Entry]) -> io::Result<()> {
    for entry in entries {
        writeln!(out, "{entry}")?;
    }
    Ok(())
}

impl<W: Write> Desk<W> {
    pub fn new(heap: Global, out: W) -> Desk<W> {
        Desk {
            heap,
            out,
            line: 0,
            order: None,
            program: None,
            bank: None,
            session: None,
            tape: Vec::new(heap),
            room: Vec::new(heap),
            waiting: None,
            given: Vec::new(heap),
        }
    }

    // Plays one line. A line that cannot be read, or that is refused, is answered and ends nothing.
    pub fn play(&mut self, line: &[u8]) -> io::Result<()> {
        self.line = self.line.saturating_add(1);
        match self.answer(line) {
            Ok(()) => Ok(()),
            Err(Fault::Io(e)) => Err(e),
            Err(fault) => writeln!(self.out, "{fault}"),
        }
    }

    pub fn flush(&mut self) -> io::Result<()> {
        self.out.flush()
    }

    fn answer(&mut self, line: &[u8]) -> Result<(), Fault> {
        let text = std::str::from_utf8(line).map_err(|_| Fault::Unreadable(self.line))?;
        if text.is_empty() || text.starts_with('#') {
            return Ok(());
        }
        if let Some(waiting) = self.waiting {
            return self.take_entry(text, waiting);
        }
        let command = parse_line(text).ok_or(Fault::Unreadable(self.line))?;
        self.perform(command)
    }

    // The commands are a closed set, and the match is checked to have them all.
    fn perform(&mut self, command: Command) -> Result<(), Fault> {
        match command {
            Command::OrderTwo => self.set_order(AnyOrder::Two(TwoParty)),
            Command::OrderSet(parties) => {
                let order = PartySet::new(parties as usize)?;
                self.set_order(AnyOrder::Set(order))
            }
            Command::Sheet(digits) => self.sheet(digits),
            Command::Flat(text) => self.flat(text),
            Command::Share(pad, text) => self.share(pad, text),
            Command::Open => self.open(),
            Command::Enter {
                party,
                variable,
                index,
                value,
            } => self.enter(party, variable, index, value),
            Command::Start => self.start(),
            Command::Run { steps, tape } => self.run(steps, tape),
            Command::Look {
                party,
                variable,
                index,
            } => self.look(party, variable, index),
            Command::Log(party) => self.log(party),
            Command::Pick {
                party,
                buffer,
                count,
            } => self.wait_for_entries(Waiting {
                party,
                buffer,
                count,
            }),
        }
    }

    fn order(&self) -> Result<AnyOrder, Fault> {
        self.order.ok_or(Fault::NoOrder)
    }

    fn set_order(&mut self, order: AnyOrder) -> Result<(), Fault> {
        let parties = order.parties();
        self.order = Some(order);
        self.program = None;
        self.session = None;
        self.tape.clear();
        writeln!(self.out, "order {parties}")?;
        Ok(())
    }

    fn sheet(&mut self, digits: &str) -> Result<(), Fault> {
        let order = self.order()?;
        let text = if digits == "-" { "" } else { digits };
        let bytes = decode(self.heap, text.as_bytes())?.ok_or(Fault::Unreadable(self.line))?;
        let mut program = Program::new(order);
        let sizes = read_and_accept(bytes.as_slice(), &order, &mut program)?;
        self.program = Some(program);
        writeln!(self.out, "{sizes}")?;
        Ok(())
    }

    // The words of a bank.
    fn words(&self, text: Option<&str>) -> Result<Vec<u32>, Fault> {
        words(self.heap, text)?.ok_or(Fault::Unreadable(self.line))
    }

    fn flat(&mut self, text: Option<&str>) -> Result<(), Fault> {
        let words = self.words(text)?;
        self.set_bank(AnyBank::Flat(FlatBank::new(words)))
    }

    fn share(&mut self, pad: u32, text: Option<&str>) -> Result<(), Fault> {
        let words = self.words(text)?;
        self.set_bank(AnyBank::Share(ShareBank::new(words, pad)))
    }

    fn set_bank(&mut self, bank: AnyBank) -> Result<(), Fault> {
        let cells = bank.size();
        self.bank = Some(bank);
        writeln!(self.out, "bank {cells}")?;
        Ok(())
    }

    // Neither the program nor the bank is taken unless both are there.
    fn open(&mut self) -> Result<(), Fault> {
        if self.program.is_none() || self.bank.is_none() {
            return Err(Fault::NothingToOpen);
        }
        let program = self.program.take().ok_or(Fault::NothingToOpen)?;
        let bank = self.bank.take().ok_or(Fault::NothingToOpen)?;
        self.session = Some(Session::open(program, bank));
        self.tape.clear();
        writeln!(self.out, "opened")?;
        Ok(())
    }

    fn session(&mut self) -> Result<&mut Session<AnyOrder, AnyBank>, Fault> {
        self.session.as_mut().ok_or(Fault::NoSession)
    }

    fn enter(&mut self, party: u8, variable: u8, index: u32, value: u32) -> Result<(), Fault> {
        self.session()?.enter(party, variable, index, value)?;
        writeln!(self.out, "entered")?;
        Ok(())
    }

    fn start(&mut self) -> Result<(), Fault> {
        self.session()?.start()?;
        writeln!(self.out, "started")?;
        Ok(())
    }

    fn run(&mut self, steps: u64, tape: usize) -> Result<(), Fault> {
        // Not `session()`, which would borrow the room and the output too.
        let session = self.session.as_mut().ok_or(Fault::NoSession)?;
        widen(&mut self.room, tape)?;
        let report = session.run(steps, &mut self.room[..tape])?;
        let (taken, count, stop) = (report.steps, report.entries, report.stop);
        writeln!(self.out, "ran {taken} {count} {stop}")?;
        let written = front(&self.room, count);
        print_entries(&mut self.out, written)?;
        self.tape.extend_from_slice(written)?;
        Ok(())
    }

    fn look(&mut self, party: u8, variable: u8, index: u32) -> Result<(), Fault> {
        let value = self.session()?.look(party, variable, index)?;
        writeln!(self.out, "value {value}")?;
        Ok(())
    }

    fn log(&mut self, party: u8) -> Result<(), Fault> {
        self.session()?;
        let order = self.order()?;
        widen(&mut self.room, self.tape.len())?;
        let count = pick(&order, party, &self.tape, &mut self.room)?;
        let log = front(&self.room, count);
        let state = if is_closed(log) { "closed" } else { "open" };
        writeln!(self.out, "log {count} {state}")?;
        print_entries(&mut self.out, log)?;
        Ok(())
    }

    // Waits for the entries of a pick, if there are any to come.
    fn wait_for_entries(&mut self, waiting: Waiting) -> Result<(), Fault> {
        self.given.clear();
        if waiting.count == 0 {
            return self.finish_pick(waiting);
        }
        self.waiting = Some(waiting);
        Ok(())
    }

    // One entry of a pick.
    fn take_entry(&mut self, text: &str, waiting: Waiting) -> Result<(), Fault> {
        let entry = parse_entry(text).ok_or(Fault::Unreadable(self.line))?;
        self.given.push(entry)?;
        if self.given.len() < waiting.count {
            return Ok(());
        }
        self.waiting = None;
        self.finish_pick(waiting)
    }

    // A pick that has its entries.
    fn finish_pick(&mut self, waiting: Waiting) -> Result<(), Fault> {
        let order = self.order()?;
        let buffer = waiting.buffer;
        widen(&mut self.room, buffer)?;
        let count = pick(&order, waiting.party, &self.given, &mut self.room[..buffer])?;
        writeln!(self.out, "picked {count}")?;
        print_entries(&mut self.out, front(&self.room, count))?;
        Ok(())
    }
}

#[cfg(test)]
mod tests {
    use super::*;
    use std::test::Fail;

    // What is answered before the first order; the stored script begins with one.
    #[test]
    fn no_order(rt: HostRuntime) -> Result<(), Fail> {
        let mut desk = Desk::new(rt.alloc(), Vec::new(rt.alloc()));
        for line in ["sheet -", "pick 0 0 0", "open", "log 0"] {
            desk.play(line.as_bytes())?;
        }
        let told = std::str::from_utf8(desk.out.as_slice())?;
        assert_eq!(rt; told, "no order\nno order\nnothing to open\nno session\n");
        Ok(())
    }
}
