// Lines as commands: a name, and fields of its own behind it. Each command has fields of its own, so each is read by itself.
ghost use Rattle.std.specs.Prelude.{◌≡◌, [], ◌∷◌, codes};
ghost use Rattle.std.specs.Option.{option_map};
ghost use Rattle.script.specs.Commands.{asked, long, called, call_of, order_of, share_of, bank_of, sheet_of, asks, entry_limits, entry_of};
ghost use Rattle.tape.specs.Written.{told};
ghost use Rattle.script.specs.Fields.{words_of, fields, numbers};
ghost use Rattle.script.specs.Written.{ReadBack, EntryBack};

use crate::fields::{BYTE, LONG, SHORT, WORD, cut, field, numbers};
use tape::Entry;

const MOST_ENTRIES: u64 = 100_000;

const MOST_PICKED: u64 = 10_000;

/// What a line asks for: a name, and behind it its fields.
#[derive(Drop)]
pub enum Command<'a> {
    /// The order of two parties.
    OrderTwo,
    /// The order of a set of parties.
    OrderSet(u64),
    /// A sheet in hexadecimal digits.
    Sheet(&'a str),
    /// The words of a flat bank.
    Flat(Option<&'a str>),
    /// The pad and the words of a share bank.
    Share(u32, Option<&'a str>),
    Open,
    Enter {
        party: u8,
        variable: u8,
        index: u32,
        value: u32,
    },
    Start,
    Run {
        steps: u64,
        tape: usize,
    },
    Look {
        party: u8,
        variable: u8,
        index: u32,
    },
    Log(u8),
    /// Entries follow, so many of them.
    Pick {
        party: u8,
        buffer: usize,
        count: usize,
    },
}

// A command of no fields.
#[tactic(auto, using(crate::proofs::Names::left_over), unfolding(crate::specs::Fields::numbers))]
fn alone<'a>(rest: Option<&str>, command: Command<'a>) -> Option<Command<'a>>
    ensures { option_map asked result ≡ option_map (λ _. asked command.entry) (numbers [] (fields rest.entry)) }
{
    match rest {
        None => Some(command),
        Some(_) => None,
    }
}

fn order_set(rest: Option<&str>) -> Option<Command<'_>>
    ensures { option_map asked result ≡ called (codes "order set") (long ∷ []) (fields rest.entry) }
{
    let [parties] = numbers(rest, [LONG])?;
    Some(Command::OrderSet(parties))
}

#[tactic(auto, using(crate::proofs::Names::named))]
fn order(rest: Option<&str>) -> Option<Command<'_>>
    ensures { option_map asked result ≡ order_of (fields rest.entry) }
{
    let (kind, rest) = cut(rest?);
    match kind {
        "two" => alone(rest, Command::OrderTwo),
        "set" => order_set(rest),
        _ => None,
    }
}

fn share(rest: Option<&str>) -> Option<Command<'_>>
    ensures { option_map asked result ≡ share_of (fields rest.entry) }
{
    let (pad, words) = cut(rest?);
    let pad = field(pad, WORD)?;
    Some(Command::Share(pad as u32, words))
}

fn bank(rest: Option<&str>) -> Option<Command<'_>>
    ensures { option_map asked result ≡ bank_of (fields rest.entry) }
{
    let (kind, rest) = cut(rest?);
    match kind {
        "flat" => Some(Command::Flat(rest)),
        "share" => share(rest),
        _ => None,
    }
}

#[tactic(auto, using(crate::proofs::Names::sheet_text))]
fn sheet(rest: Option<&str>) -> Option<Command<'_>>
    ensures { option_map asked result ≡ sheet_of (fields rest.entry) }
{
    Some(Command::Sheet(rest?))
}

fn enter(rest: Option<&str>) -> Option<Command<'_>>
    ensures { option_map asked result ≡ call_of (codes "enter") (fields rest.entry) }
{
    let [party, variable, index, value] = numbers(rest, [BYTE, BYTE, WORD, WORD])?;
    Some(Command::Enter {
        party: party as u8,
        variable: variable as u8,
        index: index as u32,
        value: value as u32,
    })
}

fn look(rest: Option<&str>) -> Option<Command<'_>>
    ensures { option_map asked result ≡ call_of (codes "look") (fields rest.entry) }
{
    let [party, variable, index] = numbers(rest, [BYTE, BYTE, WORD])?;
    Some(Command::Look {
        party: party as u8,
        variable: variable as u8,
        index: index as u32,
    })
}

fn run(rest: Option<&str>) -> Option<Command<'_>>
    ensures { option_map asked result ≡ call_of (codes "run") (fields rest.entry) }
{
    let [steps, tape] = numbers(rest, [LONG, MOST_ENTRIES])?;
    Some(Command::Run {
        steps,
        tape: tape as usize,
    })
}

fn log(rest: Option<&str>) -> Option<Command<'_>>
    ensures { option_map asked result ≡ call_of (codes "log") (fields rest.entry) }
{
    let [party] = numbers(rest, [BYTE])?;
    Some(Command::Log(party as u8))
}

fn pick(rest: Option<&str>) -> Option<Command<'_>>
    ensures { option_map asked result ≡ call_of (codes "pick") (fields rest.entry) }
{
    let [party, buffer, count] = numbers(rest, [BYTE, MOST_ENTRIES, MOST_PICKED])?;
    Some(Command::Pick {
        party: party as u8,
        buffer: buffer as usize,
        count: count as usize,
    })
}

// The command of a name and what stands behind it. The names are a closed set, and a match reads like their list.
#[tactic(auto, using(crate::proofs::Names::named))]
fn read_command<'a>(name: &str, rest: Option<&'a str>) -> Option<Command<'a>>
    ensures { option_map asked result ≡ asks (name.now ∷ fields rest.entry) }
{
    match name {
        "order" => order(rest),
        "sheet" => sheet(rest),
        "bank" => bank(rest),
        "open" => alone(rest, Command::Open),
        "enter" => enter(rest),
        "start" => alone(rest, Command::Start),
        "run" => run(rest),
        "look" => look(rest),
        "log" => log(rest),
        "pick" => pick(rest),
        _ => None,
    }
}

/// The command of a line; none where it cannot be read. A command that is written out is read as itself.
pub fn parse_line(line: &str) -> Option<Command<'_>>
    ensures value { option_map asked result ≡ asks (words_of line.now) }
    ensures back { ReadBack line.now (option_map asked result) }
{
    let (name, rest) = cut(line);
    read_command(name, rest)
}

fn entry(rest: Option<&str>) -> Option<Entry>
    ensures { option_map told result ≡ numbers entry_limits (fields rest.entry) }
{
    let [kind, label, record, variable, index, value, mark] = numbers(
        rest,
        [BYTE, BYTE, SHORT, BYTE, WORD, WORD, BYTE],
    )?;
    Some(Entry {
        kind: kind as u8,
        label: label as u8,
        record: record as u16,
        variable: variable as u8,
        mark: mark as u8,
        index: index as u32,
        value: value as u32,
    })
}

/// The entry of a line `entry KIND LABEL RECORD VARIABLE INDEX VALUE MARK`. An entry that is printed is read as itself.
pub fn parse_entry(line: &str) -> Option<Entry>
    ensures value { option_map told result ≡ entry_of (words_of line.now) }
    ensures back { EntryBack line.now result }
{
    let (name, rest) = cut(line);
    match name {
        "entry" => entry(rest),
        _ => None,
    }
}
