// Playing the task from start to finish, and what there is to tell of it.
use crate::task::{
    CELL_COUNT, DRIVE_COUNT, DRIVES, FRAME_COUNT, MARGINS, RECORDS, SLACKS, variables,
};
use anyhow::anyhow;
use banks::{FlatBank, ShareBank};
use checker::{Program, accept};
use compare::{Call, Logs, compare};
use labels::TwoParty;
use model::Stop;
use session::{RunReport, Session};
use sheet::{ReadSheet, lay_out};
use std::alloc::Global;
use tape::{BLANK, Entry, pick, pick_entry};

// The parties.
const MAKER: u8 = 0;

const PLANT: u8 = 1;

// The words of a bank for the cells of the arrays: two a cell in a share bank, one in a flat one.
const SHARE_WORDS: usize = 2 * CELL_COUNT;

const FLAT_WORDS: usize = CELL_COUNT;

// The tape that a run is given, and the steps that it may take.
const TAPE: usize = 24;

const STEPS: u64 = 9;

// The runs in which the program has to end.
const PIECES: usize = 100;

// How much each drive stands.
const MARGIN_TABLE: [u32; DRIVE_COUNT] = [30, 45, 60, 25];

// A recording, frame by frame: the drive, and the slack that was measured.
#[derive(Clone, Copy)]
struct Recording {
    drives: [u32; FRAME_COUNT],
    slacks: [u32; FRAME_COUNT],
}

const FIRST: Recording = Recording {
    drives: [1, 3, 0],
    slacks: [40, 20, 35],
};

const OTHER: Recording = Recording {
    drives: [1, 3, 0],
    slacks: [50, 20, 35],
};

// Its second frame names a drive that the maker does not have.
const THIRD: Recording = Recording {
    drives: [2, DRIVE_COUNT as u32, 1],
    slacks: [59, 30, 10],
};

// A session that was played to its end: how its runs went, and what they wrote.
#[derive(Drop)]
struct Played {
    pieces: Vec<RunReport>,
    joined: Vec<Entry>,
}

/// An entry of the host's tape whose index fell outside, and what stands in its place in each log, if anything does.
#[derive(Clone, Copy)]
pub struct Outside {
    pub entry: Entry,
    pub maker: Option<Entry>,
    pub plant: Option<Entry>,
}

impl Outside {
    fn of(entry: &Entry) -> Self {
        Outside {
            entry: *entry,
            maker: pick_entry(&TwoParty, MAKER, *entry),
            plant: pick_entry(&TwoParty, PLANT, *entry),
        }
    }
}

/// What was done, and what there is to tell of it.
#[derive(Drop)]
pub struct Told {
    pub bytes: usize,
    pub variables: usize,
    pub records: usize,
    pub pieces: Vec<RunReport>,
    pub maker: Vec<Entry>,
    pub plant: Vec<Entry>,
    pub other: Logs,
    pub third: Logs,
    /// The marked entries of the host's tape with the third recording.
    pub outside: Vec<Outside>,
}

// Adds the calls that enter these values in an array.
fn enter_array(
    calls: &mut Vec<Call>,
    party: u8,
    variable: u8,
    values: &[u32],
) -> anyhow::Result<()> {
    for (index, value) in (0..).zip(values) {
        calls.push(Call::Enter {
            party,
            variable,
            index,
            value: *value,
        })?;
    }
    Ok(())
}

// The maker's side.
fn margins(heap: Global) -> anyhow::Result<Vec<Call>> {
    let mut calls = Vec::new(heap);
    enter_array(&mut calls, MAKER, MARGINS, &MARGIN_TABLE)?;
    Ok(calls)
}

// The plant's side.
fn frames(heap: Global, recording: &Recording) -> anyhow::Result<Vec<Call>> {
    let mut calls = Vec::new(heap);
    enter_array(&mut calls, PLANT, DRIVES, &recording.drives)?;
    enter_array(&mut calls, PLANT, SLACKS, &recording.slacks)?;
    Ok(calls)
}

// Enters what these calls enter.
fn enter_all(
    session: &mut Session<TwoParty, ShareBank>,
    calls: &[Call],
    refused: &str,
) -> anyhow::Result<()> {
    for call in calls {
        if let Call::Enter {
            party,
            variable,
            index,
            value,
        } = *call
        {
            session
                .enter(party, variable, index, value)
                .map_err(|_| anyhow!("{refused}"))?;
        }
    }
    Ok(())
}

// One run over a small tape; what it wrote goes to the joined tape.
fn run_piece(
    session: &mut Session<TwoParty, ShareBank>,
    joined: &mut Vec<Entry>,
) -> anyhow::Result<RunReport> {
    let mut tape = [BLANK; TAPE];
    let report = session
        .run(STEPS, &mut tape)
        .map_err(|_| anyhow!("a run was refused"))?;
    joined.extend(tape.iter().take(report.entries).copied())?;
    Ok(report)
}

// Runs piece by piece until the program has ended.
fn run_all(
    heap: Global,
    session: &mut Session<TwoParty, ShareBank>,
    joined: &mut Vec<Entry>,
) -> anyhow::Result<Vec<RunReport>> {
    let mut pieces = Vec::new(heap);
    for _ in 0..PIECES {
        let report = run_piece(session, joined)?;
        pieces.push(report)?;
        if report.stop == Stop::Ended {
            return Ok(pieces);
        }
    }
    Err(anyhow!("the program has not ended after {PIECES} runs"))
}

// A party's log of the joined tape.
fn log_of(heap: Global, party: u8, joined: &[Entry]) -> anyhow::Result<Vec<Entry>> {
    let mut log = vec![in heap; BLANK; joined.len()]?;
    let entries = pick(&TwoParty, party, joined, &mut log).map_err(|_| anyhow!(
        "the log was refused"
    ))?;
    log.truncate(entries);
    Ok(log)
}

// The calls of a whole session with a recording.
fn calls(heap: Global, recording: &Recording) -> anyhow::Result<Vec<Call>> {
    let mut calls = margins(heap)?;
    calls.extend_from_slice(&frames(heap, recording)?)?;
    calls.push(Call::Start)?;
    calls.push(Call::Run {
        steps: 1000,
        room: 1000,
    })?;
    Ok(calls)
}

// The maker's logs of two sessions: with the first recording over a share bank, and with another over a flat one.
fn compare_with(heap: Global, sheet: &ReadSheet, recording: &Recording) -> anyhow::Result<Logs> {
    let shares = ShareBank::new(vec![in heap; 0u32; SHARE_WORDS]?, 1);
    let cells = FlatBank::new(vec![in heap; 7u32; FLAT_WORDS]?);
    let ours = calls(heap, &FIRST)?;
    let theirs = calls(heap, recording)?;
    compare(sheet, &TwoParty, MAKER, shares, &ours, cells, &theirs, heap).map_err(|_| anyhow!(
        "the comparison was refused"
    ))
}

// A session with a recording, from the sheet to its end.
fn play_recording(
    heap: Global,
    sheet: &ReadSheet,
    recording: &Recording,
) -> anyhow::Result<Played> {
    let mut program = Program::new(TwoParty);
    accept(sheet, &TwoParty, &mut program).map_err(|_| anyhow!("the program was refused"))?;
    let bank = ShareBank::new(vec![in heap; 0u32; SHARE_WORDS]?, 1);
    let mut session = Session::open(program, bank);
    enter_all(&mut session, &margins(heap)?, "a margin was refused")?;
    enter_all(
        &mut session,
        &frames(heap, recording)?,
        "a frame was refused",
    )?;
    session
        .start()
        .map_err(|_| anyhow!("the start was refused"))?;
    let mut joined = Vec::new(heap);
    let pieces = run_all(heap, &mut session, &mut joined)?;
    Ok(Played { pieces, joined })
}

// The entries of a tape that are marked.
fn marked(heap: Global, joined: &[Entry]) -> anyhow::Result<Vec<Outside>> {
    let outside = joined.iter().filter(|entry| entry.mark != 0);
    Ok(outside.map(Outside::of).collect(heap)?)
}

// The session with the first recording, from the read sheet to both logs; then the comparisons, and what the host's tape
// marks with the third.
fn play_sheet(heap: Global, bytes: &[u8]) -> anyhow::Result<Told> {
    let mut sheet = ReadSheet::smallest();
    sheet
        .read(bytes)
        .map_err(|_| anyhow!("the sheet was refused"))?;
    let Played { pieces, joined } = play_recording(heap, &sheet, &FIRST)?;
    let maker = log_of(heap, MAKER, &joined)?;
    let plant = log_of(heap, PLANT, &joined)?;
    let other = compare_with(heap, &sheet, &OTHER)?;
    let third = compare_with(heap, &sheet, &THIRD)?;
    let outside = marked(heap, &play_recording(heap, &sheet, &THIRD)?.joined)?;
    Ok(Told {
        bytes: bytes.len(),
        variables: sheet.variables(),
        records: sheet.records(),
        pieces,
        maker,
        plant,
        other,
        third,
        outside,
    })
}

/// Lays out the sheet and plays the task; an error says which step failed.
pub fn play(heap: Global) -> anyhow::Result<Told> {
    let mut buffer = [0; 512];
    let length = lay_out(&variables(), &RECORDS, &mut buffer).map_err(|_| anyhow!(
        "the tables have no sheet"
    ))?;
    let bytes = buffer
        .get(..length)
        .ok_or_else(|| anyhow!("the sheet is too long"))?;
    play_sheet(heap, bytes)
}
