// The task: a maker's margins against a plant's recording.
use sheet::{Form, Kind, Op, Record, Variable};

// Labels of the two-party order: the maker is Alice, party 0; the plant is Bob, party 1.
const PUBLIC: u8 = 0;

const MAKER_LABEL: u8 = 1;

const PLANT_LABEL: u8 = 2;

const SECRET: u8 = 3;

// Variables.
pub const MARGINS: u8 = 0;

pub const DRIVES: u8 = 1;

pub const SLACKS: u8 = 2;

const TABLE: u8 = 3;

const ZERO: u8 = 4;

const ONE: u8 = 5;

const FRAMES: u8 = 6;

const I: u8 = 7;

const MORE: u8 = 8;

const DRIVE: u8 = 9;

const SLACK: u8 = 10;

const MARGIN: u8 = 11;

const BELOW: u8 = 12;

const COUNT: u8 = 13;

const DEFICIT: u8 = 14;

const WORST_DEFICIT: u8 = 15;

const WORSE: u8 = 16;

const WORST: u8 = 17;

const TOTAL: u8 = 18;

const WORST_FRAME: u8 = 19;

// How many drives the maker has margins for, and how many frames the plant recorded.
pub const DRIVE_COUNT: usize = 4;

pub const FRAME_COUNT: usize = 3;

// The cells of all arrays: margins and table, drives and slacks.
pub const CELL_COUNT: usize = 2 * DRIVE_COUNT + 2 * FRAME_COUNT;

fn number(label: u8) -> Variable {
    Variable {
        label,
        kind: Kind::Number,
    }
}

fn array(label: u8, cells: u16) -> Variable {
    Variable {
        label,
        kind: Kind::Array(cells),
    }
}

// The variables, in the order of their numbers.
pub fn variables() -> [Variable; 20] {
    [
        array(MAKER_LABEL, DRIVE_COUNT as u16),
        array(PLANT_LABEL, FRAME_COUNT as u16),
        array(PLANT_LABEL, FRAME_COUNT as u16),
        array(SECRET, DRIVE_COUNT as u16),
        number(PUBLIC),
        number(PUBLIC),
        number(PUBLIC),
        number(PUBLIC),
        number(PUBLIC),
        number(PLANT_LABEL),
        number(PLANT_LABEL),
        number(SECRET),
        number(SECRET),
        number(SECRET),
        number(SECRET),
        number(SECRET),
        number(SECRET),
        number(SECRET),
        number(PUBLIC),
        number(PLANT_LABEL),
    ]
}

// The margins go through oram into a secret table. A public loop scans the frames; the margin of each is looked up by a
// secret index, frames below their margin are counted, and the frame that is furthest below is kept. At the end the
// count is released to both, and the worst frame to the plant alone.
pub const RECORDS: [Record; 19] = [
    Record {
        label: PUBLIC,
        next: 2,
        form: Form::Constant { x: ONE, value: 1 },
    },
    Record {
        label: PUBLIC,
        next: 3,
        form: Form::Constant {
            x: FRAMES,
            value: FRAME_COUNT as u32,
        },
    },
    Record {
        label: SECRET,
        next: 4,
        form: Form::Oram {
            x: TABLE,
            a: MARGINS,
        },
    },
    Record {
        label: PUBLIC,
        next: 5,
        form: Form::Binary {
            x: MORE,
            a: I,
            b: FRAMES,
            op: Op::Less,
        },
    },
    Record {
        label: PUBLIC,
        next: 18,
        form: Form::While { a: MORE, body: 6 },
    },
    Record {
        label: PLANT_LABEL,
        next: 7,
        form: Form::Fetch {
            x: DRIVE,
            a: DRIVES,
            b: I,
        },
    },
    Record {
        label: PLANT_LABEL,
        next: 8,
        form: Form::Fetch {
            x: SLACK,
            a: SLACKS,
            b: I,
        },
    },
    Record {
        label: SECRET,
        next: 9,
        form: Form::Fetch {
            x: MARGIN,
            a: TABLE,
            b: DRIVE,
        },
    },
    Record {
        label: SECRET,
        next: 10,
        form: Form::Binary {
            x: BELOW,
            a: SLACK,
            b: MARGIN,
            op: Op::Less,
        },
    },
    Record {
        label: SECRET,
        next: 11,
        form: Form::Binary {
            x: COUNT,
            a: COUNT,
            b: BELOW,
            op: Op::Sum,
        },
    },
    Record {
        label: SECRET,
        next: 12,
        form: Form::Binary {
            x: DEFICIT,
            a: MARGIN,
            b: SLACK,
            op: Op::Difference,
        },
    },
    Record {
        label: SECRET,
        next: 13,
        form: Form::Mux {
            x: DEFICIT,
            a: BELOW,
            b: ZERO,
            c: DEFICIT,
        },
    },
    Record {
        label: SECRET,
        next: 14,
        form: Form::Binary {
            x: WORSE,
            a: WORST_DEFICIT,
            b: DEFICIT,
            op: Op::Less,
        },
    },
    Record {
        label: SECRET,
        next: 15,
        form: Form::Mux {
            x: WORST_DEFICIT,
            a: WORSE,
            b: WORST_DEFICIT,
            c: DEFICIT,
        },
    },
    Record {
        label: SECRET,
        next: 16,
        form: Form::Mux {
            x: WORST,
            a: WORSE,
            b: WORST,
            c: I,
        },
    },
    Record {
        label: PUBLIC,
        next: 17,
        form: Form::Binary {
            x: I,
            a: I,
            b: ONE,
            op: Op::Sum,
        },
    },
    Record {
        label: PUBLIC,
        next: 0,
        form: Form::Binary {
            x: MORE,
            a: I,
            b: FRAMES,
            op: Op::Less,
        },
    },
    Record {
        label: SECRET,
        next: 19,
        form: Form::Declass { x: TOTAL, a: COUNT },
    },
    Record {
        label: SECRET,
        next: 0,
        form: Form::Declass {
            x: WORST_FRAME,
            a: WORST,
        },
    },
];

// The name of a variable, which a sheet knows by its number alone.
pub fn name(variable: u8) -> &'static str {
    match variable {
        MARGINS => "margins",
        DRIVES => "drives",
        SLACKS => "slacks",
        TABLE => "table",
        ZERO => "zero",
        ONE => "one",
        FRAMES => "frames",
        I => "i",
        MORE => "more",
        DRIVE => "drive",
        SLACK => "slack",
        MARGIN => "margin",
        BELOW => "below",
        COUNT => "count",
        DEFICIT => "deficit",
        WORST_DEFICIT => "worst deficit",
        WORSE => "worse",
        WORST => "worst",
        TOTAL => "total",
        WORST_FRAME => "worst frame",
        _ => "?",
    }
}
