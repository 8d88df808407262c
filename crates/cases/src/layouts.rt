// Tables laid out, and read back.
use sheet::{Form, Kind, Op, ReadSheet, Record, SheetFault, Variable, lay_out};

const NUMBER: Variable = Variable {
    label: 1,
    kind: Kind::Number,
};

const SUM: Record = Record {
    label: 3,
    next: 2,
    form: Form::Binary {
        x: 2,
        a: 0,
        b: 1,
        op: Op::Sum,
    },
};

const BRANCH: Record = Record {
    label: 0,
    next: 0,
    form: Form::If {
        a: 1,
        then: 258,
        other: 772,
    },
};

const WIDE: Variable = Variable {
    label: 3,
    kind: Kind::Array(4096),
};

fn array(cells: u16) -> Variable {
    Variable {
        label: 0,
        kind: Kind::Array(cells),
    }
}

// What laying out answers where it refuses.
fn fault(variables: &[Variable], records: &[Record], out: &mut [u8]) -> Option<SheetFault> {
    lay_out(variables, records, out).err()
}

// Does the sheet hold a number labelled 1 and an array of 4,096 cells labelled 3?
fn has_variables(sheet: &ReadSheet) -> bool {
    let number = matches!(
        sheet.variable(0),
        Some(Variable {
            label: 1,
            kind: Kind::Number
        })
    );
    let wide = matches!(
        sheet.variable(1),
        Some(Variable {
            label: 3,
            kind: Kind::Array(4096)
        })
    );
    sheet.variables() == 2 && number && wide && sheet.variable(2).is_none()
}

// Does it hold a sum and an if?
fn has_records(sheet: &ReadSheet) -> bool {
    let sum = matches!(
        sheet.record(1),
        Some(Record {
            label: 3,
            next: 2,
            form: Form::Binary {
                x: 2,
                a: 0,
                b: 1,
                op: Op::Sum
            }
        })
    );
    let branch = matches!(
        sheet.record(2),
        Some(Record {
            label: 0,
            next: 0,
            form: Form::If {
                a: 1,
                then: 258,
                other: 772
            }
        })
    );
    sheet.records() == 2 && sum && branch && sheet.record(0).is_none() && sheet.record(3).is_none()
}

fn holds(bytes: &[u8]) -> bool {
    let mut sheet = ReadSheet::smallest();
    sheet.read(bytes).is_ok() && has_variables(&sheet) && has_records(&sheet)
}

#[test]
fn reads_back_what_was_laid_out(rt: HostRuntime) {
    let mut out = [0xee; 40];
    assert!(rt; matches!(lay_out(&[NUMBER, WIDE], &[SUM, BRANCH], &mut out), Ok(36)));
    assert!(rt; out[36] == 0xee && out[39] == 0xee);
    assert!(rt; holds(&out[0..36]));
}

#[test]
fn a_refused_read_leaves_the_sheet(rt: HostRuntime) {
    let mut sheet = ReadSheet::smallest();
    let refused = sheet.read(&[1, 2, 3]).is_err();
    assert!(rt; refused && sheet.variables() == 1 && sheet.records() == 1);
}

#[test]
fn a_refusal_leaves_the_buffer(rt: HostRuntime) {
    let mut out = [0xee; 35];
    assert!(rt;
        matches!(
            fault(&[NUMBER, WIDE], &[SUM, BRANCH], &mut out),
            Some(SheetFault::Buffer(36))
        )
    );
    assert!(rt; out[0] == 0xee && out[34] == 0xee);
}

#[test]
fn tables_without_a_sheet(rt: HostRuntime) {
    let mut out = [0; 64];
    assert!(rt;
        matches!(
            fault(&[], &[SUM], &mut out),
            Some(SheetFault::VariableCount(1))
        )
    );
    assert!(rt;
        matches!(
            fault(&[NUMBER; 257], &[], &mut out),
            Some(SheetFault::VariableCount(1))
        )
    );
    assert!(rt;
        matches!(
            fault(&[NUMBER], &[], &mut out),
            Some(SheetFault::RecordCount(2))
        )
    );
    assert!(rt;
        matches!(
            fault(&[NUMBER], &[SUM; 513], &mut out),
            Some(SheetFault::RecordCount(2))
        )
    );
}

#[test]
fn arrays_without_a_sheet(rt: HostRuntime) {
    let mut out = [0; 64];
    assert!(rt;
        matches!(
            fault(&[NUMBER, array(0)], &[SUM], &mut out),
            Some(SheetFault::VariableLength(10))
        )
    );
    assert!(rt;
        matches!(
            fault(&[array(4097)], &[SUM], &mut out),
            Some(SheetFault::VariableLength(6))
        )
    );
    assert!(rt;
        matches!(
            fault(&[WIDE, WIDE, WIDE, WIDE, array(1)], &[SUM], &mut out),
            Some(SheetFault::TotalLength(22))
        )
    );
}
