// What crosses to C: rows of plain numbers.

// A call of a session. The number of the call tells which fields count: C knows no enum with fields.
#[repr(C)]
#[derive(Clone, Copy)]
pub struct CallRow {
    // 0 enter, 1 start, 2 run, 3 look.
    pub call: u8,
    pub party: u8,
    pub variable: u8,
    pub index: u32,
    pub value: u32,
    pub steps: u64,
}

// What a call answers.
#[repr(C)]
#[derive(Clone, Copy, Default)]
pub struct AnswerRow {
    // 0 where nothing was refused; a number, since it crosses to C.
    pub layer: u8,
    pub number: u8,
    // Of a run: 1 ended, 2 spent, 3 full; a number, since it crosses to C.
    pub stop: u8,
    pub place: u64,
    // Variables, entries picked, the value looked up, or steps.
    pub first: u64,
    // Records, or entries written.
    pub second: u64,
}
