// The calls of a session.
#[derive(Clone, Copy)]
pub enum Call {
    Enter {
        party: u8,
        variable: u8,
        index: u32,
        value: u32,
    },
    Start,
    // The tape of this run has room for so many entries.
    Run {
        steps: u64,
        room: usize,
    },
    Look {
        party: u8,
        variable: u8,
        index: u32,
    },
}
