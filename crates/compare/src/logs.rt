// The logs of one party.
use tape::Entry;

// Of the first session and of the second.
#[derive(Drop)]
pub struct Logs {
    pub first: Vec<Entry>,
    pub second: Vec<Entry>,
}
