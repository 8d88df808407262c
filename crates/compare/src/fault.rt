// Why no logs were made.
use refusal::Refusal;

#[derive(Clone, Copy)]
pub enum CompareFault {
    // The program or the party was refused.
    Refused(Refusal),
    // There was not enough memory for a tape or a log.
    Memory,
}
