// What a run answers.
use model::Stop;

// The steps that were taken, the entries that were written, and why the run stopped.
#[derive(Clone, Copy)]
pub struct RunReport {
    pub steps: u64,
    pub entries: usize,
    pub stop: Stop,
}
