// The stack of records that a run has yet to take.
use arrayvec::ArrayVec;

#[derive(Drop)]
pub(crate) struct Stack {
    entries: ArrayVec<u16, 512>,
}

mod moves;
