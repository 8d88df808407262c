// How large an accepted sheet is.
#[derive(Clone, Copy)]
pub struct Sizes {
    pub variables: usize,
    pub records: usize,
}
