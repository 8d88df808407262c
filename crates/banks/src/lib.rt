// Banks: rows of 32-bit cells behind one interface.
#![tactic(auto)]

mod flat;
mod share;

ghost use Rattle.std.specs.Prelude.{◌≡◌, ℕ, List, length, slice_index, slice_set};

pub use flat::FlatBank;
pub use share::ShareBank;

// A bank means a row of cells, fixed in number.
pub trait Bank {
    ghost cells: { Self → List ℕ };

    // The number of cells.
    fn size(&self) -> usize
        ensures { result ≡ length (cells self.now) };

    // Cell i, or 0 beyond the row.
    fn get(&mut self, i: usize) -> u32
        ensures value { result ≡ slice_index (cells self.old) i }
        ensures kept { cells self.new ≡ cells self.old };

    // Sets cell i; beyond the row it leaves all.
    fn put(&mut self, i: usize, value: u32)
        ensures { cells self.new ≡ slice_set (cells self.old) i value };
}
