// One of the two banks, by a match in each method: the words and the pad are told of by the variant, which a `dyn` hides.
ghost use Rattle.std.specs.Prelude.{◌≡◌, slice_index, slice_set};
ghost use Rattle.choice.specs.Banks.{bank_cells, bank_words, bank_pad, words_after_put, next_pad};

use banks::{Bank, FlatBank, ShareBank};

#[derive(Drop)]
pub enum AnyBank {
    Flat(FlatBank),
    Share(ShareBank),
}

impl Bank for AnyBank {
    ghost cells = { bank_cells };

    fn size(&self) -> usize {
        match self {
            AnyBank::Flat(bank) => bank.size(),
            AnyBank::Share(bank) => bank.size(),
        }
    }

    fn get(&mut self, i: usize) -> u32
        ensures value { result ≡ slice_index (bank_cells self.old) i }
        ensures kept { bank_cells self.new ≡ bank_cells self.old }
        ensures words { bank_words self.new ≡ bank_words self.old }
        ensures pad { bank_pad self.new ≡ bank_pad self.old }
    {
        match self {
            AnyBank::Flat(bank) => bank.get(i),
            AnyBank::Share(bank) => bank.get(i),
        }
    }

    fn put(&mut self, i: usize, value: u32)
        ensures cells { bank_cells self.new ≡ slice_set (bank_cells self.old) i value }
        ensures words { bank_words self.new ≡ words_after_put self.old i value }
        ensures pad { bank_pad self.new ≡ next_pad self.old i }
    {
        match self {
            AnyBank::Flat(bank) => bank.put(i, value),
            AnyBank::Share(bank) => bank.put(i, value),
        }
    }
}
