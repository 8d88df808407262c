// A bank of one word a cell.
ghost use Rattle.std.specs.Prelude.{◌≡◌};

use crate::Bank;

#[derive(Drop)]
pub struct FlatBank {
    words: Vec<u32>,
}

impl FlatBank {
    // The bank over the host's words.
    pub fn new(words: Vec<u32>) -> FlatBank
        ensures { result.words.items ≡ words.items }
    {
        Self { words }
    }

    // Gives the words back.
    pub fn into_words(self) -> Vec<u32>
        ensures { result.items ≡ self.words.items }
    {
        let FlatBank { words } = self;
        words
    }
}

impl Bank for FlatBank {
    ghost cells = { λ b. b.words.items };

    fn size(&self) -> usize {
        self.words.len()
    }

    fn get(&mut self, i: usize) -> u32 {
        self.words.get(i).copied().unwrap_or(0)
    }

    #[tactic(auto, using(std::proofs::lemmas::List::set_past))]
    fn put(&mut self, i: usize, value: u32) {
        if let Some(word) = self.words.get_mut(i) {
            *word = value;
        }
    }
}
