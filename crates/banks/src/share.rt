// A bank that keeps each cell as two words whose exclusive or is the cell.
ghost use Rattle.std.specs.Prelude.{◌≡◌, ◌+◌, ◌*◌, ◌/◌, ◌%◌, ◌^◌, ◌<◌, length, bit_xor, slice_index, slice_set};
ghost use Rattle.banks.specs.Shares.{joined_cells, split_put, pad_after_put};

use crate::Bank;

// The next pad is this one times the factor, plus the term, modulo 2^32.
const PAD_FACTOR: u32 = 1664525;

const PAD_TERM: u32 = 1013904223;

#[derive(Drop)]
pub struct ShareBank {
    words: Vec<u32>,
    pad: u32,
}

impl ShareBank {
    // The bank over the host's words, with its first pad.
    pub fn new(words: Vec<u32>, pad: u32) -> ShareBank
        ensures words { result.words.items ≡ words.items }
        ensures pad { result.pad ≡ pad }
    {
        Self { words, pad }
    }

    // The pad of the next put.
    pub fn pad(&self) -> u32
        ensures { result ≡ self.now.pad }
    {
        self.pad
    }

    // Gives the words back.
    pub fn into_words(self) -> Vec<u32>
        ensures { result.items ≡ self.words.items }
    {
        let ShareBank { words, .. } = self;
        words
    }

    // How many pairs of words there are.
    fn pairs(&self) -> usize
        ensures { result ≡ length self.now.words.items / 2 }
    {
        self.words.len() / 2
    }

    // The exclusive or of pair i.
    fn joined(&self, i: usize) -> u32
        requires { i < length self.now.words.items / 2 }
        ensures { result ≡ bit_xor (slice_index self.now.words.items (2 * i)) (slice_index self.now.words.items (2 * i + 1)) }
    {
        self.words[2 * i] ^ self.words[2 * i + 1]
    }

    // Splits a value over pair i: the pad on the left, value xor pad on the right. The pad goes on.
    fn split(&mut self, i: usize, value: u32)
        requires { i < length self.old.words.items / 2 }
        ensures words { self.new.words.items ≡ slice_set (slice_set self.old.words.items (2 * i) self.old.pad) (2 * i + 1) (bit_xor value self.old.pad) }
        ensures pad { self.new.pad ≡ (self.old.pad * 1664525 % 2 ^ 32 + 1013904223) % 2 ^ 32 }
    {
        let left = self.pad;
        self.words[2 * i] = left;
        self.words[2 * i + 1] = value ^ left;
        self.pad = left.wrapping_mul(PAD_FACTOR).wrapping_add(PAD_TERM);
    }
}

impl Bank for ShareBank {
    ghost cells = { λ b. joined_cells b.words.items };

    #[tactic(auto, using(crate::proofs::SharesLaws::length_joined))]
    fn size(&self) -> usize {
        self.pairs()
    }

    #[tactic(auto, using(crate::proofs::SharesLaws::length_joined, crate::proofs::SharesLaws::cell_of_joined, std::proofs::lemmas::List::get_or_past))]
    fn get(&mut self, i: usize) -> u32
        ensures value { result ≡ slice_index (joined_cells self.old.words.items) i }
        ensures kept { joined_cells self.new.words.items ≡ joined_cells self.old.words.items }
        ensures words { self.new.words.items ≡ self.old.words.items }
        ensures pad { self.new.pad ≡ self.old.pad }
    {
        if i < self.pairs() { self.joined(i) } else { 0 }
    }

    #[tactic(auto, using(crate::proofs::SharesLaws::length_joined, crate::proofs::SharesLaws::joined_put, crate::proofs::SharesLaws::pad_step, std::proofs::lemmas::List::set_past))]
    fn put(&mut self, i: usize, value: u32)
        ensures cells { joined_cells self.new.words.items ≡ slice_set (joined_cells self.old.words.items) i value }
        ensures words { self.new.words.items ≡ split_put self.old.words.items self.old.pad i value }
        ensures pad { self.new.pad ≡ pad_after_put self.old.words.items self.old.pad i }
    {
        if i < self.pairs() {
            self.split(i, value);
        }
    }
}
