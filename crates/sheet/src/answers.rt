// What a read sheet answers.
ghost use Rattle.std.specs.Prelude.{◌≡◌, ◌+◌, ◌*◌, ◌<◌, ◌≤◌, length, None};
ghost use Rattle.refusal.specs.Answers.{answer};
ghost use Rattle.sheet.specs.Reading.{sheet_refusal, variable_at, record_at, variable_count_of, record_count_of, variable_place, record_place};
ghost use Rattle.sheet.specs.Valid.{read, smallest};
ghost use Rattle.sheet.specs.Exact.{ReadsExactly};

use crate::codec::{record_of, variable_of};
use crate::faults::SheetFault;
use crate::reading::{check_sheet, record_place, variable_place};
use crate::sheet::ReadSheet;
use crate::tables::{Record, Variable};

// One number labelled 0, and one skip labelled 0.
const SMALLEST: [u8; 20] = [1, 1, 1, 0, 0, 0, 0, 0, 0, 0, 0, 0, 0, 0, 0, 0, 0, 0, 0, 0];

impl<'a> ReadSheet<'a> {
    pub fn smallest() -> ReadSheet<'a>
        ensures { result.bytes.now ≡ smallest }
    {
        ReadSheet { bytes: &SMALLEST }
    }

    // Takes the bytes in the place of what was read before, unless they are refused.
    #[tactic(auto, using(crate::proofs::Exactness::reads_exactly))]
    pub fn read(&mut self, bytes: &'a [u8]) -> Result<(), SheetFault>
        ensures answers { result ≡ answer (sheet_refusal bytes.now) tt }
        ensures after { self.new.bytes.now ≡ read self.old.bytes.now bytes.now }
        ensures exact { ReadsExactly bytes.now result }
    {
        self.take_over(bytes)
    }

    #[tactic(auto, unfolding(crate::specs::Valid::valid))]
    // The law of `read` is proved over these equations, so they stand here too.
    fn take_over(&mut self, bytes: &'a [u8]) -> Result<(), SheetFault>
        ensures answers { result ≡ answer (sheet_refusal bytes.now) tt }
        ensures after { self.new.bytes.now ≡ read self.old.bytes.now bytes.now }
    {
        check_sheet(bytes)?;
        *self = ReadSheet { bytes };
        Ok(())
    }

    #[tactic(auto, using(crate::proofs::Validity::few_variables, crate::proofs::Validity::few_records, crate::proofs::Validity::long))]
    pub fn variables(&self) -> usize
        ensures count { result ≡ variable_count_of self.now.bytes.now }
        ensures fits { (result ≤ 64) × (variable_place result ≤ length self.now.bytes.now) }
    {
        self.bytes[1] as usize
    }

    #[tactic(auto, using(crate::proofs::Validity::few_variables, crate::proofs::Validity::few_records, crate::proofs::Validity::long))]
    pub fn records(&self) -> usize
        ensures count { result ≡ record_count_of self.now.bytes.now }
        ensures fits { (result ≤ 512) × (record_place (variable_count_of self.now.bytes.now) result ≤ length self.now.bytes.now) }
    {
        u16::from_le_bytes([self.bytes[2], self.bytes[3]]) as usize
    }

    // The variable numbered k, from 0.
    #[tactic(auto, using(std::proofs::lemmas::Bool::Decides::nat_tests), unfolding(crate::specs::Reading::variable_at))]
    pub fn variable(&self, k: usize) -> Option<Variable>
        ensures { result ≡ variable_at self.now.bytes.now k }
    {
        if k >= self.variables() {
            return None;
        }
        let p = variable_place(k);
        variable_of(&self.bytes[p..p + 4])
    }

    // The record numbered k, from 1.
    #[tactic(auto, using(std::proofs::lemmas::Bool::Decides::nat_tests), unfolding(crate::specs::Reading::record_at))]
    pub fn record(&self, k: usize) -> Option<Record>
        ensures { result ≡ record_at self.now.bytes.now k }
    {
        if !(1..=self.records()).contains(&k) {
            return None;
        }
        let p = record_place(self.variables(), k - 1);
        record_of(&self.bytes[p..p + 12])
    }
}
