// The checks of the tables' shape, in the order of their numbers.
ghost use Rattle.std.specs.Prelude.{◌≡◌, ℕ, ◌+◌, ◌-◌, ◌<◌, ◌≤◌, length, if◌then◌else◌, nat_eq, slice_index};
ghost use Rattle.refusal.specs.Answers.{answer};
ghost use Rattle.model.specs.Nesting.{count, links, times_linked};
ghost use Rattle.checker.specs.Checks.{variables_refusal, records_refusal, once_refusal, entries_refusal};
ghost use Rattle.checker.specs.Accepting.{tables_in};

use crate::tables::Tables;
use labels::LabelOrder;
use rules::{ShapeFault, branches, check_record};
use sheet::Record;

// One link more to a record.
fn count_link(counts: &mut [u16], link: u16)
    requires { (k : ℕ) → k < length counts.old → slice_index counts.old k < 65535 }
    ensures { (k : ℕ) → k < length counts.old → slice_index counts.new k ≡ (if nat_eq link k then 1 else 0) + slice_index counts.old k }
{
    let at = link as usize;
    // By index: with `get_mut` the proof does not close.
    if at < counts.len() {
        counts[at] += 1;
    }
}

// The links of one record more.
fn count_record(counts: &mut [u16], entry: Record)
    requires { (k : ℕ) → k < length counts.old → slice_index counts.old k < 65533 }
    ensures { (k : ℕ) → k < length counts.old → slice_index counts.new k ≡ count k (links entry) + slice_index counts.old k }
{
    let (first, second) = branches(entry.form);
    count_link(counts, second);
    count_link(counts, first);
    count_link(counts, entry.next);
}

impl Tables {
    // 20: the label of each variable is known.
    fn check_variables<O: LabelOrder>(&self, order: &O) -> Result<(), ShapeFault>
        ensures { result ≡ answer (variables_refusal (O.meaning order.now) self.now.variables.items (length self.now.variables.items)) tt }
    {
        self.variables
            .iter()
            .position(|variable| !order.knows(variable.label))
            .map_or(Ok(()), |v| Err(ShapeFault::VariableLabel(v)))
    }

    #[tactic(auto, using(refusal::proofs::First::first_clear, refusal::proofs::First::first_stop, crate::proofs::Counting::entry), unfolding(crate::specs::Checks::records_refusal))]
    fn check_records<O: LabelOrder>(&self, order: &O) -> Result<(), ShapeFault>
        ensures { result ≡ answer (records_refusal (O.meaning order.now) self.now.variables.items self.now.records.items (length self.now.records.items)) tt }
    {
        let n = self.records.len();
        for (j, entry) in self.records.iter().enumerate() {
            check_record(order, &self.variables, n, j + 1, *entry)?;
        }
        Ok(())
    }

    // How often each record is linked, by its number, in one pass over the records.
    #[tactic(auto, using(crate::proofs::Counting::times_more, crate::proofs::Counting::few_links, std::proofs::lemmas::List::take_all), unfolding(model::specs::Nesting::times_linked))]
    fn count_links(&self) -> [u16; 513]
        ensures { (k : ℕ) → k < length result → slice_index result k ≡ times_linked self.now.records.items k }
    {
        let mut counts = [0; 513];
        for entry in self.records.iter() {
            count_record(&mut counts, *entry);
        }
        counts
    }

    // 25: each record from 2 up is linked exactly once.
    fn check_linked_once(&self) -> Result<(), ShapeFault>
        requires { 1 ≤ length self.now.records.items }
        ensures { result ≡ answer (once_refusal self.now.records.items (length self.now.records.items - 1)) tt }
    {
        let counts = self.count_links();
        counts[2..self.records.len() + 1]
            .iter()
            .position(|times| *times != 1)
            .map_or(Ok(()), |j| Err(ShapeFault::LinkedOnce(j + 2)))
    }

    // What of the shape is asked before the places of the records are known.
    #[tactic(auto, unfolding(crate::specs::Checks::entries_refusal))]
    pub(crate) fn check_entries<O: LabelOrder>(&self, order: &O) -> Result<(), ShapeFault>
        requires { 1 ≤ length self.now.records.items }
        ensures { result ≡ answer (entries_refusal (O.meaning order.now) (tables_in self.now)) tt }
    {
        self.check_variables(order)?;
        self.check_records(order)?;
        self.check_linked_once()
    }
}
