// The walk through the branches.
ghost use Rattle.std.specs.Prelude.{◌≡◌, ℕ, ◌+◌, ◌-◌, ◌<◌, ◌≤◌, length};
ghost use Rattle.model.specs.Nesting.{Linked, place};
ghost use Rattle.checker.specs.Walking.{Fills, Filled, Leads};

use crate::tables::Tables;
use model::Place;
use rules::{branches, record_at};

impl Tables {
    // Fills in the places of record k and of all that its links lead to. The links rise, so fewer records are left at each call.
    #[tactic(auto, using(model::proofs::Linkers::depth_low))]
    pub(crate) fn walk(&self, k: usize, here: Place, out: &mut [Place])
        requires linked { Linked self.now.records.items }
        requires fits { (length self.now.records.items ≤ length out.old) × (k ≤ length self.now.records.items) }
        requires here { 1 ≤ k → here ≡ place self.now.records.items k }
        ensures stays { Fills self.now.records.items out.old out.new }
        ensures fills { (j : ℕ) → Leads self.now.records.items k (j + 1) → Filled self.now.records.items out.new j }
    {
        if k == 0 {
            return;
        }
        out[k - 1] = here;
        let entry = record_at(&self.records, k);
        let (first, second) = branches(entry.form);
        let inside = Place {
            enclosing: k as u16,
            depth: here.depth + 1,
        };
        self.walk(first as usize, inside, out);
        self.walk(second as usize, inside, out);
        self.walk(entry.next as usize, here, out);
    }
}
