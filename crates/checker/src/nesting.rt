// The checks that ask where each record stands.
ghost use Rattle.std.specs.Prelude.{◌≡◌, ℕ, ◌+◌, ◌-◌, ◌≤◌, length};
ghost use Rattle.refusal.specs.Answers.{answer};
ghost use Rattle.model.specs.Nesting.{Linked};
ghost use Rattle.checker.specs.Checks.{depth_refusal};
ghost use Rattle.checker.specs.Breaches.{rule_refusal, rules_refusal};
ghost use Rattle.checker.specs.Accepting.{tables_in};

use crate::nested::Nested;
use crate::tables::Tables;
use labels::LabelOrder;
use model::Place;
use rules::{RuleFault, ShapeFault, around, broken_rule, label_operands, record_at};

// How deep a record may be nested, the main chain being 1.
const DEEPEST: u16 = 16;

impl<'a> Nested<'a> {
    // The places stand in the room that is lent, as many as there are records.
    pub(crate) fn of(tables: &'a Tables, room: &'a mut [Place; 512]) -> Nested<'a>
        requires begins { 1 ≤ length tables.now.records.items }
        requires linked { Linked tables.now.records.items }
        ensures { result.tables.now ≡ tables.now }
    {
        let main = Place {
            enclosing: 0,
            depth: 1,
        };
        tables.walk(1, main, room);
        Nested {
            tables,
            places: &room[..tables.records.len()],
        }
    }

    // 26: no record is nested deeper than that.
    pub(crate) fn check_depth(&self) -> Result<(), ShapeFault>
        ensures { result ≡ answer (depth_refusal self.now.tables.now.records.items (length self.now.tables.now.records.items)) tt }
    {
        self.places
            .iter()
            .position(|place| place.depth > DEEPEST)
            .map_or(Ok(()), |j| Err(ShapeFault::Depth(j + 1)))
    }

    // Refuses record k, from 1, by the lowest rule that it breaks.
    #[tactic(auto, using(crate::proofs::Places::place_in, crate::proofs::Places::long_nested), unfolding(crate::specs::Breaches::rule_refusal, crate::specs::Breaches::labelled_at))]
    fn check_rule<O: LabelOrder>(&self, order: &O, k: usize) -> Result<(), RuleFault>
        requires { (1 ≤ k) × (k ≤ length self.now.tables.now.records.items) }
        ensures { result ≡ answer (rule_refusal (O.meaning order.now) (tables_in self.now.tables.now) k) tt }
    {
        let Tables { variables, records } = self.tables;
        let entry = record_at(records, k);
        let surroundings = around(order, records, self.places[k - 1].enclosing);
        let operands = label_operands(variables, surroundings, entry.label, entry.form);
        broken_rule(order, operands).map_or(Ok(()), |rule| Err(RuleFault { rule, place: k }))
    }

    #[tactic(auto, using(refusal::proofs::First::first_clear, refusal::proofs::First::first_stop), unfolding(crate::specs::Breaches::rules_refusal))]
    pub(crate) fn check_rules<O: LabelOrder>(&self, order: &O) -> Result<(), RuleFault>
        ensures { result ≡ answer (rules_refusal (O.meaning order.now) (tables_in self.now.tables.now) (length self.now.tables.now.records.items)) tt }
    {
        for j in 0..self.tables.records.len() {
            self.check_rule(order, j + 1)?;
        }
        Ok(())
    }
}
