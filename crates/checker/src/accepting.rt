// Accepting a read sheet.
ghost use Rattle.std.specs.Prelude.{◌≡◌, ℕ, ◌+◌, ◌<◌, ◌≤◌, [], map, length, is_ok, if◌then◌else◌};
ghost use Rattle.std.specs.List.{range_with_len};
ghost use Rattle.refusal.specs.Answers.{answer};
ghost use Rattle.checker.specs.Accepting.{tables_in, sheet_program, accept_refusal, Verdict, IsMisshapen};
ghost use Rattle.checker.specs.Contents.{contents, holding, smallest};

use crate::nested::Nested;
use crate::program::Program;
use crate::tables::Tables;
use arrayvec::ArrayVec;
use labels::LabelOrder;
use model::Place;
use refusal::Refusal;
use sheet::{ReadSheet, Record, Variable};

// Fills an empty table with so many entries, as a function answers them by their index. The table is lent: it is large, and
// one that is handed back is cleared and copied once more.
fn fill<T: Drop, const N: usize, F: Fn(usize) -> T>(
    table: &mut ArrayVec<T, N>,
    count: usize,
    entry: F,
)
    requires empty { table.old.items ≡ [] }
    requires room { count ≤ N }
    requires callable { (k : ℕ) → k < count → F.pre entry k }
    ensures { (f : ℕ → T) → ((k : ℕ) (x : T) → F.post entry k x → x ≡ f k) → table.new.items ≡ map f (range_with_len 0 count) }
{
    // `extend` over the range would answer a Result, which is never an error here.
    for k in 0..count {
        table.push(entry(k));
    }
}

impl Tables {
    // Fills empty tables with those of a sheet.
    fn take_sheet(&mut self, sheet: &ReadSheet)
        requires empty { (self.old.variables.items ≡ []) × (self.old.records.items ≡ []) }
        ensures tables { tables_in self.new ≡ sheet_program sheet.now.bytes.now }
        ensures begins { 1 ≤ length self.new.records.items }
    {
        fill(
            &mut self.variables,
            sheet.variables(),
            |k| sheet.variable(k).unwrap_or_default(),
        );
        fill(
            &mut self.records,
            sheet.records(),
            |k| sheet.record(k + 1).unwrap_or_default(),
        );
    }

    // The shape, then the rules.
    #[tactic(auto, unfolding(crate::specs::Accepting::accept_refusal, crate::specs::Checks::shape_refusal))]
    fn check<O: LabelOrder>(&self, order: &O) -> Result<(), Refusal>
        requires { 1 ≤ length self.now.records.items }
        ensures { result ≡ answer (accept_refusal (O.meaning order.now) (tables_in self.now)) tt }
    {
        self.check_entries(order)?;
        let mut room = [Place::default(); 512];
        let nested = Nested::of(self, &mut room);
        nested.check_depth()?;
        nested.check_rules(order)?;
        Ok(())
    }
}

impl<O: LabelOrder> Program<O> {
    // One number and one skip, labelled P: what a host lends to `accept`.
    pub fn new(order: O) -> Program<O>
        ensures { contents result ≡ holding order (smallest (O.meaning order).public) }
    {
        let label = order.public();
        let number = Variable {
            label,
            ..Variable::default()
        };
        let skip = Record {
            label,
            ..Record::default()
        };
        let mut tables = Tables {
            variables: ArrayVec::new(),
            records: ArrayVec::new(),
        };
        tables.variables.push(number);
        tables.records.push(skip);
        Program { order, tables }
    }
}

// The promises of `accept` are proved over these equations, so they stand here too.
fn take_over<O: LabelOrder>(
    sheet: &ReadSheet,
    order: &O,
    program: &mut Program<O>,
) -> Result<(), Refusal>
    ensures answers { result ≡ answer (accept_refusal (O.meaning order.now) (sheet_program sheet.now.bytes.now)) tt }
    ensures filled { contents program.new ≡ (if is_ok result then holding order.now (sheet_program sheet.now.bytes.now) else contents program.old) }
{
    let mut tables = Tables {
        variables: ArrayVec::new(),
        records: ArrayVec::new(),
    };
    tables.take_sheet(sheet);
    tables.check(order)?;
    program.order = *order;
    program.tables = tables;
    Ok(())
}

// Fills the program that the host lends with the tables of a sheet, unless it is refused.
pub fn accept<O: LabelOrder>(
    sheet: &ReadSheet,
    order: &O,
    program: &mut Program<O>,
) -> Result<(), Refusal>
    ensures answers { result ≡ answer (accept_refusal (O.meaning order.now) (sheet_program sheet.now.bytes.now)) tt }
    ensures filled { contents program.new ≡ (if is_ok result then holding order.now (sheet_program sheet.now.bytes.now) else contents program.old) }
    ensures verdict { Verdict (O.meaning order.now) (sheet_program sheet.now.bytes.now) result }
    ensures misshapen { IsMisshapen (O.meaning order.now) (sheet_program sheet.now.bytes.now) result }
{
    take_over(sheet, order, program)
}
