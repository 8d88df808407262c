// Laying out tables as a sheet.
ghost use Rattle.std.specs.Prelude.{◌≡◌, ◌≤◌, length};
ghost use Rattle.sheet.specs.Format.{sheet_bytes};
ghost use Rattle.refusal.specs.Answers.{answer};
ghost use Rattle.sheet.specs.Exact.{LaysExactly};
ghost use Rattle.sheet.specs.Layout.{tables_refusal, layout_refusal, laid_over, over};

use crate::faults::SheetFault;
use crate::reading::{check_counts, check_variable, record_place, variable_place};
use crate::tables::{Record, Variable};
use crate::writing::{Row, put, put_rows};

// The tables of a program.
#[derive(Clone, Copy)]
struct Tables<'a> {
    variables: &'a [Variable],
    records: &'a [Record],
}

impl<'a> Tables<'a> {
    // Whether the tables have a sheet.
    fn check(&self) -> Result<(), SheetFault>
        ensures { result ≡ answer (tables_refusal self.now.variables.now self.now.records.now) tt }
    {
        check_counts(self.variables.len(), self.records.len())?;
        let mut total = 0;
        for (k, variable) in self.variables.iter().enumerate() {
            total = check_variable(&variable.bytes(), variable_place(k), total)?;
        }
        Ok(())
    }

    // Writes the sheet to the beginning of `out`, and answers its length. The law of `lay_out` is proved over these equations.
    #[tactic(auto, using(std::proofs::lemmas::Bool::Decides::nat_tests, crate::proofs::ReadsBack::sheet_long, crate::proofs::TableChecks::counts), unfolding(crate::specs::Layout::layout_refusal))]
    fn lay(&self, out: &mut [u8]) -> Result<usize, SheetFault>
        ensures answers { result ≡ answer (layout_refusal self.now.variables.now self.now.records.now (length out.old)) (length (sheet_bytes self.now.variables.now self.now.records.now)) }
        ensures after { out.new ≡ laid_over self.now.variables.now self.now.records.now out.old }
    {
        self.check()?;
        let size = record_place(self.variables.len(), self.records.len());
        if size > out.len() {
            return Err(SheetFault::Buffer(size));
        }
        self.write(out);
        Ok(size)
    }

    fn write(&self, out: &mut [u8])
        requires { (length self.now.variables.now ≤ 64) × ((length self.now.records.now ≤ 512) × (length (sheet_bytes self.now.variables.now self.now.records.now) ≤ length out.old)) }
        ensures { out.new ≡ over (sheet_bytes self.now.variables.now self.now.records.now) out.old }
    {
        let [r0, r1] = (self.records.len() as u16).to_le_bytes();
        let at = put(out, 0, &[1, self.variables.len() as u8, r0, r1]);
        let at = put_rows(out, at, self.variables);
        put_rows(out, at, self.records);
    }
}

// Writes the sheet of the tables to the beginning of `out`, and answers its length.
#[tactic(auto, using(crate::proofs::Exactness::lays_exactly))]
pub fn lay_out(
    variables: &[Variable],
    records: &[Record],
    out: &mut [u8],
) -> Result<usize, SheetFault>
    ensures answers { result ≡ answer (layout_refusal variables.now records.now (length out.old)) (length (sheet_bytes variables.now records.now)) }
    ensures after { out.new ≡ laid_over variables.now records.now out.old }
    ensures exact { LaysExactly variables.now records.now out.old result out.new }
{
    Tables { variables, records }.lay(out)
}
