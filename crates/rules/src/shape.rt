// What the shape of one record must keep: its label, its variables, its links.
// A table and a variable, or a record and the count, are what one question asks; they are no thing of their own.
ghost use Rattle.std.specs.Prelude.{◌≡◌, ℕ, ◌-◌, ◌<◌, Bool, ◌&&◌, length, nat_lt};
ghost use Rattle.std.specs.List.{list_all};
ghost use Rattle.refusal.specs.Answers.{answer};
ghost use Rattle.model.specs.Nesting.{branches, record_at};
ghost use Rattle.model.specs.Program.{variable_at, numbers, arrays};
ghost use Rattle.rules.specs.Shape.{is_number, is_array, present, right_kinds, same_length, link_fits, links_fit, record_refusal};

use crate::faults::ShapeFault;
use labels::LabelOrder;
use sheet::{Form, Kind, Record, Variable};

// The variable numbered v, or a number labelled 0 beyond the table.
#[tactic(auto, unfolding(model::specs::Program::variable_at))]
pub fn variable_at(variables: &[Variable], v: u8) -> Variable
    ensures { result ≡ variable_at variables.now v }
{
    variables.get(v as usize).copied().unwrap_or_default()
}

// The record numbered k, from 1, or a skip labelled 0 where there is none.
#[tactic(auto, unfolding(model::specs::Nesting::record_at))]
pub fn record_at(records: &[Record], k: usize) -> Record
    ensures { result ≡ record_at records.now k }
{
    k.checked_sub(1)
        .and_then(|j| records.get(j))
        .copied()
        .unwrap_or_default()
}

fn has(variables: &[Variable], v: u8) -> bool
    ensures { result ≡ nat_lt v (length variables.now) }
{
    (v as usize) < variables.len()
}

fn is_number(variables: &[Variable], v: u8) -> bool
    ensures { result ≡ is_number (variable_at variables.now v).kind }
{
    matches!(variable_at(variables, v).kind, Kind::Number)
}

fn is_array(variables: &[Variable], v: u8) -> bool
    ensures { result ≡ is_array (variable_at variables.now v).kind }
{
    matches!(variable_at(variables, v).kind, Kind::Array(_))
}

// Do all variables of a form pass, those that are to be numbers the first test, and those that are to be arrays the second?
fn all_pass<N: Fn(u8) -> bool, A: Fn(u8) -> bool>(form: Form, number: N, array: A) -> bool
    requires numbers { N.IsAlwaysCallable number }
    requires arrays { A.IsAlwaysCallable array }
    ensures { (p q : ℕ → Bool) → ((v : ℕ) (r : Bool) → N.post number v r → r ≡ p v) → ((v : ℕ) (r : Bool) → A.post array v r → r ≡ q v) → result ≡ (list_all p (numbers form) && list_all q (arrays form)) }
{
    match form {
        Form::Skip => true,
        Form::Constant { x, .. } => number(x),
        Form::If { a, .. } | Form::While { a, .. } => number(a),
        Form::Copy { x, a } | Form::Declass { x, a } => number(x) && number(a),
        Form::Oram { x, a } => array(x) && array(a),
        Form::Binary { x, a, b, .. } => number(x) && number(a) && number(b),
        Form::Fetch { x, a, b } => number(x) && number(b) && array(a),
        Form::Store { x, a, b } => number(a) && number(b) && array(x),
        Form::Mux { x, a, b, c } => number(x) && number(a) && number(b) && number(c),
    }
}

// 22: all variables of a form exist.
fn present(vs: &[Variable], form: Form) -> bool
    ensures { result ≡ present vs.now form }
{
    all_pass(form, |v| has(vs, v), |v| has(vs, v))
}

// 23: each is of the right kind.
fn right_kinds(vs: &[Variable], form: Form) -> bool
    ensures { result ≡ right_kinds vs.now form }
{
    all_pass(form, |v| is_number(vs, v), |v| is_array(vs, v))
}

// 27: oram's arrays have one length.
fn same_length(vs: &[Variable], form: Form) -> bool
    ensures { result ≡ same_length vs.now form }
{
    match form {
        Form::Oram { x, a } => variable_at(vs, x).kind.cells() == variable_at(vs, a).kind.cells(),
        _ => true,
    }
}

pub fn branches(form: Form) -> (u16, u16)
    ensures { result ≡ branches form }
{
    match form {
        Form::If { then, other, .. } => (then, other),
        Form::While { body, .. } => (body, 0),
        _ => (0, 0),
    }
}

fn link_fits(link: u16, k: usize, n: usize) -> bool
    ensures { result ≡ link_fits n k link }
{
    link == 0 || (link as usize > k && link as usize <= n)
}

// 24: the links of record k, of n.
fn links_fit(entry: Record, k: usize, n: usize) -> bool
    ensures { result ≡ links_fit n k entry }
{
    let (first, second) = branches(entry.form);
    link_fits(entry.next, k, n) && link_fits(first, k, n) && link_fits(second, k, n)
}

// Record k, of n.
#[tactic(auto, unfolding(crate::specs::Shape::record_refusal))]
pub fn check_record<O: LabelOrder>(
    order: &O,
    variables: &[Variable],
    n: usize,
    k: usize,
    entry: Record,
) -> Result<(), ShapeFault>
    ensures { result ≡ answer (record_refusal (O.meaning order.now) variables.now n k entry) tt }
{
    if !order.knows(entry.label) {
        return Err(ShapeFault::RecordLabel(k));
    }
    if !present(variables, entry.form) {
        return Err(ShapeFault::NoVariable(k));
    }
    if !right_kinds(variables, entry.form) {
        return Err(ShapeFault::WrongKind(k));
    }
    if !links_fit(entry, k, n) {
        return Err(ShapeFault::Link(k));
    }
    if !same_length(variables, entry.form) {
        return Err(ShapeFault::OramLength(k));
    }
    Ok(())
}
