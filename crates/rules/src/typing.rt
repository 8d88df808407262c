// The type rules of one record, under any label order.
ghost use Rattle.std.specs.Prelude.{◌≡◌, if◌then◌else◌, nat_eq};
ghost use Rattle.model.specs.Nesting.{record_at};
ghost use Rattle.model.specs.Program.{label_of};
ghost use Rattle.model.specs.Rules.{join_all};
ghost use Rattle.rules.specs.Breaches.{labelled, labels_read, first_broken};

use crate::operands::Labelled;
use crate::shape::{record_at, variable_at};
use labels::LabelOrder;
use model::Rule;
use sheet::{Form, Record, Variable};

fn label(vs: &[Variable], v: u8) -> u8
    ensures { result ≡ label_of vs.now v }
{
    variable_at(vs, v).label
}

// The labels of a form's variables, in surroundings s, under the record's label l.
pub fn label_operands(vs: &[Variable], s: u8, l: u8, form: Form) -> Labelled
    ensures { result ≡ labelled vs.now s l form }
{
    let (x, a, b, c) = match form {
        Form::Skip => (0, 0, 0, 0),
        Form::Constant { x, .. } => (label(vs, x), 0, 0, 0),
        Form::If { a, .. } | Form::While { a, .. } => (0, label(vs, a), 0, 0),
        Form::Copy { x, a } | Form::Declass { x, a } | Form::Oram { x, a } => (
            label(vs, x),
            label(vs, a),
            0,
            0,
        ),
        Form::Binary { x, a, b, .. } | Form::Fetch { x, a, b } | Form::Store { x, a, b } => (
            label(vs, x),
            label(vs, a),
            label(vs, b),
            0,
        ),
        Form::Mux { x, a, b, c } => (label(vs, x), label(vs, a), label(vs, b), label(vs, c)),
    };
    Labelled {
        around: s,
        form: form.number(),
        label: l,
        x,
        a,
        b,
        c,
    }
}

// The join of all labels that a record of forms 1 to 6 reads, by the number of the form as in the rules.
fn label_read<O: LabelOrder>(order: &O, r: Labelled) -> u8
    ensures { result ≡ join_all (O.meaning order.now) (labels_read r) }
{
    match r.form {
        1 => r.a,
        2 => order.public(),
        5 => order.join(r.a, order.join(r.b, r.c)),
        _ => order.join(r.a, r.b),
    }
}

// The lowest rule that a record breaks in its surroundings.
#[tactic(auto, using(std::proofs::lemmas::Bool::Decides::nat_tests))]
pub fn broken_rule<O: LabelOrder>(order: &O, r: Labelled) -> Option<Rule>
    ensures { result ≡ first_broken (O.meaning order.now) r }
{
    let public = order.public();
    let secret = order.secret();
    match r.form {
        _ if r.around != public && r.around != r.label => Some(Rule::Around),
        1..=6 if r.x != r.label => Some(Rule::Target),
        1..=6 if !order.flows(label_read(order, r), r.label) => Some(Rule::Source),
        4 if !order.flows(r.b, r.a) => Some(Rule::Index),
        7..=8 if r.a != r.label => Some(Rule::Guard),
        7..=8 if r.a == secret => Some(Rule::OpenGuard),
        9..=10 if r.label != secret => Some(Rule::Special),
        9 if r.a != secret || r.x == secret => Some(Rule::Declass),
        10 if r.x != secret || r.a == secret => Some(Rule::Oram),
        _ => None,
    }
}

// The label of the record that encloses, P where none does.
pub fn around<O: LabelOrder>(order: &O, records: &[Record], enclosing: u16) -> u8
    ensures { result ≡ (if nat_eq enclosing 0 then (O.meaning order.now).public else (record_at records.now enclosing).label) }
{
    if enclosing == 0 {
        order.public()
    } else {
        record_at(records, enclosing as usize).label
    }
}
