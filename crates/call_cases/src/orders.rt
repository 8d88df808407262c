// Questions to an order.
use crate::answer::Answer;
use crate::fault::Fault;
use choice::AnyOrder;
use labels::LabelOrder;
use std::alloc::Global;

// What is answered of the first number, a label, with each of the others, a label or a party: a label, or 1 for yes
// and 0 for no.
pub fn each<T: Into<u64>, F: Fn(u8, u8) -> T>(
    heap: Global,
    word: &'static str,
    numbers: &[u32],
    ask: F,
) -> Result<Answer, Fault>
    requires { F.IsAlwaysCallable ask }
{
    let [label, others @ ..] = numbers else {
        return Err(Fault::Unreadable);
    };
    let label = u8::try_from(*label)?;
    let mut told = Vec::new(heap);
    for other in others {
        told.push(ask(label, u8::try_from(*other)?).into())?;
    }
    Ok(Answer::Numbers(word, told))
}

// P, O, and how many parties there are.
pub fn tell(heap: Global, order: &AnyOrder) -> Result<Answer, Fault> {
    let public = u64::from(order.public());
    let secret = u64::from(order.secret());
    let parties = u64::from(order.parties());
    Ok(Answer::Numbers("order", vec![in heap; public, secret, parties]?))
}

// All labels that the order knows.
pub fn known(heap: Global, order: &AnyOrder) -> Result<Answer, Fault> {
    let labels = (0..=255u8).filter(|label| order.knows(*label));
    Ok(Answer::Numbers("known", labels.map(u64::from).collect(heap)?))
}
