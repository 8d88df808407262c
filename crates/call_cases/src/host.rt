// What the calls work on: the order in force, and a bank.
use crate::answer::Answer;
use crate::cells::{flat, get, put, share, take_words};
use crate::fault::Fault;
use crate::layouts::{layout, read};
use crate::line::Line;
use crate::orders::{each, known, tell};
use crate::picks::pick_log;
use choice::{AnyBank, AnyOrder};
use labels::{LabelOrder, PartySet, TwoParty};
use refusal::Refusal;
use std::alloc::Global;

#[derive(Drop)]
pub struct Host {
    heap: Global,
    order: AnyOrder,
    bank: Option<AnyBank>,
}

impl Host {
    // The order of two parties, and no bank.
    pub fn new(heap: Global) -> Host {
        Host {
            heap,
            order: AnyOrder::Two(TwoParty),
            bank: None,
        }
    }

    // The answer to a line.
    pub fn answer(&mut self, line: &[u8]) -> Result<Answer, Fault> {
        let Line { word, numbers } = Line::parse(self.heap, line)?;
        if numbers.is_empty() {
            return self.bare(word);
        }
        self.call(word, numbers.as_slice())
    }

    // The answer to a word without numbers.
    fn bare(&mut self, word: &str) -> Result<Answer, Fault> {
        match word {
            "two-party" => self.set_order(AnyOrder::Two(TwoParty)),
            "known" => known(self.heap, &self.order),
            "words" => take_words(self.heap, self.bank.take()),
            "flat" | "read" => self.call(word, &[]),
            _ => Err(Fault::Unreadable),
        }
    }

    // The answer to a word with numbers. The words are a closed set, and a match reads like their list.
    // The heap is a parameter of what allocates.
    fn call(&mut self, word: &str, numbers: &[u32]) -> Result<Answer, Fault> {
        match word {
            "layout" => layout(self.heap, numbers),
            "read" => read(self.heap, numbers),
            "pick" => pick_log(self.heap, &self.order, numbers),
            "party-set" => self.party_set(numbers),
            "join" => each(self.heap, "join", numbers, |m, n| self.order.join(m, n)),
            "flows" => each(self.heap, "flows", numbers, |m, n| self.order.flows(m, n)),
            "opens" => each(self.heap, "opens", numbers, |m, n| self.order.opens(m, n)),
            "flat" => flat(self.heap, &mut self.bank, numbers),
            "share" => share(self.heap, &mut self.bank, numbers),
            "put" => put(self.heap, &mut self.bank, numbers),
            "get" => get(self.heap, &mut self.bank, numbers),
            _ => Err(Fault::Unreadable),
        }
    }

    fn set_order(&mut self, order: AnyOrder) -> Result<Answer, Fault> {
        self.order = order;
        tell(self.heap, &order)
    }

    // `party-set PARTIES`; a refusal leaves the order before.
    fn party_set(&mut self, numbers: &[u32]) -> Result<Answer, Fault> {
        let [parties] = *numbers else {
            return Err(Fault::Unreadable);
        };
        match PartySet::new(parties as usize) {
            Ok(order) => self.set_order(AnyOrder::Set(order)),
            Err(fault) => Ok(Answer::Refused(Refusal::from(fault))),
        }
    }
}
