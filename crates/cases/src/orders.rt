// The two label orders.
use labels::{LabelOrder, PartySet, TwoParty};
use refusal::Refusal;
use std::test::Fail;

#[test]
fn joins_of_two_parties(rt: HostRuntime) {
    let rows = [[0, 1, 2, 3], [1, 1, 3, 3], [2, 3, 2, 3], [3, 3, 3, 3]];
    for (m, row) in (0..4u8).zip(&rows) {
        for (n, joined) in (0..4u8).zip(row) {
            assert_eq!(rt; TwoParty.join(m, n), *joined);
            assert_eq!(rt; TwoParty.flows(m, n), *joined == n);
        }
    }
    assert!(rt; TwoParty.public() == 0 && TwoParty.secret() == 3 && TwoParty.parties() == 2);
}

#[test]
fn unknown_labels_and_parties(rt: HostRuntime) {
    assert!(rt; !TwoParty.knows(4) && TwoParty.knows(3));
    assert!(rt; !TwoParty.flows(4, 4) && !TwoParty.flows(0, 4) && !TwoParty.flows(4, 3));
    assert_eq!(rt; TwoParty.join(0, 4), 3);
    assert!(rt; !TwoParty.opens(0, 2) && !TwoParty.opens(4, 0));
}

#[test]
fn three_parties(rt: HostRuntime) -> Result<(), Fail> {
    let Ok(order) = PartySet::new(3) else {
        return Err(Fail::new("three parties"));
    };
    assert_eq!(rt; order.join(1, 2), 3);
    assert!(rt; order.opens(3, 2) && !order.opens(3, 0) && !order.opens(3, 1));
    assert!(rt; order.secret() == 7 && !order.knows(8) && !order.opens(0, 3));
    assert!(rt; !order.flows(8, 8) && order.join(8, 0) == 7);
    Ok(())
}

#[test]
fn too_few_and_too_many_parties(rt: HostRuntime) -> Result<(), Fail> {
    assert!(rt; PartySet::new(2).is_ok() && PartySet::new(8).is_ok());
    assert!(rt; PartySet::new(0).is_err() && PartySet::new(1).is_err());
    let Err(fault) = PartySet::new(9) else {
        return Err(Fail::new("nine parties"));
    };
    let refusal = Refusal::from(fault);
    assert!(rt; refusal.number == 50 && refusal.place == 9);
    Ok(())
}
