// The two banks.
use banks::{Bank, FlatBank, ShareBank};
use std::test::Fail;

// Five words are two cells; the pads after 1 are 1015568748 and then 1586005467.
#[test]
fn shares(rt: HostRuntime) -> Result<(), Fail> {
    let mut bank = ShareBank::new(vec![in rt.alloc(); 9u32; 5]?, 1);
    assert_eq!(rt; bank.size(), 2);
    bank.put(0, 6);
    assert_eq!(rt; bank.pad(), 1015568748);
    bank.put(2, 8);
    assert_eq!(rt; bank.pad(), 1015568748);
    bank.put(1, 7);
    assert_eq!(rt; bank.pad(), 1586005467);
    assert_eq!(rt; bank.get(0), 6);
    assert_eq!(rt; bank.get(1), 7);
    assert_eq!(rt; bank.get(2), 0);
    let words = bank.into_words();
    assert!(rt; words.len() == 5);
    assert_eq!(rt; words[0], 1);
    assert_eq!(rt; words[1], 7);
    assert_eq!(rt; words[2], 1015568748);
    assert_eq!(rt; words[4], 9);
    Ok(())
}

#[test]
fn flat(rt: HostRuntime) -> Result<(), Fail> {
    let mut bank = FlatBank::new(vec![in rt.alloc(); 9u32; 2]?);
    bank.put(1, 7);
    bank.put(2, 8);
    assert_eq!(rt; bank.size(), 2);
    assert_eq!(rt; bank.get(0), 9);
    assert_eq!(rt; bank.get(1), 7);
    assert_eq!(rt; bank.get(2), 0);
    assert_eq!(rt; bank.into_words().len(), 2);
    Ok(())
}
