// The calls as a station makes them: the key is made, and not given up for want of memory.
use crate::{covshurii_key, covshurii_mark};
use std::test::Fail;

const CARDS: &[u8] = b"V0 1 0 1\n";

const KEY: &[u8] = b"tree 0\ncut 0 +0\nmv 0 1000\nres 0 0 1\n";

#[test]
fn key_at_the_front(rt: HostRuntime) -> Result<(), Fail> {
    let mut buffer = [7u8; 40];
    assert_eq!(rt; covshurii_key(rt.alloc(), CARDS, &mut buffer), 36);
    assert!(rt; buffer.starts_with(KEY) && buffer.ends_with(&[7; 4]));
    Ok(())
}

#[test]
fn short_buffer(rt: HostRuntime) -> Result<(), Fail> {
    let mut buffer = [7u8; 35];
    assert_eq!(rt; covshurii_key(rt.alloc(), CARDS, &mut buffer), 36);
    assert!(rt; buffer == [7; 35]);
    assert_eq!(rt; covshurii_key(rt.alloc(), CARDS, &mut []), 36);
    Ok(())
}

#[test]
fn marks(rt: HostRuntime) -> Result<(), Fail> {
    assert_eq!(rt; covshurii_mark(CARDS), 0);
    assert_eq!(rt; covshurii_mark(b"V0 1 0 1\nV1 1 0 1\n"), 12);
    assert_eq!(rt; covshurii_mark(b"V0 1 1 1\n"), 7);
    Ok(())
}
