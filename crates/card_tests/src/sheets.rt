// What is on the sheet after a text is read.
use crate::answer::in_numbers;
use cards::{Layer, read_cards};
use sheet::{Plan, Row, fresh_rows};

// A capacitor's start is its first voltage, an inductor's its first current.
#[test]
fn starts(rt: HostRuntime) {
    let mut rows = fresh_rows::<f64>();
    let mut plan = Plan::empty();
    let answer = read_cards(b"C2 2 0 1/4 -3/4\n L3 0 1 8", &mut plan, &mut rows);
    assert!(rt; answer.is_ok());
    assert!(rt; rows[2].value == 0.25);
    assert!(rt; rows[2].start == -0.75);
    assert!(rt; rows[2].voltage == -0.75);
    assert!(rt; rows[2].current == 0.0);
    assert!(rt; rows[3].value == 8.0);
    assert!(rt; rows[3].start == 0.0);
}

// A minus before zero leaves the zero that has no sign.
#[test]
fn minus_zero(rt: HostRuntime) {
    let mut rows = fresh_rows::<f64>();
    let mut plan = Plan::empty();
    let answer = read_cards(b"V0 1 0 -0/5\nI1 1 0 -6/5", &mut plan, &mut rows);
    assert!(rt; answer.is_ok());
    assert!(rt; 1.0 / rows[0].value > 0.0);
    assert!(rt; rows[1].value == -1.2);
}

// Half is 4096 in remainders, and its negative 4095.
#[test]
fn halves(rt: HostRuntime) {
    let mut rows = fresh_rows::<u16>();
    let mut plan = Plan::empty();
    let answer = read_cards(b"I0 1 0 -1/2\nV1 1 0 16383/2", &mut plan, &mut rows);
    assert!(rt; answer.is_ok());
    assert!(rt; rows[0].value == 4095);
    assert!(rt; rows[1].value == 4096);
}

// The cards before a fault stay placed, and what was on the sheet before is gone.
#[test]
fn before_a_fault(rt: HostRuntime) {
    let mut rows = fresh_rows::<f64>();
    let mut plan = Plan::empty();
    let first = read_cards(b"R9 1 2 3", &mut plan, &mut rows);
    assert!(rt; first.is_ok());
    let second = read_cards(b"V0 1 0 6\nR1 1 2 -2\nR2 1 2 2", &mut plan, &mut rows);
    assert!(rt; second.is_err());
    assert!(rt; plan.at(0).is_some());
    assert!(rt; plan.at(1).is_none());
    assert!(rt; plan.at(2).is_none());
    assert!(rt; plan.at(9).is_none());
}

// A row table of another length is refused first, and nothing is blanked.
#[test]
fn other_lengths(rt: HostRuntime) {
    let mut rows = fresh_rows::<f64>();
    let mut plan = Plan::empty();
    let first = read_cards(b"R9 1 2 3", &mut plan, &mut rows);
    assert!(rt; first.is_ok());
    let mut few = [Row::<f64>::zero(); 31];
    let second = read_cards(b"x", &mut plan, &mut few);
    assert_eq!(rt; second.map_err(in_numbers), Err((Layer::Sheet, 1, 0, 0)));
    assert!(rt; plan.at(9).is_some());
}
