use crate::{number_of, placed, placed_on, row_of};
use sheet::{Kind, Placement, Plan, fresh_rows};
use std::test::Fail;

// Kinds by number, since numbers that are no kind are placed too.
const RESISTOR: u32 = 1;

const INDUCTOR: u32 = 2;

const CAPACITOR: u32 = 3;

const VOLTAGE: u32 = 4;

const CURRENT: u32 = 5;

fn resistor(number: u32) -> Placement<f64> {
    Placement {
        number,
        kind: RESISTOR,
        tail: 1,
        head: 0,
        value: 2.0,
        start: 0.0,
    }
}

#[test]
fn lengths(rt: HostRuntime) {
    assert_eq!(rt; placed_on::<f64>(&mut [row_of(0.0); 31], resistor(0)), 1);
    assert_eq!(rt; placed_on::<f64>(&mut [row_of(0.0); 32], resistor(0)), 0);
    assert_eq!(rt; placed_on::<f64>(&mut [row_of(0.0); 33], resistor(0)), 1);
    let mut plan = Plan::empty();
    assert_eq!(rt; number_of(plan.blank::<f64>(&mut [row_of(0.0); 31])), 1);
    assert_eq!(rt; number_of(plan.blank::<f64>(&mut [row_of(0.0); 33])), 1);
    assert_eq!(rt; number_of(plan.lift::<f64>(&mut [row_of(0.0); 33], 40)), 1);
    assert_eq!(rt;
        number_of(plan.set::<f64>(&mut [row_of(0.0); 31], 40, 1.0)),
        1
    );
    assert!(rt; plan.look::<f64>(&[row_of(0.0); 33], 0).is_none());
}

// Number, kind and nodes, whatever they are: number, kind, tail, head, and the refusal or 0.
#[test]
fn numbers(rt: HostRuntime) {
    let table = [
        (31, RESISTOR, 1, 0, 0),
        (32, RESISTOR, 1, 0, 2),
        (256, RESISTOR, 1, 0, 2),
        (0, 0, 16, 16, 5),
        (0, 6, 1, 0, 5),
        (0, 257, 1, 0, 5),
        (0, RESISTOR, 15, 0, 0),
        (0, RESISTOR, 16, 16, 6),
        (0, RESISTOR, 0, 272, 6),
        (0, RESISTOR, 3, 3, 7),
    ];
    for (number, kind, tail, head, expected) in table {
        assert_eq!(rt;
            placed::<f64>(&mut fresh_rows(), number, kind, tail, head, 2.0, 0.0),
            expected
        );
    }
    assert_eq!(rt;
        placed::<f64>(&mut fresh_rows(), 0, RESISTOR, 3, 3, 0.0, 1.0),
        7
    );
}

// Values and starts in binary64.
#[test]
fn values(rt: HostRuntime) {
    let inf = f64::INFINITY;
    let table = [
        (RESISTOR, 0.0, 1.0, 8),
        (INDUCTOR, -0.0, 0.0, 8),
        (CAPACITOR, f64::NAN, 0.0, 8),
        (VOLTAGE, inf, 0.0, 8),
        (VOLTAGE, 0.0, 0.0, 0),
        (CURRENT, -0.0, 0.0, 0),
        (RESISTOR, 2.0, 1.0, 9),
        (RESISTOR, 2.0, -0.0, 0),
        (VOLTAGE, 2.0, 1.0, 9),
        (CURRENT, 2.0, 1.0, 9),
        (CAPACITOR, 2.0, inf, 9),
        (CAPACITOR, 2.0, -3.0, 0),
    ];
    for (kind, value, start, expected) in table {
        assert_eq!(rt;
            placed::<f64>(&mut fresh_rows(), 0, kind, 1, 0, value, start),
            expected
        );
    }
}

// Zero is judged by meaning: 8,191 is zero among the remainders.
#[test]
fn remainders(rt: HostRuntime) {
    let table = [
        (RESISTOR, 8191, 0, 8),
        (RESISTOR, 16382, 0, 8),
        (RESISTOR, 8190, 8191, 0),
        (VOLTAGE, 0, 1, 9),
        (INDUCTOR, 65535, 7, 0),
    ];
    for (kind, value, start, expected) in table {
        assert_eq!(rt;
            placed::<u16>(&mut fresh_rows(), 0, kind, 1, 0, value, start),
            expected
        );
    }
}

// What a branch has once it is placed, lifted and set.
#[test]
fn contents(rt: HostRuntime) -> Result<(), Fail> {
    let mut plan = Plan::empty();
    let mut rows = [row_of(7.0); 32];
    assert_eq!(rt; number_of(plan.blank::<f64>(&mut rows)), 0);
    let coil = Placement {
        number: 3,
        kind: INDUCTOR,
        tail: 2,
        head: 5,
        value: 4.0,
        start: 0.5,
    };
    assert_eq!(rt; number_of(plan.place::<f64>(&mut rows, coil)), 0);
    assert_eq!(rt; number_of(plan.place::<f64>(&mut rows, coil)), 3);
    let seen = plan.look::<f64>(&rows, 3).ok_or("the coil")?;
    assert!(rt; seen.kind == Kind::Inductor && seen.tail == 2 && seen.head == 5);
    assert!(rt;
        seen.value == 4.0 && seen.start == 0.5 && seen.current == 0.5 && seen.voltage == 0.0
    );
    assert!(rt; plan.look::<f64>(&rows, 4).is_none());
    assert!(rt; plan.look::<f64>(&rows, 35).is_none());
    assert_eq!(rt; number_of(plan.set::<f64>(&mut rows, 3, f64::NAN)), 10);
    assert_eq!(rt; number_of(plan.set::<f64>(&mut rows, 4, f64::NAN)), 4);
    assert_eq!(rt; number_of(plan.lift::<f64>(&mut rows, 3)), 0);
    assert_eq!(rt; number_of(plan.lift::<f64>(&mut rows, 3)), 4);
    assert_eq!(rt; number_of(plan.lift::<f64>(&mut rows, 32)), 2);
    assert!(rt; rows[3].value == 0.0 && rows[3].start == 0.0 && rows[3].current == 0.0);
    Ok(())
}

#[test]
fn sources(rt: HostRuntime) -> Result<(), Fail> {
    let mut plan = Plan::empty();
    let mut rows = [row_of(0.0); 32];
    let source = Placement {
        number: 31,
        kind: VOLTAGE,
        tail: 1,
        head: 0,
        value: 6.0,
        start: 0.0,
    };
    assert_eq!(rt; number_of(plan.place::<f64>(&mut rows, source)), 0);
    assert_eq!(rt; number_of(plan.set::<f64>(&mut rows, 31, f64::INFINITY)), 8);
    assert_eq!(rt; number_of(plan.set::<f64>(&mut rows, 31, 0.0)), 0);
    assert_eq!(rt; number_of(plan.set::<f64>(&mut rows, 31, 9.0)), 0);
    assert_eq!(rt; number_of(plan.set::<f64>(&mut rows, 32, 9.0)), 2);
    let seen = plan.look::<f64>(&rows, 31).ok_or("the source")?;
    assert!(rt; seen.value == 9.0 && seen.voltage == 0.0 && seen.current == 0.0);
    Ok(())
}
