// The slip of a known circuit, and of circuits without a tree.
use crate::write_plan_slip;
use sheet::{Kind, Placement, Plan, Refusal, Shown, fresh_rows};
use std::test::Fail;

// The branches of a list at the places 0, 1 and so on. The test crates draw such lists too; no plainer: this crate would
// have to stand on one of them.
fn drawn(branches: &[(Kind, u32, u32)]) -> Result<Plan, Refusal> {
    let mut rows = fresh_rows();
    let mut plan = Plan::empty();
    for (number, (kind, tail, head)) in (0..u32::MAX).zip(branches) {
        plan.place(
            &mut rows,
            Placement {
                number,
                kind: u32::from(*kind),
                tail: *tail,
                head: *head,
                value: 1.0,
                start: 0.0,
            },
        )?;
    }
    Ok(plan)
}

// A source, a resistor and a capacitor in a loop: the tree is 0 2, and the loop of 1 is -0 +1 +2.
#[test]
fn known_slip(rt: HostRuntime) -> Result<(), Fail> {
    let plan = drawn(&[
        (Kind::VoltageSource, 1, 0),
        (Kind::Resistor, 1, 2),
        (Kind::Capacitor, 2, 0),
    ])?;
    let mut area = [7u8; 281];
    assert_eq!(rt; write_plan_slip(&mut area, &plan), Ok(13));
    assert!(rt; area[0..13] == [0xa0, 0, 0, 0, 0x0e, 0xa0, 0, 0, 0, 0, 0, 0, 0]);
    assert!(rt; area[13] == 0 && area[279] == 0 && area[280] == 7);
    Ok(())
}

// Two sources side by side: refusal 12 with their loop, and the area is left alone.
#[test]
fn no_slip(rt: HostRuntime) -> Result<(), Fail> {
    let plan = drawn(&[(Kind::VoltageSource, 1, 0), (Kind::VoltageSource, 1, 0)])?;
    let shown = Shown {
        members: 0b11,
        against: 0b01,
    };
    let mut area = [7u8; 280];
    assert_eq!(rt;
        write_plan_slip(&mut area, &plan),
        Err(Refusal::VoltageLoop(shown))
    );
    assert!(rt; area[0] == 7 && area[279] == 7);
    Ok(())
}
