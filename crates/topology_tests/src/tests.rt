use super::*;
use sheet::Shown;
use std::test::Fail;
use topology::{Sign, cut_row, incidence, loop_row, tree};

fn shown(members: u32, against: u32) -> Shown {
    Shown { members, against }
}

// Refused also for a number that no branch can have.
#[test]
fn two_voltage_sources_close_a_loop(rt: HostRuntime) -> Result<(), Fail> {
    let plan = drawn(&[(Kind::VoltageSource, 1, 0), (Kind::VoltageSource, 1, 0)])?;
    let met = Refusal::VoltageLoop(shown(0b11, 0b01));
    assert_eq!(rt; tree(&plan), Err(met));
    assert_eq!(rt; loop_row(&plan, 40), Err(met));
    assert_eq!(rt; cut_row(&plan, 40), Err(met));
    Ok(())
}

#[test]
fn two_current_sources_are_a_cut(rt: HostRuntime) -> Result<(), Fail> {
    let plan = drawn(&[(Kind::CurrentSource, 1, 0), (Kind::CurrentSource, 0, 1)])?;
    let met = Refusal::CurrentCut(shown(0b11, 0b10));
    assert_eq!(rt; tree(&plan), Err(met));
    assert_eq!(rt; loop_row(&plan, 0), Err(met));
    assert_eq!(rt; cut_row(&plan, 0), Err(met));
    Ok(())
}

#[test]
fn loop_rows(rt: HostRuntime) -> Result<(), Fail> {
    let plan = drawn(&[
        (Kind::Inductor, 1, 2),
        (Kind::Inductor, 1, 4),
        (Kind::Resistor, 3, 4),
        (Kind::Capacitor, 2, 3),
        (Kind::Resistor, 2, 3),
    ])?;
    assert_eq!(rt; tree(&plan), Ok(0b01101));
    assert_eq!(rt; loop_row(&plan, 1), Ok(Some(shown(0b01111, 0b01101))));
    assert_eq!(rt; loop_row(&plan, 4), Ok(Some(shown(0b11000, 0b01000))));
    assert_eq!(rt; loop_row(&plan, 0), Ok(None));
    assert_eq!(rt; loop_row(&plan, 40), Ok(None));
    Ok(())
}

#[test]
fn cut_rows_and_incidence(rt: HostRuntime) -> Result<(), Fail> {
    let plan = drawn(&[
        (Kind::VoltageSource, 1, 0),
        (Kind::Capacitor, 1, 2),
        (Kind::Resistor, 2, 0),
    ])?;
    assert_eq!(rt; tree(&plan), Ok(0b011));
    assert_eq!(rt; cut_row(&plan, 0), Ok(Some(shown(0b101, 0b000))));
    assert_eq!(rt; cut_row(&plan, 1), Ok(Some(shown(0b110, 0b100))));
    assert_eq!(rt; cut_row(&plan, 2), Ok(None));
    assert_eq!(rt; incidence(&plan, 1, 1), Sign::Plus);
    assert_eq!(rt; incidence(&plan, 2, 1), Sign::Minus);
    assert_eq!(rt; incidence(&plan, 0, 1), Sign::Zero);
    assert_eq!(rt; incidence(&plan, 0, 3), Sign::Zero);
    assert_eq!(rt; incidence(&plan, 99, 99), Sign::Zero);
    Ok(())
}
