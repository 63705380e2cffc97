use super::*;
use sheet::Shown;
use std::test::Fail;

// A source of 6, a resistor of 2 and a capacitor of 1 in a loop.
const LOW_PASS: [(Kind, u32, u32, f64, f64); 3] = [
    (Kind::VoltageSource, 1, 0, 6.0, 0.0),
    (Kind::Resistor, 1, 2, 2.0, 0.0),
    (Kind::Capacitor, 2, 0, 1.0, 0.0),
];

// Its figures after a step of length 1: currents -2, 2, 2 and voltages 6, 4, 2.
const LOW_PASS_FIGURES: [(u64, u64); 3] = [
    (0xc000000000000000, 0x4018000000000000),
    (0x4000000000000000, 0x4010000000000000),
    (0x4000000000000000, 0x4000000000000000),
];

// A work area of 303 places is refused by 1 before its length is asked for, 304 places end as zeros, and the 305th is
// never touched.
#[test]
fn work_areas(rt: HostRuntime) -> Result<(), Fail> {
    let mut rows = [row_of(0.0); 32];
    let plan = drawn(&mut rows, &LOW_PASS)?;
    let before = rows;
    let mut short = [7.0; 303];
    assert_eq!(rt; number_of(step(&plan, &mut rows, 1.0, &mut short)), 1);
    assert_eq!(rt; number_of(step(&plan, &mut rows, 0.0, &mut short)), 1);
    assert!(rt; all_are(&short, 7.0) && are_same(&rows, &before));
    let mut exact = [7.0; 304];
    assert_eq!(rt; number_of(step(&plan, &mut rows, 1.0, &mut exact)), 0);
    assert!(rt; all_are(&exact, 0.0) && shows_all(&plan, &rows, &LOW_PASS_FIGURES));
    rows = before;
    let mut longer = [7.0; 305];
    assert_eq!(rt; number_of(step(&plan, &mut rows, 1.0, &mut longer)), 0);
    assert!(rt; all_are(&longer[0..304], 0.0) && longer[304] == 7.0);
    assert!(rt; shows_all(&plan, &rows, &LOW_PASS_FIGURES));
    Ok(())
}

// Only 32 rows are a row table.
#[test]
fn row_tables(rt: HostRuntime) -> Result<(), Fail> {
    let plan = drawn(&mut [row_of(0.0); 32], &LOW_PASS)?;
    let mut work = [7.0; 304];
    let mut few = [row_of(3.0); 31];
    assert_eq!(rt; number_of(step(&plan, &mut few, 1.0, &mut work)), 1);
    assert!(rt; are_same(&few, &[row_of(3.0); 31]));
    let mut many = [row_of(3.0); 33];
    assert_eq!(rt; number_of(step(&plan, &mut many, 0.0, &mut work)), 1);
    assert!(rt; are_same(&many, &[row_of(3.0); 33]) && all_are(&work, 7.0));
    Ok(())
}

// 11 for what is unsound or zero; a negative length is granted.
#[test]
fn step_lengths(rt: HostRuntime) -> Result<(), Fail> {
    let mut rows = [row_of(0.0); 32];
    let plan = drawn(&mut rows, &LOW_PASS)?;
    let before = rows;
    let mut work = [7.0; 304];
    let lengths = [0.0, -0.0, f64::INFINITY, f64::NEG_INFINITY, f64::NAN];
    assert!(rt; are_refused(&plan, &mut rows, &lengths, &mut work, 11));
    assert!(rt; all_are(&work, 7.0) && are_same(&rows, &before));
    let figures = [
        (0xc00b6db6db6db6db, 0x4018000000000000),
        (0x400b6db6db6db6db, 0x401b6db6db6db6db),
        (0x400b6db6db6db6db, 0xbfeb6db6db6db6db),
    ];
    assert!(rt; follows(&plan, &mut rows, -0.25, &mut work, &[&figures]));
    assert!(rt; all_are(&work, 0.0));
    Ok(())
}

// Two voltage sources side by side are 12, after 11; two current sources in a ring are 13. Both leave rows and work area.
#[test]
fn loops_and_cuts(rt: HostRuntime) -> Result<(), Fail> {
    let mut rows = [row_of(0.0); 32];
    let mut work = [7.0; 304];
    let source = (Kind::VoltageSource, 1, 0, 1.0, 0.0);
    let looped = drawn(&mut rows, &[source, source])?;
    let before = rows;
    assert_eq!(rt; number_of(step(&looped, &mut rows, 0.0, &mut work)), 11);
    assert_eq!(rt;
        step(&looped, &mut rows, 1.0, &mut work),
        Err(Refusal::VoltageLoop(Shown {
            members: 0b11,
            against: 0b01,
        }))
    );
    assert!(rt; all_are(&work, 7.0) && are_same(&rows, &before));
    let cut = drawn(
        &mut rows,
        &[
            (Kind::CurrentSource, 1, 0, 1.0, 0.0),
            (Kind::CurrentSource, 0, 1, 1.0, 0.0),
        ],
    )?;
    let before = rows;
    assert_eq!(rt;
        step(&cut, &mut rows, 1.0, &mut work),
        Err(Refusal::CurrentCut(Shown {
            members: 0b11,
            against: 0b10,
        }))
    );
    assert!(rt; all_are(&work, 7.0) && are_same(&rows, &before));
    Ok(())
}

// Modulo 8,191 resistors of 1 and 8190 side by side have no pivot: 14.
#[test]
fn no_pivot(rt: HostRuntime) -> Result<(), Fail> {
    let mut rows = [row_of(0); 32];
    let plan = drawn(
        &mut rows,
        &[
            (Kind::Resistor, 1, 0, 1, 0),
            (Kind::Resistor, 1, 0, 8190, 0),
        ],
    )?;
    let before = rows;
    let mut work = [7; 305];
    assert_eq!(rt; number_of(step(&plan, &mut rows, 8191, &mut work)), 11);
    assert!(rt; all_are(&work, 7));
    assert_eq!(rt; number_of(step(&plan, &mut rows, 1, &mut work)), 14);
    assert!(rt; all_are(&work[0..304], 0) && work[304] == 7);
    assert!(rt; are_same(&rows, &before));
    Ok(())
}

// A current of 2^1000 through a resistor of 2^1000 has no finite voltage: 15.
#[test]
fn unsound_result(rt: HostRuntime) -> Result<(), Fail> {
    let large = 1.0715086071862673e301;
    let mut rows = [row_of(0.0); 32];
    let plan = drawn(
        &mut rows,
        &[
            (Kind::CurrentSource, 1, 0, large, 0.0),
            (Kind::Resistor, 1, 0, large, 0.0),
        ],
    )?;
    assert_eq!(rt; large.code(), 0x7e70000000000000);
    let before = rows;
    let mut work = [7.0; 304];
    assert_eq!(rt; number_of(step(&plan, &mut rows, 1.0, &mut work)), 15);
    assert!(rt; all_are(&work, 0.0) && are_same(&rows, &before));
    Ok(())
}

// Modulo 8,191: the low pass, and a blank sheet, whose rows stay whatever they hold.
#[test]
fn low_pass_and_blank(rt: HostRuntime) -> Result<(), Fail> {
    let mut rows = [row_of(0); 32];
    let plan = drawn(
        &mut rows,
        &[
            (Kind::VoltageSource, 1, 0, 6, 0),
            (Kind::Resistor, 1, 2, 2, 0),
            (Kind::Capacitor, 2, 0, 1, 0),
        ],
    )?;
    let mut work = [7; 304];
    let figures = [(8189, 6), (2, 4), (2, 2)];
    assert!(rt; follows(&plan, &mut rows, 1, &mut work, &[&figures]));
    assert!(rt; all_are(&work, 0));
    let mut filled = [row_of(9000); 32];
    assert_eq!(rt;
        number_of(step(&Plan::empty(), &mut filled, 1, &mut work)),
        0
    );
    assert!(rt; are_same(&filled, &[row_of(9000); 32]) && filled[31].current == 9000);
    Ok(())
}

// A coil behind a resistor: three steps.
#[test]
fn coil(rt: HostRuntime) -> Result<(), Fail> {
    let mut rows = [row_of(0.0); 32];
    let plan = drawn(
        &mut rows,
        &[
            (Kind::VoltageSource, 1, 0, 10.0, 0.0),
            (Kind::Resistor, 1, 2, 5.0, 0.0),
            (Kind::Inductor, 2, 0, 1.0, 0.0),
        ],
    )?;
    let steps: [&[(u64, u64)]; 3] = [
        &[
            (0xbff1c71c71c71c72, 0x4024000000000000),
            (0x3ff1c71c71c71c72, 0x401638e38e38e38e),
            (0x3ff1c71c71c71c72, 0x4011c71c71c71c72),
        ],
        &[
            (0xbff9add3c0ca4588, 0x4024000000000000),
            (0x3ff9add3c0ca4588, 0x40200ca4587e6b75),
            (0x3ff9add3c0ca4588, 0x3fff9add3c0ca458),
        ],
        &[
            (0xbffd30cfe3e81ee8, 0x4024000000000000),
            (0x3ffd30cfe3e81ee7, 0x40223e81ee711350),
            (0x3ffd30cfe3e81ee8, 0x3fec17e118eecb00),
        ],
    ];
    assert!(rt; follows(&plan, &mut rows, 0.25, &mut [7.0; 304], &steps));
    Ok(())
}

// Resistor, coil and capacitor in a row: four steps.
#[test]
fn resonance(rt: HostRuntime) -> Result<(), Fail> {
    let mut rows = [row_of(0.0); 32];
    let plan = drawn(
        &mut rows,
        &[
            (Kind::VoltageSource, 1, 0, 1.0, 0.0),
            (Kind::Resistor, 1, 2, 1.0, 0.0),
            (Kind::Inductor, 2, 3, 1.0, 0.0),
            (Kind::Capacitor, 3, 0, 1.0, 0.0),
        ],
    )?;
    let steps: [&[(u64, u64)]; 4] = [
        &[
            (0xbfd2492492492492, 0x3ff0000000000000),
            (0x3fd2492492492492, 0x3fd2492492492492),
            (0x3fd2492492492492, 0x3fe2492492492492),
            (0x3fd2492492492493, 0x3fc2492492492493),
        ],
        &[
            (0xbfda1f58d0fac688, 0x3ff0000000000000),
            (0x3fda1f58d0fac688, 0x3fda1f58d0fac688),
            (0x3fda1f58d0fac688, 0x3fcf58d0fac687d6),
            (0x3fda1f58d0fac687, 0x3fd6343eb1a1f58d),
        ],
        &[
            (0xbfdade69fb859902, 0x3ff0000000000000),
            (0x3fdade69fb859901, 0x3fdade69fb859901),
            (0x3fdade69fb859902, 0x3f97e225515a4f40),
            (0x3fdade69fb8598fe, 0x3fe1d1b9d7b26106),
        ],
        &[
            (0xbfd774f6efe66923, 0x3ff0000000000000),
            (0x3fd774f6efe66923, 0x3fd774f6efe66923),
            (0x3fd774f6efe66923, 0xbfbb4b985cf97ef8),
            (0x3fd774f6efe6691c, 0x3fe7aef793abfb4d),
        ],
    ];
    assert!(rt; follows(&plan, &mut rows, 0.5, &mut [7.0; 304], &steps));
    Ok(())
}

// The same two circuits modulo 8,191.
#[test]
fn coil_and_resonance(rt: HostRuntime) -> Result<(), Fail> {
    let mut rows = [row_of(0); 32];
    let coil = drawn(
        &mut rows,
        &[
            (Kind::VoltageSource, 1, 0, 10, 0),
            (Kind::Resistor, 1, 2, 5, 0),
            (Kind::Inductor, 2, 0, 1, 0),
        ],
    )?;
    let steps: [&[(u64, u64)]; 3] = [
        &[(5459, 10), (2732, 5469), (2732, 2732)],
        &[(7734, 10), (457, 2285), (457, 5916)],
        &[(6748, 10), (1443, 7215), (1443, 986)],
    ];
    assert!(rt; follows(&coil, &mut rows, 1, &mut [7; 304], &steps));
    let resonance = drawn(
        &mut rows,
        &[
            (Kind::VoltageSource, 1, 0, 1, 0),
            (Kind::Resistor, 1, 2, 1, 0),
            (Kind::Inductor, 2, 3, 1, 0),
            (Kind::Capacitor, 3, 0, 1, 0),
        ],
    )?;
    let steps: [&[(u64, u64)]; 4] = [
        &[(2730, 1), (5461, 5461), (5461, 5461), (5461, 5461)],
        &[(2730, 1), (5461, 5461), (5461, 0), (5461, 2731)],
        &[(1820, 1), (6371, 6371), (6371, 910), (6371, 911)],
        &[(910, 1), (7281, 7281), (7281, 910), (7281, 1)],
    ];
    assert!(rt; follows(&resonance, &mut rows, 1, &mut [7; 304], &steps));
    Ok(())
}

// Place, step, set the source, step, lift the branch at place 3, step.
#[test]
fn story(rt: HostRuntime) -> Result<(), Fail> {
    let mut rows = [row_of(0.0); 32];
    let mut plan = drawn(
        &mut rows,
        &[
            (Kind::VoltageSource, 1, 0, 6.0, 0.0),
            (Kind::Resistor, 1, 2, 2.0, 0.0),
            (Kind::Capacitor, 2, 0, 1.0, 0.0),
            (Kind::Resistor, 2, 0, 3.0, 0.0),
        ],
    )?;
    let mut work = [7.0; 304];
    let first = [
        (0xc006e46e46e46e47, 0x4018000000000000),
        (0x4006e46e46e46e47, 0x4016e46e46e46e47),
        (0x4006276276276275, 0x3fd1b91b91b91b91),
        (0x3fb7a17a17a17a16, 0x3fd1b91b91b91b91),
    ];
    assert!(rt; follows(&plan, &mut rows, 0.1, &mut work, &[&first]));
    plan.set(&mut rows, 0, -7.0)?;
    assert!(rt; shows_all(&plan, &rows, &first));
    let second = [
        (0x400bbaece9e24f60, 0xc01c000000000000),
        (0xc00bbaece9e24f60, 0xc01bbaece9e24f60),
        (0xc00b8ce030792ef5, 0xbfb144c5876c2801),
        (0xbf97065cb4903556, 0xbfb144c5876c2801),
    ];
    assert!(rt; follows(&plan, &mut rows, 0.1, &mut work, &[&second]));
    plan.lift(&mut rows, 3)?;
    assert!(rt; shows_all(&plan, &rows, &second[0..3]));
    let third = [
        (0x400a68e1a1cb57c9, 0xc01c000000000000),
        (0xc00a68e1a1cb57c9, 0xc01a68e1a1cb57c9),
        (0xc00a68e1a1cb57ca, 0xbfd971e5e34a836e),
    ];
    assert!(rt; follows(&plan, &mut rows, 0.1, &mut work, &[&third]));
    assert!(rt; plan.look(&rows, 3).is_none() && are_same(&rows[3..32], &[row_of(0.0); 29]));
    Ok(())
}

// The same story modulo 8,191, with 8192 as a step of 1 and 16381 as a source of -1.
#[test]
fn story_of_remainders(rt: HostRuntime) -> Result<(), Fail> {
    let mut rows = [row_of(0); 32];
    let mut plan = drawn(
        &mut rows,
        &[
            (Kind::VoltageSource, 1, 0, 6, 0),
            (Kind::Resistor, 1, 2, 2, 0),
            (Kind::Capacitor, 2, 0, 1, 0),
            (Kind::Resistor, 2, 0, 3, 0),
        ],
    )?;
    let mut work = [7; 304];
    let first = [(3721, 6), (4470, 749), (7448, 7448), (5213, 7448)];
    assert!(rt; follows(&plan, &mut rows, 8192, &mut work, &[&first]));
    plan.set(&mut rows, 0, 16381)?;
    assert!(rt; shows_all(&plan, &rows, &first));
    let second = [(1287, 8190), (6904, 5617), (3316, 2573), (3588, 2573)];
    assert!(rt; follows(&plan, &mut rows, 8192, &mut work, &[&second]));
    plan.lift(&mut rows, 3)?;
    let third = [(858, 8190), (7333, 6475), (7333, 1715)];
    assert!(rt; follows(&plan, &mut rows, 8192, &mut work, &[&third]));
    Ok(())
}

// The bits of these figures tell a fused multiply-add, sums by descending number, the largest entry as pivot, a product
// with 1 / pivot and other ways to step from the stated one: `ways_told_apart` in reference/generate.py.
#[test]
fn order_and_rounding(rt: HostRuntime) -> Result<(), Fail> {
    let mut rows = [row_of(0.0); 32];
    let plan = drawn(
        &mut rows,
        &[
            (Kind::Inductor, 2, 4, 1.1, -6.6),
            (Kind::Resistor, 4, 3, -3.9, 0.0),
            (Kind::Resistor, 4, 0, 6.6, 0.0),
            (Kind::Capacitor, 1, 3, 4.9, 3.0),
            (Kind::VoltageSource, 1, 0, 0.8, 0.0),
            (Kind::CurrentSource, 3, 4, 7.9, 0.0),
            (Kind::VoltageSource, 0, 2, 5.7, 0.0),
        ],
    )?;
    let figures = [
        (0x3ff1ff0351b38888, 0x40553e3af87141dd),
        (0x4036c3538f2b1c30, 0xc05631a4ab96d514),
        (0xc02b79f9e752fa81, 0xc056ab07c53e0eaa),
        (0xc02db9da51896b90, 0x400592c99b4d992e),
        (0x402db9da51896b92, 0x3fe999999999999a),
        (0x401f99999999999a, 0x405631a4ab96d514),
        (0x3ff1ff0351b38888, 0x4016cccccccccccd),
    ];
    assert!(rt; follows(&plan, &mut rows, 0.1, &mut [7.0; 304], &[&figures]));
    Ok(())
}

// These tell going back by descending columns, a resistor's current without a zero added and a link's voltage as a
// negative apart.
#[test]
fn columns_and_zeros(rt: HostRuntime) -> Result<(), Fail> {
    let mut rows = [row_of(0.0); 32];
    let plan = drawn(
        &mut rows,
        &[
            (Kind::Resistor, 4, 3, -3.0, 0.0),
            (Kind::Resistor, 3, 0, -0.3, 0.0),
            (Kind::Capacitor, 3, 2, -0.3, -0.7),
            (Kind::Capacitor, 4, 0, 3.0, -0.0),
            (Kind::VoltageSource, 1, 0, 0.7, 0.0),
            (Kind::Resistor, 1, 2, -0.3, 0.0),
        ],
    )?;
    let figures = [
        (0x3c61d7e74280003f, 0xbc7ac3dae3c0005f),
        (0x3c51d7e74280003e, 0xbc35697be96666b0),
        (0x0000000000000000, 0xbfe6666666666666),
        (0xbca513d5f9c0cd18, 0xbc7c1a72a25666ca),
        (0x0000000000000000, 0x3fe6666666666666),
        (0x0000000000000000, 0x0000000000000000),
    ];
    assert!(rt; follows(&plan, &mut rows, 0.5, &mut [7.0; 304], &[&figures]));
    Ok(())
}

// The source's current is one sum by ascending number, not what leaves after what enters.
#[test]
fn current_of_a_source(rt: HostRuntime) -> Result<(), Fail> {
    let mut rows = [row_of(0.0); 32];
    let plan = drawn(
        &mut rows,
        &[
            (Kind::VoltageSource, 1, 0, 2.875, 0.0),
            (Kind::Capacitor, 0, 1, 5.125, 0.03),
            (Kind::Resistor, 1, 0, 0.017, 0.0),
            (Kind::Resistor, 0, 1, 9.940806710056163, 0.0),
        ],
    )?;
    let figures = [
        (0xc034868e4fb71e15, 0x4007000000000000),
        (0x40629c3333333333, 0xc007000000000000),
        (0x406523c3c3c3c3c3, 0x4007000000000000),
        (0xbfd28272cca66559, 0xc007000000000000),
    ];
    assert!(rt; follows(&plan, &mut rows, -0.1, &mut [7.0; 304], &[&figures]));
    Ok(())
}

// An infinity inside the system is a pivot, and the step is granted where no result is unsound; a NaN is a pivot too,
// and 15 is met, not 14.
#[test]
fn unsound_pivots(rt: HostRuntime) -> Result<(), Fail> {
    let mut rows = [row_of(0.0); 32];
    let tiny = (Kind::Resistor, 1, 0, f64::MIN_POSITIVE, 0.0);
    let infinite = drawn(
        &mut rows,
        &[
            tiny,
            tiny,
            tiny,
            tiny,
            (Kind::CurrentSource, 0, 1, 1.0, 0.0),
        ],
    )?;
    let figures = [(0, 0), (0, 0), (0, 0), (0, 0), (0x3ff0000000000000, 0)];
    let mut work = [7.0; 304];
    assert!(rt; follows(&infinite, &mut rows, 1.0, &mut work, &[&figures]));
    let no_number = drawn(
        &mut rows,
        &[
            (Kind::Resistor, 1, 0, 5e-324, 0.0),
            (Kind::Resistor, 1, 0, -5e-324, 0.0),
        ],
    )?;
    assert_eq!(rt; number_of(step(&no_number, &mut rows, 1.0, &mut work)), 15);
    assert!(rt; all_are(&work, 0.0));
    Ok(())
}
