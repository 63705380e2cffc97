use crate::{
    FILLED, all_are, number_rows, row_alone, sheet_with, three_entries, tree_alone, two_rows,
    written,
};
use figures::{Trace, reading, reading_of};
use sheet::{Shown, fresh_rows};
use sheet_tests::number_of;
use slips::{SlipRow, entries_of, write_slip};

// The tree of places 0 and 2, and row 1 with -1, +1 and +1.
#[test]
fn known_slip(rt: HostRuntime) {
    let mut area = [FILLED; 300];
    let entries = three_entries();
    assert_eq!(rt;
        written(&mut area, 5, &[SlipRow { number: 1, entries }]),
        Some(13)
    );
    assert!(rt; area[0..6] == [0xA0, 0x00, 0x00, 0x00, 0x0E, 0xA0]);
    assert!(rt; all_are(&area[6..280], 0));
    assert!(rt; all_are(&area[280..300], FILLED));
}

// 279 bytes are never written; 280 are. Bytes from 280 on stay.
#[test]
fn areas(rt: HostRuntime) {
    let entries = three_entries();
    let mut short = [FILLED; 279];
    assert_eq!(rt; row_alone(&mut short, 5, 0, &entries), 17);
    assert_eq!(rt; row_alone(&mut short, 5, 32, &entries), 16);
    assert_eq!(rt; tree_alone(&mut short, 5), None);
    assert!(rt; all_are(&short, FILLED));
    let mut exact = [FILLED; 280];
    assert_eq!(rt; tree_alone(&mut exact, 0x8000_0001), Some(4));
    assert!(rt; exact[0..4] == [0x80, 0x00, 0x00, 0x01]);
    assert!(rt; all_are(&exact[4..280], 0));
    let mut longer = [FILLED; 282];
    assert_eq!(rt; row_alone(&mut longer, 5, 31, &entries), 0);
    assert!(rt; all_are(&longer[0..280], 0));
    assert!(rt; all_are(&longer[280..282], FILLED));
}

// A refused row leaves area and last number, so the slip is that of the first row alone.
#[test]
fn refused_rows(rt: HostRuntime) {
    let entries = three_entries();
    let mut alone = [FILLED; 280];
    assert!(rt; two_rows(&mut alone, [1, 1], &entries, 16, 13));
    assert!(rt; alone[0..6] == [0xA0, 0x00, 0x00, 0x00, 0x0E, 0xA0]);
    assert!(rt; all_are(&alone[6..280], 0));
    let mut area = [FILLED; 280];
    assert!(rt; two_rows(&mut area, [1, 0], &entries, 16, 13));
    assert!(rt; area == alone);
    assert!(rt; two_rows(&mut area, [1, 32], &entries, 16, 13));
    assert!(rt; area == alone);
    assert!(rt; two_rows(&mut area, [1, 2], &entries[0..31], 16, 13));
    assert!(rt; area == alone);
    assert!(rt; two_rows(&mut area, [1, 2], &[2; 32], 16, 13));
    assert!(rt; area == alone);
}

// Row 0 comes first, and row 31 after it: 32 + 2 * 69 bits are 22 bytes.
#[test]
fn two_rows_apart(rt: HostRuntime) {
    let mut area = [FILLED; 280];
    assert!(rt; two_rows(&mut area, [0, 31], &[-1; 32], 0, 22));
    assert!(rt; area[0..6] == [0xA0, 0x00, 0x00, 0x00, 0x06, 0xA0]);
    assert!(rt; all_are(&area[6..12], 0));
    assert_eq!(rt; area[12], 0x07);
    assert!(rt; all_are(&area[13..21], 0xFF));
    assert_eq!(rt; area[21], 0xC0);
    assert!(rt; all_are(&area[22..280], 0));
}

// All 32 rows fill 280 bytes; a row that does not rise blanks them.
#[test]
fn full_slip(rt: HostRuntime) {
    let mut rows = [SlipRow {
        number: 0,
        entries: [-1; 32],
    }; 32];
    number_rows(&mut rows);
    let mut area = [FILLED; 280];
    assert_eq!(rt; written(&mut area, 0xFFFF_FFFF, &rows), Some(280));
    assert_eq!(rt; area[279], 0xFF);
    rows[31].number = 30;
    assert_eq!(rt; number_of(write_slip(&mut area, 1, &rows)), 16);
    assert!(rt; all_are(&area, 0));
}

#[test]
fn signs_of_words(rt: HostRuntime) {
    let entries = entries_of(Shown {
        members: 0x8000_0007,
        against: 0x8000_0009,
    });
    assert_eq!(rt; entries[0], -1);
    assert_eq!(rt; entries[1], 1);
    assert_eq!(rt; entries[2], 1);
    assert_eq!(rt; entries[3], 0);
    assert_eq!(rt; entries[31], -1);
}

// Voltage, and its reading.
#[test]
fn readings(rt: HostRuntime) {
    let table = [
        (0.0625, 63),
        (-0.0625, -63),
        (1.0005, 1001),
        (-1.0005, -1001),
        (0.0005, 1),
        (0.0004999, 0),
        (-0.0, 0),
        (999999.9994, 999_999_999),
        (-999999.9994, -999_999_999),
    ];
    for (voltage, expected) in table {
        assert_eq!(rt; reading_of(voltage).ok(), Some(expected));
    }
    for voltage in [
        999999.9995,
        -999999.9995,
        1e6,
        1e300,
        1e308,
        f64::INFINITY,
        f64::NAN,
    ] {
        assert_eq!(rt; number_of(reading_of(voltage)), 18);
    }
}

// 63 at place 3, and the refusals in order.
#[test]
fn readings_of_a_sheet(rt: HostRuntime) {
    let mut rows = fresh_rows::<f64>();
    let plan = sheet_with(&mut rows, 0.0625);
    assert_eq!(rt; reading(&plan, &rows, 3).ok(), Some(63));
    assert_eq!(rt; number_of(reading(&plan, &rows, 4)), 4);
    assert_eq!(rt; number_of(reading(&plan, &rows, 32)), 2);
    assert_eq!(rt; number_of(reading(&plan, &rows[0..31], 32)), 1);
}

#[test]
fn traces(rt: HostRuntime) {
    let mut trace = Trace::fresh();
    assert_eq!(rt; number_of(trace.take(f64::INFINITY)), 19);
    assert_eq!(rt; number_of(trace.take(f64::NAN)), 19);
    assert_eq!(rt; trace.count(), 0);
    assert_eq!(rt; number_of(trace.take(0.0)), 0);
    assert_eq!(rt; number_of(trace.take(-0.0)), 0);
    assert!(rt; 1.0 / trace.least() > 0.0);
    assert!(rt; 1.0 / trace.last() < 0.0);
    assert_eq!(rt; number_of(trace.take(-2.5)), 0);
    assert_eq!(rt; number_of(trace.take(7.0)), 0);
    assert_eq!(rt; number_of(trace.take(1.5)), 0);
    assert!(rt; trace.least() == -2.5);
    assert!(rt; trace.greatest() == 7.0);
    assert!(rt; trace.last() == 1.5);
    assert_eq!(rt; trace.count(), 5);
}

// 1,000,000 voltages are held; the next is refused and changes nothing.
#[test]
fn full_trace(rt: HostRuntime) {
    let mut trace = Trace::fresh();
    for _ in 0..1_000_000 {
        let _ = trace.take(3.0);
    }
    assert_eq!(rt; trace.count(), 1_000_000);
    assert_eq!(rt; number_of(trace.take(9.0)), 20);
    assert_eq!(rt; number_of(trace.take(f64::NAN)), 19);
    assert!(rt; trace.greatest() == 3.0);
    assert!(rt; trace.last() == 3.0);
    assert_eq!(rt; trace.count(), 1_000_000);
}
