// Hard texts, each with the fault that it meets, or `Ok` where it is accepted.
use crate::answer::{Answer, answer_of};
use arithmetic::Arithmetic;
use cards::Layer;
use sheet::{Row, fresh_rows};
use std::process::Abort;

const CARDS: Layer = Layer::Cards;

const SHEET: Layer = Layer::Sheet;

type Case = (&'static [u8], Answer);

// Each text has its answer, on rows that may hold anything.
fn all_answer<N: Arithmetic>(rt: &impl Abort, cases: &[Case], rows: &mut [Row<N>]) {
    for (text, expected) in cases {
        assert_eq!(rt; answer_of(text, rows), *expected);
    }
}

static IN_DRAWING: [Case; 104] = [
    // Letters and what stands first on a line.
    (b"", Ok(())),
    (b"   ", Ok(())),
    (b"* R1 1 1 2", Ok(())),
    (b"   *x", Ok(())),
    (b"\n\n*\n", Ok(())),
    (b"\r", Err((CARDS, 21, 1, 1))),
    (b"\tV0 1 0 6", Err((CARDS, 21, 1, 1))),
    (b"v0 1 0 6", Err((CARDS, 21, 1, 1))),
    (b"   X1", Err((CARDS, 21, 1, 4))),
    (b"-R0 1 2 3", Err((CARDS, 21, 1, 1))),
    (b"0 1 2 3", Err((CARDS, 21, 1, 1))),
    (b"\0", Err((CARDS, 21, 1, 1))),
    (b"V0 1 0 6\n *\nr", Err((CARDS, 21, 3, 1))),
    (b"\xc3\xa9", Err((CARDS, 21, 1, 1))),
    (b" **\n+", Err((CARDS, 21, 2, 1))),
    // The number after the letter is a field, even if empty.
    (b"V", Err((CARDS, 22, 1, 2))),
    (b"V   ", Err((CARDS, 22, 1, 2))),
    (b"V 1 0 6", Err((CARDS, 22, 1, 2))),
    (b"   V 1 0 6", Err((CARDS, 22, 1, 5))),
    (b"R1234567 1 2 3", Err((CARDS, 22, 1, 2))),
    (b"R000001 1 2 3", Ok(())),
    (b"R0000001 1 2 3", Err((CARDS, 22, 1, 2))),
    (b"R1/2 1 2 3", Err((CARDS, 22, 1, 2))),
    (b"R-1 1 2 3", Err((CARDS, 22, 1, 2))),
    (b"R+1 1 2 3", Err((CARDS, 22, 1, 2))),
    (b"R1. 1 2 3", Err((CARDS, 22, 1, 2))),
    (b"RR 1 2 3", Err((CARDS, 22, 1, 2))),
    (b"R1* 1 2 3", Err((CARDS, 22, 1, 2))),
    (b"C31x 1 2 3", Err((CARDS, 22, 1, 2))),
    // Tail and head: digits alone, and one past the line where they are missing.
    (b"V0", Err((CARDS, 22, 1, 3))),
    (b"V0  ", Err((CARDS, 22, 1, 5))),
    (b"V0 1", Err((CARDS, 22, 1, 5))),
    (b"V0 1   ", Err((CARDS, 22, 1, 8))),
    (b"V0 1/2 0 6", Err((CARDS, 22, 1, 4))),
    (b"V0 1 0/1 6", Err((CARDS, 22, 1, 6))),
    (b"V0 -1 0 6", Err((CARDS, 22, 1, 4))),
    (b"V0 1 -0 6", Err((CARDS, 22, 1, 6))),
    (b"V0 1234567 0 6", Err((CARDS, 22, 1, 4))),
    (b"V0 1 0x 6", Err((CARDS, 22, 1, 6))),
    (b"V0\t1 0 6", Err((CARDS, 22, 1, 2))),
    (b"V0  a  0 6", Err((CARDS, 22, 1, 5))),
    (b"V0 1  b 6", Err((CARDS, 22, 1, 7))),
    (b"V0 015 00 6", Ok(())),
    (b"V0 1 \r", Err((CARDS, 22, 1, 6))),
    // Values: digits, or digits over digits; a minus on sources alone.
    (b"V0 1 0", Err((CARDS, 22, 1, 7))),
    (b"V0 1 0  ", Err((CARDS, 22, 1, 9))),
    (b"V0 1 0 6\r", Err((CARDS, 22, 1, 8))),
    (b"V0 1 0 1/", Err((CARDS, 22, 1, 8))),
    (b"V0 1 0 /1", Err((CARDS, 22, 1, 8))),
    (b"V0 1 0 -", Err((CARDS, 22, 1, 8))),
    (b"V0 1 0 --1", Err((CARDS, 22, 1, 8))),
    (b"V0 1 0 1/-2", Err((CARDS, 22, 1, 8))),
    (b"V0 1 0 +1", Err((CARDS, 22, 1, 8))),
    (b"V0 1 0 1//2", Err((CARDS, 22, 1, 8))),
    (b"V0 1 0 1.5", Err((CARDS, 22, 1, 8))),
    (b"V0 1 0 1234567", Err((CARDS, 22, 1, 8))),
    (b"V0 1 0 1/1234567", Err((CARDS, 22, 1, 8))),
    (b"V0 1 0 123456/654321", Ok(())),
    (b"V0 1 0 1/2/3", Err((CARDS, 22, 1, 8))),
    // Minus signs, and zero denominators.
    (b"R0 1 0 -1", Err((CARDS, 22, 1, 8))),
    (b"L0 1 0 -1", Err((CARDS, 22, 1, 8))),
    (b"C0 1 0 -0", Err((CARDS, 22, 1, 8))),
    (b"V0 1 0 -1", Ok(())),
    (b"I0 1 0 -1/2", Ok(())),
    (b"V0 1 0 -0", Ok(())),
    (b"V0 1 0 0/0", Err((CARDS, 23, 1, 8))),
    (b"V0 1 0 -0/0", Err((CARDS, 23, 1, 8))),
    (b"V0 1 0 1/0", Err((CARDS, 23, 1, 8))),
    (b"V0 1 0 1/000000", Err((CARDS, 23, 1, 8))),
    (b"R0 1 0 -1/0", Err((CARDS, 22, 1, 8))),
    (b"C0 1 2 1/0 x", Err((CARDS, 23, 1, 8))),
    (b"V40 1 1 5/0", Err((CARDS, 23, 1, 9))),
    (b"V0 1 0 -/2", Err((CARDS, 22, 1, 8))),
    (b"I0 1 0 6-", Err((CARDS, 22, 1, 8))),
    // Starts, and fields left over.
    (b"C0 1 2 1 -0", Ok(())),
    (b"C0 1 2 1 -3/4", Ok(())),
    (b"L0 1 2 1 -", Err((CARDS, 22, 1, 10))),
    (b"L0 1 2 1 1/0", Err((CARDS, 23, 1, 10))),
    (b"C0 1 2 1 *", Err((CARDS, 22, 1, 10))),
    (b"R0 1 2 1 *", Err((CARDS, 24, 1, 10))),
    (b"R0 1 2 1 0", Err((CARDS, 24, 1, 10))),
    (b"V0 1 2 1 0", Err((CARDS, 24, 1, 10))),
    (b"I0 1 2 1 x", Err((CARDS, 24, 1, 10))),
    (b"C0 1 2 1 1 0", Err((CARDS, 24, 1, 12))),
    (b"L0 1 2 1 1  0  ", Err((CARDS, 24, 1, 13))),
    (b"R99 1 1 0 j", Err((CARDS, 24, 1, 11))),
    (b"L0 1 2 -1 x", Err((CARDS, 22, 1, 8))),
    (b"L0 1 2 1 1/", Err((CARDS, 22, 1, 10))),
    (b"   C0  1  2  1  0  9", Err((CARDS, 24, 1, 20))),
    // What the sheet refuses is at byte 1.
    (b"   R1 1 1 2", Err((SHEET, 7, 1, 1))),
    (b"V0 16 16 1", Err((SHEET, 6, 1, 1))),
    (b"V32 1 1 1", Err((SHEET, 2, 1, 1))),
    (b"R0 1 2 0", Err((SHEET, 8, 1, 1))),
    (b"L0 1 2 0/5", Err((SHEET, 8, 1, 1))),
    (b"C999999 1 2 3", Err((SHEET, 2, 1, 1))),
    (b"V0 1 0 6\nV0 1 0 6", Err((SHEET, 3, 2, 1))),
    (b"V0 1 0 6\n\n*\n  V0 1 0 6", Err((SHEET, 3, 4, 1))),
    (b"V0 1 0 6\nR1 1 2 2\nC2 2 0 1", Ok(())),
    (b"V0 1 0 6\nR1 1 2 2\nC2 2 0 1\n", Ok(())),
    (b"V0 1 0 0", Ok(())),
    (b"I31 15 0 0/1", Ok(())),
    (b"V0 1 16 1\nx", Err((SHEET, 6, 1, 1))),
    (b"V0 1 999999 1", Err((SHEET, 6, 1, 1))),
    (b"R1 2 1 1/2\n R1 1 2 1\nq", Err((SHEET, 3, 2, 1))),
];

#[test]
fn faults_in_drawing(rt: HostRuntime) {
    all_answer(&rt, &IN_DRAWING, &mut fresh_rows::<f64>());
}

static IN_REMAINDERS: [Case; 9] = [
    // In remainders modulo 8,191 other denominators and values are zero.
    (b"V0 1 0 1/8191", Err((CARDS, 23, 1, 8))),
    (b"V0 1 0 1/8192", Ok(())),
    (b"R0 1 2 16382", Err((SHEET, 8, 1, 1))),
    (b"R0 1 2 8191", Err((SHEET, 8, 1, 1))),
    (b"C0 1 2 1 1/16382", Err((CARDS, 23, 1, 10))),
    (b"C0 1 2 1 8191", Ok(())),
    (b"V0 1 0 -8191", Ok(())),
    (b"L0 1 2 8191 x", Err((CARDS, 22, 1, 13))),
    (b"L0 1 2 1/8191 x", Err((CARDS, 23, 1, 8))),
];

#[test]
fn faults_in_remainders(rt: HostRuntime) {
    all_answer(&rt, &IN_REMAINDERS, &mut fresh_rows::<u16>());
}
