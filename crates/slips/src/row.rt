// A row of a slip: its number, and -1, 0 or +1 at each of 32 places.
#[derive(Clone, Copy)]
pub struct SlipRow {
    pub number: u32,
    pub entries: [i8; 32],
}
