// The figures of a stream, in either arithmetic.
use crate::digits::hexadecimal;
use arithmetic::remainder_of;
use std::fmt;
use std::num::{f64_from_bits_with_nan, f64_to_bits_with_nan};

// A value of an arithmetic, as a stream writes it: by its bits or its remainder, where `Display` writes it in decimal.
pub(crate) trait Figure: Copy {
    // The value that a word hands over.
    fn read(word: &[u8]) -> Option<Self>;

    // Writes what the value is compared by.
    fn show<W: fmt::Write>(self, f: &mut fmt::Formatter<W>) -> fmt::Result;
}

// Sixteen digits, the bits; all NaNs are one.
impl Figure for f64 {
    fn read(word: &[u8]) -> Option<f64> {
        Some(f64_from_bits_with_nan(hexadecimal(word, 16)?))
    }

    fn show<W: fmt::Write>(self, f: &mut fmt::Formatter<W>) -> fmt::Result {
        if self.is_nan() {
            return f.write_str("nan");
        }
        let bits = f64_to_bits_with_nan(self);
        write!(f, "{bits:016x}")
    }
}

// Four digits: any 16-bit number is handed over, and its remainder is compared.
impl Figure for u16 {
    fn read(word: &[u8]) -> Option<u16> {
        u16::try_from(hexadecimal(word, 4)?).ok()
    }

    fn show<W: fmt::Write>(self, f: &mut fmt::Formatter<W>) -> fmt::Result {
        let remainder = remainder_of(self);
        write!(f, "{remainder:04x}")
    }
}
