// What a sheet holds of a branch besides its kind and ends.
ghost use Rattle.std.specs.Prelude.{◌≡◌, map, replicate};
ghost use Rattle.sheet.specs.Calls.{valued, zero_row};
ghost use Rattle.sheet.specs.Meanings.{meanings, meant_row};

use arithmetic::Arithmetic;

#[derive(Clone, Copy)]
pub struct Row<N> {
    pub value: N,
    pub start: N,
    pub current: N,
    pub voltage: N,
}

impl<N: Arithmetic> Row<N> {
    // The row of an empty place.
    pub fn zero() -> Row<N>
        ensures { result ≡ zero_row (valued N.ops N.mean N.nil) }
    {
        let zero = N::zero();
        Row {
            value: zero,
            start: zero,
            current: zero,
            voltage: zero,
        }
    }
}

// Thirty-two rows of zeros.
pub fn fresh_rows<N: Arithmetic>() -> [Row<N>; 32]
    ensures rows { result ≡ replicate 32 (zero_row (valued N.ops N.mean N.nil)) }
    ensures meant { map (meant_row N.mean) result ≡ replicate 32 (zero_row (meanings N.ops)) }
{
    [Row::zero(); 32]
}
