// The work area of a step.
ghost use Rattle.std.specs.Prelude.{◌≡◌, replicate};

use arithmetic::Arithmetic;

// Zero at every place.
pub(crate) fn clear<N: Arithmetic>(area: &mut [N; 304])
    ensures { area.new ≡ replicate 304 N.nil }
{
    area.fill_with(|| N::zero());
}
