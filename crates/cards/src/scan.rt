// How far a byte is away.
ghost use Rattle.std.specs.Prelude.{◌≡◌, ◌≤◌, length};
ghost use Rattle.cards.specs.Parts.{reach};

// How many bytes stand before the first `stop`: all of them where there is none.
pub(crate) fn until(bytes: &[u8], stop: u8) -> usize
    ensures reach { result ≡ reach stop bytes.now }
    ensures within { result ≤ length bytes.now }
{
    bytes.iter().position(|b| *b == stop).unwrap_or(bytes.len())
}
