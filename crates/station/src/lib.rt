// The key engine behind a C interface, for a marking station: numbers and byte slices alone. covshurii.h declares the
// functions for C; specs/Station.antt says what they answer and leave.
#![tactic(auto)]

ghost use Rattle.std.specs.Prelude.{◌≡◌, length};
ghost use Rattle.station.specs.Station.{in_front, Keyed, mark_of};

#[cfg(test)]
mod tests;

use printed_key::{read_circuit, whole_key};
use std::alloc::Global;

// What is answered for want of memory, since C takes a number alone.
const NO_MEMORY: usize = usize::MAX;

// The text at the front of the buffer, where it fits; a shorter buffer is left alone.
fn put_in_front(text: &[u8], buffer: &mut [u8])
    ensures { buffer.new ≡ in_front text.now buffer.old }
{
    let length = text.len();
    if length <= buffer.len() {
        buffer[0..length].copy_from_slice(text);
    }
}

// The key of a card file into a lent buffer: the length that it needs is answered, and a shorter buffer is left alone.
#[unsafe(no_mangle)]
pub extern "C" fn covshurii_key(heap: Global, cards: &[u8], buffer: &mut [u8]) -> usize
    ensures { Keyed cards.now buffer.old result buffer.new }
{
    match whole_key(heap, cards) {
        Ok(text) => {
            put_in_front(text.as_bytes(), buffer);
            text.len()
        }
        Err(_) => NO_MEMORY,
    }
}

// The number of the refusal that ends the key of a card file before its steps; 0 where there is none, since C takes a
// number alone.
#[unsafe(no_mangle)]
pub extern "C" fn covshurii_mark(cards: &[u8]) -> u32
    ensures { result ≡ mark_of cards.now }
{
    match read_circuit(cards) {
        Ok(_) => 0,
        Err(stop) => stop.refusal().number(),
    }
}
