// The replay of a card file.
use crate::stop::{Stop, Text, expect};
use crate::stream::Stream;
use crate::words::Words;
use printed_key::whole_key;
use std::alloc::Global;

// The length in a line of a name and a length.
fn length_of(line: &[u8], name: &[u8]) -> Option<usize> {
    let mut words = Words::new(line);
    if words.word()? != name {
        return None;
    }
    let length = words.number()?;
    words.end()?;
    Some(length as usize)
}

// The lines of a key, and the empty line after it.
fn expect_key(stream: &mut Stream, key: &str) -> Result<(), Stop> {
    for line in key.lines() {
        expect(stream, line)?;
    }
    expect(stream, "")
}

// A file, whose first line is read, and its key.
pub(crate) fn replay_file(heap: Global, stream: &mut Stream, line: &[u8]) -> Result<(), Stop> {
    let length = length_of(line, b"file").ok_or(Stop::Unreadable)?;
    let cards = stream.block(length).ok_or(Stop::Unreadable)?;
    let key = whole_key(heap, cards)?;
    let line = stream.line().ok_or(Stop::Unreadable)?;
    let length = length_of(line, b"key").ok_or(Stop::Unreadable)?;
    expect_key(stream, key.as_str())?;
    let found = key.len();
    if length != found {
        return Err(Stop::Different {
            expected: Text::of(format_args!("key {length}")),
            found: Text::of(format_args!("key {found}")),
        });
    }
    Ok(())
}
