// Why a replay stops, and the comparing that may stop it.
use crate::stream::Stream;
use std::alloc::AllocError;
use std::fmt;
use std::fmt::InlineText;
use std::str::from_utf8;

// No answer has more bytes; a longer line of a stream is cut when it is shown, so that comparing asks for no memory.
const LONGEST: usize = 600;

pub(crate) type Text = InlineText<LONGEST>;

#[derive(Drop)]
pub(crate) enum Stop {
    // The stream does not follow its format.
    Unreadable,
    // There is no memory for a printed key.
    NoMemory,
    // The engine's answer is not the expected one.
    Different { expected: Text, found: Text },
}

impl From<AllocError> for Stop {
    fn from(_e: AllocError) -> Stop {
        Stop::NoMemory
    }
}

impl fmt::Display for Stop {
    fn fmt<W: fmt::Write>(&self, f: &mut fmt::Formatter<W>) -> fmt::Result {
        match self {
            Stop::Unreadable => f.write_str("no such line is in a stream"),
            Stop::NoMemory => f.write_str("no memory is left"),
            Stop::Different { expected, found } => {
                let expected = expected.as_str();
                let found = found.as_str();
                write!(f, "expected \"{expected}\", found \"{found}\"")
            }
        }
    }
}

// The next line has to be this answer.
pub(crate) fn expect<D: fmt::Display + Drop>(stream: &mut Stream, answer: D) -> Result<(), Stop> {
    let line = stream.line().ok_or(Stop::Unreadable)?;
    let found = Text::of(answer);
    if line == found.as_str().as_bytes() {
        return Ok(());
    }
    let expected = Text::of(from_utf8(line).unwrap_or("bytes that are no text"));
    Err(Stop::Different { expected, found })
}
