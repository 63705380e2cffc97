// The replay of a stream.
use crate::files::replay_file;
use crate::progress::{Progress, Report};
use crate::stop::Stop;
use crate::story::replay_story;
use crate::stream::Stream;
use std::alloc::Global;

// One part, whose first line this is.
fn replay_part(
    heap: Global,
    stream: &mut Stream,
    line: &[u8],
    progress: &mut Progress,
) -> Result<(), Stop> {
    if line.starts_with(b"file ") {
        progress.begin_file();
        return replay_file(heap, stream, line);
    }
    progress.begin_story();
    replay_story(stream, line)
}

// Every part up to the line `end`, which has to come and after which nothing may.
fn replay_parts(heap: Global, stream: &mut Stream, progress: &mut Progress) -> Result<(), Stop> {
    // Counted by what is left, as the calls of a story are.
    for _ in 0..stream.left() {
        let line = stream.line().ok_or(Stop::Unreadable)?;
        if line == b"end".as_slice() {
            return expect_nothing(stream);
        }
        replay_part(heap, stream, line, progress)?;
    }
    Err(Stop::Unreadable)
}

fn expect_nothing(stream: &Stream) -> Result<(), Stop> {
    (stream.left() == 0).then_some(()).ok_or(Stop::Unreadable)
}

// Replays a stream up to the first answer that is not the expected one.
pub fn replay(heap: Global, text: &[u8]) -> Report {
    let mut stream = Stream::new(text);
    let mut progress = Progress::default();
    let end = replay_parts(heap, &mut stream, &mut progress);
    Report {
        progress,
        lines: stream.lines(),
        end,
    }
}
