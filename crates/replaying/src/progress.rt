// How far a replay came, and the line that tells it.
use crate::stop::Stop;
use std::fmt;

#[derive(Clone, Copy)]
pub(crate) enum Part {
    File,
    Story,
}

// How many files and stories are begun, and the part that is replayed.
#[derive(Clone, Copy, Default)]
pub(crate) struct Progress {
    pub(crate) files: u32,
    pub(crate) stories: u32,
    pub(crate) part: Option<Part>,
}

impl Progress {
    pub(crate) fn begin_file(&mut self) {
        self.files = self.files.saturating_add(1);
        self.part = Some(Part::File);
    }

    pub(crate) fn begin_story(&mut self) {
        self.stories = self.stories.saturating_add(1);
        self.part = Some(Part::Story);
    }
}

impl fmt::Display for Progress {
    fn fmt<W: fmt::Write>(&self, f: &mut fmt::Formatter<W>) -> fmt::Result {
        match self.part {
            None => f.write_str("stream"),
            Some(Part::File) => write!(f, "file {}", self.files),
            Some(Part::Story) => write!(f, "story {}", self.stories),
        }
    }
}

// What a replay found: what stopped it, after so many lines, or nothing.
#[derive(Drop)]
pub struct Report {
    pub(crate) progress: Progress,
    pub(crate) lines: usize,
    pub(crate) end: Result<(), Stop>,
}

impl fmt::Display for Report {
    fn fmt<W: fmt::Write>(&self, f: &mut fmt::Formatter<W>) -> fmt::Result {
        match &self.end {
            Ok(()) => {
                let Progress { files, stories, .. } = self.progress;
                write!(f, "{files} files, {stories} stories, no difference")
            }
            Err(stop) => write!(f, "{}, line {}: {stop}", self.progress, self.lines),
        }
    }
}
