// The engine's answers as a stream writes them.
use crate::figure::Figure;
use figures::Trace;
use sheet::{Refusal, Shown};
use std::fmt;

// A slip has at most so many bytes.
pub(crate) const SLIP: usize = 280;

// `ok`, or the refusal.
#[derive(Drop)]
pub(crate) struct Answer(pub(crate) Result<(), Refusal>);

impl fmt::Display for Answer {
    fn fmt<W: fmt::Write>(&self, f: &mut fmt::Formatter<W>) -> fmt::Result {
        match self.0 {
            Ok(()) => f.write_str("ok"),
            Err(refusal) => show_refusal(refusal, f),
        }
    }
}

fn show_refusal<W: fmt::Write>(refusal: Refusal, f: &mut fmt::Formatter<W>) -> fmt::Result {
    write!(f, "refused {refusal}")?;
    if let Some(Shown { members, against }) = refusal.shown() {
        write!(f, " {members:08x} {against:08x}")?;
    }
    Ok(())
}

// `row K CURRENT VOLTAGE`.
#[derive(Drop)]
pub(crate) struct RowAnswer<N> {
    pub(crate) number: u32,
    pub(crate) current: N,
    pub(crate) voltage: N,
}

impl<N: Figure> fmt::Display for RowAnswer<N> {
    fn fmt<W: fmt::Write>(&self, f: &mut fmt::Formatter<W>) -> fmt::Result {
        write!(f, "row {} ", self.number)?;
        self.current.show(f)?;
        f.write_str(" ")?;
        self.voltage.show(f)
    }
}

// `slip LENGTH BYTES`, or the refusal. A byte past them that is not zero is told too, so the whole area is kept beside
// the length.
#[derive(Drop)]
pub(crate) struct SlipAnswer {
    pub(crate) bytes: [u8; SLIP],
    pub(crate) used: Result<usize, Refusal>,
}

impl fmt::Display for SlipAnswer {
    fn fmt<W: fmt::Write>(&self, f: &mut fmt::Formatter<W>) -> fmt::Result {
        f.write_str("slip ")?;
        match self.used {
            Ok(used) => show_slip(&self.bytes, used.min(SLIP), f),
            Err(refusal) => show_refusal(refusal, f),
        }
    }
}

fn show_slip<W: fmt::Write>(
    bytes: &[u8; SLIP],
    used: usize,
    f: &mut fmt::Formatter<W>,
) -> fmt::Result {
    write!(f, "{used} ")?;
    for (i, byte) in bytes.iter().enumerate() {
        let byte = *byte;
        if i < used {
            write!(f, "{byte:02x}")?;
        } else if byte != 0 {
            write!(f, " and {byte:02x}")?;
        }
    }
    Ok(())
}

// `reading K READING`, or the refusal.
#[derive(Drop)]
pub(crate) struct ReadingAnswer {
    pub(crate) number: u32,
    pub(crate) reading: Result<i32, Refusal>,
}

impl fmt::Display for ReadingAnswer {
    fn fmt<W: fmt::Write>(&self, f: &mut fmt::Formatter<W>) -> fmt::Result {
        write!(f, "reading {} ", self.number)?;
        match self.reading {
            Ok(reading) => write!(f, "{reading}"),
            Err(refusal) => show_refusal(refusal, f),
        }
    }
}

// `trace K LEAST GREATEST LAST COUNT`.
#[derive(Drop)]
pub(crate) struct TraceAnswer {
    pub(crate) number: u32,
    pub(crate) trace: Trace,
}

impl fmt::Display for TraceAnswer {
    fn fmt<W: fmt::Write>(&self, f: &mut fmt::Formatter<W>) -> fmt::Result {
        write!(f, "trace {} ", self.number)?;
        self.trace.least().show(f)?;
        f.write_str(" ")?;
        self.trace.greatest().show(f)?;
        f.write_str(" ")?;
        self.trace.last().show(f)?;
        write!(f, " {}", self.trace.count())
    }
}
